ghost use Rattle.std.specs.Prelude.{◌≡◌, ◌≢◌, ◌<◌, ◌-◌, ◌^◌, [], Some, Ok, Err, length};
ghost use Rattle.scr_run.specs.Asked.{IsAsked};
ghost use Rattle.scr_run.specs.Ends.{IsRefusal};
ghost use Rattle.scr_run.specs.declared.status.Status.{Status};

use scr_base::{SureSink, SureSource, Word};
use scr_run::{OpenGate, Status, scr_main};
use std::alloc::Global;
use std::sync::Wait;
use std::thread::Threads;

/// How a run ended, and what it wrote.
#[derive(Drop)]
pub struct Ended {
    /// The status, of which [`Status::code`] makes the exit code.
    pub status: Status,
    /// The report.
    pub out: SureSink,
    /// The line on the error stream.
    pub err: SureSink,
}

/// Runs the words of a command line over a capture in memory. It may wait for the cores, where they are threads.
pub fn run_words<R: Threads + Wait + Sync>(
    rt: &R,
    alloc: Global,
    words: &[Word],
    capture: Vec<u8>,
) -> Ended
    requires few_words { length words.now < 2 ^ 32 - 1 }

    // A run that is done has just the text that words and capture ask for.
    ensures done { result.status ≡ Status.Done → IsAsked words.now (Some capture.items) (Ok result.out.written) }

    // One that refuses either was asked for that status, and has no text.
    ensures refused { IsRefusal result.status → IsAsked words.now (Some capture.items) (Err result.status) × (result.out.written ≡ []) }

    // Nothing else ends a run but want of memory: streams in memory don't fail.
    ensures calm { (result.status ≢ Status.ReadFault) × (result.status ≢ Status.WriteFault) }
{
    let mut source = SureSource::new(capture, usize::MAX);
    let mut out = SureSink::new(alloc, usize::MAX);
    let mut err = SureSink::new(alloc, usize::MAX);
    let status = scr_main(rt, alloc, words, &mut source, &mut out, &mut err, &OpenGate);
    Ended { status, out, err }
}
