ghost use Rattle.std.specs.Prelude.{◌≡◌, List, Some, Ok, Err, IfOk, IfErr};
ghost use Rattle.scr_pcap.specs.Records.{Record};
ghost use Rattle.scr_pcapng.specs.Reading.{IsReading};
ghost use Rattle.scr_pcapng.specs.declared.error.AnyError.{AnyError};
ghost use Rattle.scr_run.specs.Asked.{IsOfCapture, status_of};
ghost use Rattle.scr_run.specs.Ends.{IsOutOfMemory, IsUnlessOutOfMemory};
ghost use Rattle.scr_run.specs.Rules.{ruled_by};
ghost use Rattle.scr_run.specs.RunReport.{plain_text};

use scr_base::{SureSink, SureSource};
use scr_program::Program;
use scr_run::{Status, plain_run};
use std::alloc::Global;

/// The report of a program over a capture in memory, in either format.
///
/// # Errors
/// The status of a run that isn't done: the capture's first fault, or want of memory.
pub fn report_of<P: Program>(
    alloc: Global,
    settings: &P::Settings,
    capture: Vec<u8>,
) -> Result<SureSink, Status>
    ensures report { IfOk result (λ report. IsOfCapture
        (plain_text (ruled_by (P.row_of settings.now) (P.verdict_after settings.now) (P.count_after settings.now) P.verdict_names))
        (Some capture.items) (Ok report.written)) }
    ensures malformed { (error : AnyError) → IsReading capture.items (Err error) → IfErr result (λ stopped. IsUnlessOutOfMemory stopped (status_of error)) }
    ensures complete { (records : List Record) → IsReading capture.items (Ok records) → IfErr result IsOutOfMemory }
{
    let mut source = SureSource::new(capture, usize::MAX);
    let mut out = SureSink::new(alloc, usize::MAX);
    match plain_run::<P, SureSource, SureSink>(alloc, settings, &mut source, &mut out) {
        Status::Done => Ok(out),
        stopped => Err(stopped),
    }
}
