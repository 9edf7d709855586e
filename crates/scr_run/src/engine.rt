ghost use Rattle.std.specs.Prelude.{◌≡◌, ◌≢◌, ◌≤◌, ◌⊎◌, ◌++◌, ◌∷◌, [], ℕ, List, length, Some, Ok, Err, IfOk, IfErr, IfSome, OnOk};
ghost use Rattle.std.specs.Io.KnownBytes.{IsAtEnd};
ghost use Rattle.scr_base.specs.Causes.{counted};
ghost use Rattle.scr_frame.specs.Fields.{fields};
ghost use Rattle.scr_pcap.specs.Records.{Record, RECORDS, CAPTURED};
ghost use Rattle.scr_pcapng.specs.Reading.{IsReading};
ghost use Rattle.scr_pcapng.specs.declared.error.AnyError.{AnyError};
ghost use Rattle.scr_words.specs.declared.word_fault.WordFault.{WordFault};
ghost use Rattle.scr_run.specs.Rules.{ruled_by};
ghost use Rattle.scr_run.specs.RunReport.{shaped_text, rows_of};
ghost use Rattle.scr_run.specs.Asked.{IsOfCapture, status_of};
ghost use Rattle.scr_run.specs.Ends.{Ends, ended, Writes, StopsWriting, BeginsWriting, HasFault, StopsReading, IsRefusal, IsOutOfMemory, IsUnlessOutOfMemory, IsWantsBehind, reads_behind, writes_behind};

use crate::host::Host;
use crate::planned::{Manner, write_plan};
use crate::status::Status;
use scr_base::{OutOfMemory, Row, Sink, Source};
use scr_frame::parse;
use scr_pcap::FrameBuf;
use scr_pcapng::AnyReader;
use scr_plan::RunPlan;
use scr_program::Program;
use scr_replica::Gate;
use scr_words::Shape;
use std::alloc::Global;
use std::sync::Wait;
use std::thread::Threads;

/// A program over a capture, on the cores of a shape: the capture is read whole, its frames are dealt to the cores, and
/// the report of what they gathered is written, with the verdicts or without. The cores are threads, or take turns on this
/// one, as the shape says. Where they are threads, the lines of the verdicts leave while they run. It may wait for threads.
///
/// `out` gains the report, whole at [`Status::Done`] and else a front of it.
pub fn run_engine<P: Program, S: Source, O: Sink, G: Gate + Sync, R: Threads + Wait + Sync>(
    rt: &R,
    alloc: Global,
    settings: &P::Settings,
    shape: Shape,
    with_verdicts: bool,
    capture: &mut S,
    out: &mut O,
    gate: &G,
) -> Status
    // At every exit `out` gained nothing, or a front of the report, and that behind the end of the capture.
    ensures front { (out.new ≡ out.old) ⊎ BeginsWriting
        (IsOfCapture (shaped_text (ruled_by (P.row_of settings.now) (P.verdict_after settings.now) (P.count_after settings.now) P.verdict_names) shape with_verdicts) (S.left capture.old))
        (IsAtEnd (S.left capture.new)) (O.written out.old) (O.written out.new) }

    // Done: it gained the report, whole and alone.
    ensures done { result ≡ Status.Done → Writes
        (IsOfCapture (shaped_text (ruled_by (P.row_of settings.now) (P.verdict_after settings.now) (P.count_after settings.now) P.verdict_names) shape with_verdicts) (S.left capture.old))
        (IsAtEnd (S.left capture.new)) (O.written out.old) (O.written out.new) }

    // A write failed: the report isn't whole.
    ensures write_fault { result ≡ Status.WriteFault → StopsWriting
        (IsOfCapture (shaped_text (ruled_by (P.row_of settings.now) (P.verdict_after settings.now) (P.count_after settings.now) P.verdict_names) shape with_verdicts) (S.left capture.old))
        (IsAtEnd (S.left capture.new)) (O.written out.old) (O.written out.new) }

    // Memory ran out: neither is it then.
    ensures out_of_memory { IsOutOfMemory result → (out.new ≡ out.old) ⊎ StopsWriting
        (IsOfCapture (shaped_text (ruled_by (P.row_of settings.now) (P.verdict_after settings.now) (P.count_after settings.now) P.verdict_names) shape with_verdicts) (S.left capture.old))
        (IsAtEnd (S.left capture.new)) (O.written out.old) (O.written out.new) }

    // A fault of the capture is answered only where the capture has it. No answer speaks of words.
    ensures refused { IsRefusal result → HasFault (S.left capture.old) result × (out.new ≡ out.old) }
    ensures no_words { (fault : WordFault) → result ≢ Status.Words fault }

    ensures read_fault { result ≡ Status.ReadFault → out.new ≡ out.old }

    // A malformed capture is answered as such where no read failed.
    ensures malformed { (bytes : List ℕ) (error : AnyError) → S.left capture.old ≡ Some bytes → IsReading bytes (Err error)
        → S.faults capture.new ≢ counted (S.faults capture.old) → IsUnlessOutOfMemory result (status_of error) }

    // Over a valid capture, with no failure of a stream, the report is written.
    ensures complete { (bytes : List ℕ) (records : List Record) → S.left capture.old ≡ Some bytes → IsReading bytes (Ok records)
        → S.faults capture.new ≢ counted (S.faults capture.old) → O.faults out.new ≢ counted (O.faults out.old)
        → IsUnlessOutOfMemory result Status.Done }

    // The counts tell how often a stream failed: once where the status says so, else never.
    ensures reads { S.faults capture.new ≡ reads_behind result (S.faults capture.old) }
    ensures writes { O.faults out.new ≡ writes_behind result (O.faults out.old) }
    ensures wants { IsWantsBehind result (O.wants out.old) (O.wants out.new) }
{
    let host = Host { rt, alloc, gate };
    Status::of(run_cores::<P, S, O, G, R>(&host, settings, shape, with_verdicts, capture, out))
}

/// The same, as how it ended tells it.
pub(crate) fn run_cores<P: Program, S: Source, O: Sink, G: Gate + Sync, R: Threads + Wait + Sync>(
    host: &Host<'_, R, G>,
    settings: &P::Settings,
    shape: Shape,
    with_verdicts: bool,
    capture: &mut S,
    out: &mut O,
) -> Result<(), Status>
    ensures ends { Ends (IsOfCapture (shaped_text (ruled_by (P.row_of settings.now) (P.verdict_after settings.now) (P.count_after settings.now) P.verdict_names) shape with_verdicts) (S.left capture.old))
        (Unit {0}) (IsAtEnd (S.left capture.new)) O.written (S.faults capture.old) (S.faults capture.new) O.faults O.wants out.old out.new (ended result) }
{
    let rows = rows_read::<P, S>(host.alloc, settings, capture)?;
    let manner = Manner {
        ring: shape.ring,
        threads: shape.threads,
        with_verdicts,
    };
    let plan = RunPlan::make(rows, shape.cores, shape.history, shape.link);
    write_plan::<P, O, G, R>(host, settings, &plan, manner, out)
}

// The rows of all frames of a capture.
pub(crate) fn rows_read<P: Program, S: Source>(
    alloc: Global,
    settings: &P::Settings,
    capture: &mut S,
) -> Result<Vec<Row>, Status>
    ensures rows { IfOk result (λ rows. (records : List Record) × IfSome (S.left capture.old) (λ bytes. IsReading bytes (Ok records))
        × (rows.items ≡ rows_of (P.row_of settings.now) records)) }
    ensures few { IfOk result (λ rows. length rows.items ≤ RECORDS) }
    ensures end { OnOk result (IsAtEnd (S.left capture.new)) }
    ensures calm { OnOk result (S.faults capture.new ≡ S.faults capture.old) }
    ensures stop { IfErr result (StopsReading (S.left capture.old) (S.faults capture.old) (S.faults capture.new)) }
{
    let mut frame = FrameBuf::make(alloc)?;
    let mut reader = AnyReader::begin(alloc, capture)?;
    let mut rows = Vec::new(alloc);
    while let Some(info) = reader.next(capture, &mut frame)? {
        put_row::<P>(&mut rows, settings, frame.bytes(), info.time)?;
    }
    Ok(rows)
}

// Puts the row of the next frame behind the others.
#[inline(always)]
fn put_row<P: Program>(
    rows: &mut Vec<Row>,
    settings: &P::Settings,
    frame: &[u8],
    time: u64,
) -> Result<(), OutOfMemory>
    requires { length frame.now ≤ CAPTURED }
    ensures { OnOk result (rows.new.items ≡ rows.old.items ++ P.row_of settings.now (fields frame.now) time ∷ []) }
{
    rows.push(P::extract(settings, &parse(frame), time))?;
    Ok(())
}
