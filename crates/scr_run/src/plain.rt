ghost use Rattle.std.specs.Prelude.{◌≡◌, ◌≢◌, ◌<◌, ◌≤◌, ◌⊎◌, All, ◌++◌, ◌∷◌, [], ℕ, List, length, Some, Ok, Err, IfOk, IfErr, IfSome, OnOk};
ghost use Rattle.std.specs.Io.KnownBytes.{IsAtEnd};
ghost use Rattle.scr_base.specs.Causes.{counted};
ghost use Rattle.scr_base.specs.declared.row.Row.{Row};
ghost use Rattle.scr_frame.specs.Fields.{fields};
ghost use Rattle.scr_pcap.specs.Records.{Record, RECORDS, CAPTURED};
ghost use Rattle.scr_pcapng.specs.Reading.{IsReading};
ghost use Rattle.scr_pcapng.specs.declared.error.AnyError.{AnyError};
ghost use Rattle.scr_words.specs.declared.word_fault.WordFault.{WordFault};
ghost use Rattle.scr_replica.specs.OneCore.{verdicts, undivided};
ghost use Rattle.scr_report.specs.Outcome.{report_of};
ghost use Rattle.scr_run.specs.Rules.{ruled_by};
ghost use Rattle.scr_run.specs.RunReport.{plain_text, rows_of};
ghost use Rattle.scr_run.specs.Asked.{IsOfCapture, status_of};
ghost use Rattle.scr_run.specs.Ends.{Ends, ended, Writes, StopsWriting, BeginsWriting, HasFault, StopsReading, IsRefusal, IsOutOfMemory, IsUnlessOutOfMemory, IsWantsBehind, reads_behind, writes_behind};

use crate::found::write_found;
use crate::names::names_of;
use crate::status::Status;
use scr_base::{OutOfMemory, Sink, Source};
use scr_frame::parse;
use scr_pcap::{FrameBuf, RecordInfo};
use scr_pcapng::AnyReader;
use scr_plan::Given;
use scr_program::Program;
use scr_report::{FrameCounts, Report};
use std::alloc::Global;

/// A program over a capture, without cores: it takes each frame in turn, and the report is written when the capture was
/// read to its end. Rows aren't kept. It waits for nothing.
///
/// `out` gains the report, whole at [`Status::Done`] and else a front of it.
pub fn plain_run<P: Program, S: Source, O: Sink>(
    alloc: Global,
    settings: &P::Settings,
    capture: &mut S,
    out: &mut O,
) -> Status
    // At every exit `out` gained nothing, or a front of the report, and that behind the end of the capture.
    ensures front { (out.new ≡ out.old) ⊎ BeginsWriting
        (IsOfCapture (plain_text (ruled_by (P.row_of settings.now) (P.verdict_after settings.now) (P.count_after settings.now) P.verdict_names)) (S.left capture.old))
        (IsAtEnd (S.left capture.new)) (O.written out.old) (O.written out.new) }

    // Done: it gained the report, whole and alone.
    ensures done { result ≡ Status.Done → Writes
        (IsOfCapture (plain_text (ruled_by (P.row_of settings.now) (P.verdict_after settings.now) (P.count_after settings.now) P.verdict_names)) (S.left capture.old))
        (IsAtEnd (S.left capture.new)) (O.written out.old) (O.written out.new) }

    // A write failed: the report isn't whole.
    ensures write_fault { result ≡ Status.WriteFault → StopsWriting
        (IsOfCapture (plain_text (ruled_by (P.row_of settings.now) (P.verdict_after settings.now) (P.count_after settings.now) P.verdict_names)) (S.left capture.old))
        (IsAtEnd (S.left capture.new)) (O.written out.old) (O.written out.new) }

    // Memory ran out: neither is it then.
    ensures out_of_memory { IsOutOfMemory result → (out.new ≡ out.old) ⊎ StopsWriting
        (IsOfCapture (plain_text (ruled_by (P.row_of settings.now) (P.verdict_after settings.now) (P.count_after settings.now) P.verdict_names)) (S.left capture.old))
        (IsAtEnd (S.left capture.new)) (O.written out.old) (O.written out.new) }

    // A fault of the capture is answered only where the capture has it. No answer speaks of words.
    ensures refused { IsRefusal result → HasFault (S.left capture.old) result × (out.new ≡ out.old) }
    ensures no_words { (fault : WordFault) → result ≢ Status.Words fault }

    ensures read_fault { result ≡ Status.ReadFault → out.new ≡ out.old }

    // A malformed capture is answered as such where no read failed.
    ensures malformed { (bytes : List ℕ) (error : AnyError) → S.left capture.old ≡ Some bytes → IsReading bytes (Err error)
        → S.faults capture.new ≢ counted (S.faults capture.old) → IsUnlessOutOfMemory result (status_of error) }

    // Over a valid capture, with no failure of a stream, the report is written.
    ensures complete { (bytes : List ℕ) (records : List Record) → S.left capture.old ≡ Some bytes → IsReading bytes (Ok records)
        → S.faults capture.new ≢ counted (S.faults capture.old) → O.faults out.new ≢ counted (O.faults out.old)
        → IsUnlessOutOfMemory result Status.Done }

    // The counts tell how often a stream failed: once where the status says so, else never.
    ensures reads { S.faults capture.new ≡ reads_behind result (S.faults capture.old) }
    ensures writes { O.faults out.new ≡ writes_behind result (O.faults out.old) }
    ensures wants { IsWantsBehind result (O.wants out.old) (O.wants out.new) }
{
    Status::of(run_whole::<P, S, O>(alloc, settings, capture, out))
}

/// The same, as how it ended tells it.
pub(crate) fn run_whole<P: Program, S: Source, O: Sink>(
    alloc: Global,
    settings: &P::Settings,
    capture: &mut S,
    out: &mut O,
) -> Result<(), Status>
    ensures ends { Ends (IsOfCapture (plain_text (ruled_by (P.row_of settings.now) (P.verdict_after settings.now) (P.count_after settings.now) P.verdict_names)) (S.left capture.old))
        (Unit {0}) (IsAtEnd (S.left capture.new)) O.written (S.faults capture.old) (S.faults capture.new) O.faults O.wants out.old out.new (ended result) }
{
    let core = one_core_answer::<P, S>(alloc, settings, capture)?;
    let report = plain_report::<P>(alloc, settings, core)?;
    write_found::<P, O>(alloc, &report, true, out)
}

// A program at its work: its state, and the verdicts that it has given.
#[derive(Drop)]
struct OneCore<T: Drop> {
    state: T,
    given: Vec<Given>,
}

// What the program found, as a report.
fn plain_report<P: Program>(
    alloc: Global,
    settings: &P::Settings,
    core: OneCore<P::State>,
) -> Result<Report, OutOfMemory>
    requires few { length core.given.items ≤ RECORDS }
    ensures { (rows : List Row) → P.StandsFor settings.now core.state rows → IfOk result (λ report. report ≡ report_of P.verdict_names core.given.items
        (length core.given.items) (length core.given.items) (length core.given.items) [] (P.count_after settings.now rows)) }
{
    let names = names_of::<P>(alloc)?;
    let flows = P::flows(settings, &core.state);
    let frames = core.given.len() as u32;
    let counts = FrameCounts {
        frames,
        delivered: frames,
        kept: frames,
    };
    Report::of(alloc, &names, core.given, counts, Vec::new(alloc), flows)
}

// What the program makes of a capture.
fn one_core_answer<P: Program, S: Source>(
    alloc: Global,
    settings: &P::Settings,
    capture: &mut S,
) -> Result<OneCore<P::State>, Status>
    ensures answer { IfOk result (λ core. (records : List Record) × IfSome (S.left capture.old) (λ bytes. IsReading bytes (Ok records))
        × (core.given.items ≡ verdicts (P.verdict_after settings.now) (undivided (rows_of (P.row_of settings.now) records)))
        × P.StandsFor settings.now core.state (rows_of (P.row_of settings.now) records)) }
    ensures named { IfOk result (λ core. All (λ given. given.verdict.0 < length P.verdict_names) core.given.items) }
    ensures few { IfOk result (λ core. length core.given.items ≤ RECORDS) }
    ensures end { OnOk result (IsAtEnd (S.left capture.new)) }
    ensures calm { OnOk result (S.faults capture.new ≡ S.faults capture.old) }
    ensures stop { IfErr result (StopsReading (S.left capture.old) (S.faults capture.old) (S.faults capture.new)) }
{
    let mut frame = FrameBuf::make(alloc)?;
    let mut reader = AnyReader::begin(alloc, capture)?;
    let mut core = OneCore {
        state: P::fresh(alloc, settings)?,
        given: Vec::new(alloc),
    };
    while let Some(info) = reader.next(capture, &mut frame)? {
        take::<P>(&mut core, settings, info, frame.bytes())?;
    }
    Ok(core)
}

// Takes the next frame, and gives its verdict.
#[inline(always)]
fn take<P: Program>(
    core: &mut OneCore<P::State>,
    settings: &P::Settings,
    info: RecordInfo,
    frame: &[u8],
) -> Result<(), OutOfMemory>
    requires { length frame.now ≤ CAPTURED }
    ensures given { (rows : List Row) → P.StandsFor settings.now core.old.state rows → OnOk result (core.new.given.items ≡ core.old.given.items ++ record {
      number = info.number;
      verdict = P.verdict_after settings.now rows (P.row_of settings.now (fields frame.now) info.time);
    } ∷ []) }
    ensures stands { (rows : List Row) → P.StandsFor settings.now core.old.state rows
        → OnOk result (P.StandsFor settings.now core.new.state (rows ++ P.row_of settings.now (fields frame.now) info.time ∷ [])) }
{
    let row = P::extract(settings, &parse(frame), info.time);
    let verdict = P::step(settings, &mut core.state, &row)?;
    core.given.push(Given {
        number: info.number,
        verdict,
    })?;
    Ok(())
}
