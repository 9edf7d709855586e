ghost use Rattle.std.specs.Prelude.{◌≡◌, ◌≢◌, ◌<◌, ◌-◌, ◌^◌, ◌⊎◌, true, ℕ, List, Some, Ok, Err, length};
ghost use Rattle.std.specs.Io.KnownBytes.{IsAtEnd};
ghost use Rattle.scr_base.specs.Causes.{counted};
ghost use Rattle.scr_pcap.specs.Records.{Record};
ghost use Rattle.scr_pcapng.specs.Reading.{IsReading};
ghost use Rattle.scr_pcapng.specs.declared.error.AnyError.{AnyError};
ghost use Rattle.scr_plan.specs.Plan.{Plan};
ghost use Rattle.scr_stream.specs.Reading as stream;
ghost use Rattle.scr_stream.specs.declared.error.StreamError.{StreamError};
ghost use Rattle.scr_words.specs.declared.word_fault.WordFault.{WordFault};
ghost use Rattle.scr_words.specs.declared.settings.RunSettings.{RunSettings};
ghost use Rattle.scr_words.specs.Operands.{makes_load};
ghost use Rattle.scr_words.specs.WordFaults.{AreRefused};
ghost use Rattle.scr_words.specs.GivenSettings.{AreAccepted};
ghost use Rattle.scr_run.specs.FaultLines.{fault_line, IsTold};
ghost use Rattle.scr_run.specs.Asked.{IsAsked, TakeInput, TakeCapture, TakeStream, status_of, status_of_stream};
ghost use Rattle.scr_run.specs.Ends.{Ends, ended, Writes, StopsWriting, BeginsWriting, IsRefusal, IsOutOfMemory, IsUnlessOutOfMemory, IsWantsBehind, reads_behind, writes_behind};

use crate::commands::run_chosen;
use crate::fault_line::write_fault_line;
use crate::host::Host;
use crate::status::Status;
use scr_base::{Sink, Source, Word};
use scr_replica::Gate;
use scr_words::read_words;
use std::alloc::Global;
use std::sync::Wait;
use std::thread::Threads;

/// All that the program does: it tests the words, takes the capture or the stream that they ask for, lets the program and
/// the cores that they choose give verdicts, and writes the report to `out`; or it writes there what the cores are delivered
/// of a capture, as a stream. Where the run ends otherwise, it writes the line of the status to `err`.
///
/// `words` are the arguments behind the program's own name. `capture` is the input, a capture or a stream. It is read a
/// piece at a time, in one pass, and not at all where the words are refused, or ask for a capture that is made up. `out`
/// gains nothing before the input is read to its end, and from then on the report or the stream, whole at [`Status::Done`]
/// and else a front of it. A failure of `err` changes nothing of the answer. Each core of a run goes through the gate, where
/// the cores are threads. It may wait for them.
pub fn scr_main<S: Source, O: Sink, E: Sink, G: Gate + Sync, R: Threads + Wait + Sync>(
    rt: &R,
    alloc: Global,
    words: &[Word],
    capture: &mut S,
    out: &mut O,
    err: &mut E,
    gate: &G,
) -> Status
    requires few_words { length words.now < 2 ^ 32 - 1 }

    // At every exit `out` gained nothing, or a front of the text that words and input ask for, and that behind the end
    // of the input.
    ensures front { (out.new ≡ out.old) ⊎ BeginsWriting (IsAsked words.now (S.left capture.old)) (TakeInput words.now → IsAtEnd (S.left capture.new)) (O.written out.old) (O.written out.new) }

    // Done: it gained that text, whole and alone.
    ensures done { result ≡ Status.Done → Writes (IsAsked words.now (S.left capture.old)) (TakeInput words.now → IsAtEnd (S.left capture.new)) (O.written out.old) (O.written out.new) }

    // A write failed, or memory ran out: the text isn't whole.
    ensures write_fault { result ≡ Status.WriteFault → StopsWriting (IsAsked words.now (S.left capture.old)) (TakeInput words.now → IsAtEnd (S.left capture.new)) (O.written out.old) (O.written out.new) }
    ensures out_of_memory { IsOutOfMemory result → (out.new ≡ out.old)
        ⊎ StopsWriting (IsAsked words.now (S.left capture.old)) (TakeInput words.now → IsAtEnd (S.left capture.new)) (O.written out.old) (O.written out.new) }

    // Words, a capture or a stream are refused only where words and input ask for that status. So a stream is refused as a
    // stream alone, and nothing else is.
    ensures refused { IsRefusal result → IsAsked words.now (S.left capture.old) (Err result) × (out.new ≡ out.old) }

    ensures of_stream { (error : StreamError) → result ≡ Status.Stream error → (code : ℕ) × TakeStream words.now code }

    // Reading failed: the words are accepted, and take an input.
    ensures read_fault { result ≡ Status.ReadFault → TakeInput words.now × (out.new ≡ out.old) }

    // Where the words are refused, or make their capture up, nothing is read.
    ensures unread { (TakeInput words.now → ⊥) → capture.new ≡ capture.old }

    // Refused words are answered as such; a malformed capture or stream is where no read failed; and where none is refused,
    // and neither reading nor writing failed, the run is done.
    ensures words { (fault : WordFault) → AreRefused words.now fault → IsUnlessOutOfMemory result (Status.Words fault) }
    ensures malformed { (bytes : List ℕ) (error : AnyError) → TakeCapture words.now → S.left capture.old ≡ Some bytes → IsReading bytes (Err error)
        → S.faults capture.new ≢ counted (S.faults capture.old) → IsUnlessOutOfMemory result (status_of error) }
    ensures complete { (bytes : List ℕ) (records : List Record) → TakeCapture words.now → S.left capture.old ≡ Some bytes → IsReading bytes (Ok records)
        → S.faults capture.new ≢ counted (S.faults capture.old) → O.faults out.new ≢ counted (O.faults out.old) → IsUnlessOutOfMemory result Status.Done }
    ensures malformed_stream { (code : ℕ) (bytes : List ℕ) (error : StreamError) → TakeStream words.now code → S.left capture.old ≡ Some bytes → stream.IsReading code bytes (Err error)
        → S.faults capture.new ≢ counted (S.faults capture.old) → IsUnlessOutOfMemory result (status_of_stream error) }
    ensures complete_stream { (code : ℕ) (bytes : List ℕ) (plan : Plan) → TakeStream words.now code → S.left capture.old ≡ Some bytes → stream.IsReading code bytes (Ok plan)
        → S.faults capture.new ≢ counted (S.faults capture.old) → O.faults out.new ≢ counted (O.faults out.old) → IsUnlessOutOfMemory result Status.Done }
    ensures complete_load { (settings : RunSettings) → AreAccepted words.now settings → makes_load settings.command ≡ true
        → O.faults out.new ≢ counted (O.faults out.old) → IsUnlessOutOfMemory result Status.Done }

    // The counts tell how often a stream failed: once where the status says so, else never.
    ensures reads { S.faults capture.new ≡ reads_behind result (S.faults capture.old) }
    ensures writes { O.faults out.new ≡ writes_behind result (O.faults out.old) }
    ensures wants { IsWantsBehind result (O.wants out.old) (O.wants out.new) }

    // `err` gained the line of the status, or where a call of it failed, a front of the line, which its counts tell; nothing
    // is called where the run is done.
    ensures line { IsTold E.written E.faults E.wants err.old err.new (fault_line result) }
    ensures silent { result ≡ Status.Done → err.new ≡ err.old }
{
    let host = Host { rt, alloc, gate };
    let status = Status::of(run(&host, words, capture, out));
    let _ = write_fault_line(err, &status);
    status
}

fn run<S: Source, O: Sink, G: Gate + Sync, R: Threads + Wait + Sync>(
    host: &Host<'_, R, G>,
    words: &[Word],
    capture: &mut S,
    out: &mut O,
) -> Result<(), Status>
    requires few_words { length words.now < 2 ^ 32 - 1 }
    ensures ends { Ends (IsAsked words.now (S.left capture.old)) (TakeInput words.now) (TakeInput words.now → IsAtEnd (S.left capture.new))
        O.written (S.faults capture.old) (S.faults capture.new) O.faults O.wants out.old out.new (ended result) }
    ensures unread { (TakeInput words.now → ⊥) → capture.new ≡ capture.old }
{
    let chosen = read_words(host.alloc, words)?;
    run_chosen(host, chosen, capture, out)
}
