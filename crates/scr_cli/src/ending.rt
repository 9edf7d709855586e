ghost use Rattle.std.specs.Prelude.{◌≡◌, ◌<◌, ◌-◌, ◌^◌, length, IfOk, IfErr};
ghost use Rattle.std.specs.Result.{ForOk};
ghost use Rattle.std.specs.Io.KnownBytes.{IsAtEnd};
ghost use Rattle.scr_run.specs.declared.status.Status.{Status};
ghost use Rattle.scr_run.specs.Asked.{IsAsked, TakeInput};
ghost use Rattle.scr_run.specs.Ends.{Ends};
ghost use Rattle.scr_run.specs.FaultLines.{code_of, fault_line, want_code, want_line, IsTold};

use crate::arguments::NoWords;
use scr_base::{Sink, Source, Word};
use scr_run::{OpenGate, scr_main, tell_want};
use std::alloc::Global;
use std::sync::Wait;
use std::thread::Threads;

/// Runs the program on its words, and answers the exit code. Where there are none, that of a run out of memory, whose line
/// is written to `err`, and nothing is read.
pub fn ended<S: Source, O: Sink, E: Sink, R: Threads + Wait + Sync>(
    rt: &R,
    alloc: Global,
    words: Result<Vec<Word>, NoWords>,
    capture: &mut S,
    out: &mut O,
    err: &mut E,
) -> u8
    requires { ForOk words (λ words. length words.items < 2 ^ 32 - 1) }

    // Over words: a run, as the contract of `scr_main` says, its line, and its code.
    ensures run { IfOk words (λ words. (status : Status) × (result ≡ code_of status)
        × Ends (IsAsked words.items (S.left capture.old)) (TakeInput words.items) (TakeInput words.items → IsAtEnd (S.left capture.new))
        O.written (S.faults capture.old) (S.faults capture.new) O.faults O.wants out.old out.new status
        × IsTold E.written E.faults E.wants err.old err.new (fault_line status)) }

    // Over none.
    ensures none { IfErr words (λ none. (result ≡ want_code) × (capture.new ≡ capture.old) × (out.new ≡ out.old)
        × IsTold E.written E.faults E.wants err.old err.new want_line) }
{
    match words {
        Ok(words) => scr_main(rt, alloc, &words, capture, out, err, &OpenGate).code(),
        Err(_) => tell_want(err),
    }
}
