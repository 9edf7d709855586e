ghost use Rattle.std.specs.Prelude.{◌≤◌, ◌<◌, ℕ, List, length, Option, IfOk};
ghost use Rattle.std.specs.Io.KnownBytes.{WriteAppends};
ghost use Rattle.scr_base.specs.Causes.{CountsError};

use crate::out_of_memory::OutOfMemory;

/// Why a sink took nothing.
#[derive(Clone, Copy, Debug, PartialEq, Eq)]
pub enum SinkError {
    /// The stream failed; the sink's count of faults has risen.
    Failed,
    /// There was no memory; the sink's count of wants has risen.
    OutOfMemory(OutOfMemory),
}

/// A stream of bytes that is written at its end.
pub trait Sink {
    /// The bytes that were written, where the sink tells them.
    ghost written: { Self → Option (List ℕ) };

    /// How often the sink has failed. It stops at 2^64 - 1.
    ghost faults: { Self → ℕ };

    /// How often the sink wanted memory in vain. It stops at 2^64 - 1.
    ghost wants: { Self → ℕ };

    /// Appends bytes from the front of `piece`, and answers how many: at least one of a nonempty piece.
    /// At `Err` nothing is appended.
    fn write(&mut self, piece: &[u8]) -> Result<usize, SinkError>
        ensures bound { IfOk result (λ count. count ≤ length piece.now) }
        ensures progress { IfOk result (λ count. 0 < length piece.now → 0 < count) }
        ensures bytes { WriteAppends (written self.old) (written self.new) result piece.now }
        ensures cause { CountsError faults wants self.old self.new result };
}
