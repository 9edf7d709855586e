ghost use Rattle.std.specs.Prelude.{◌≡◌, ◌≤◌, ℕ, List, length, drop, Option, IfOk};
ghost use Rattle.std.specs.Io.KnownBytes.{ReadConsumes};
ghost use Rattle.scr_base.specs.Causes.{CountsFault};

/// A stream failed. Its count of faults has risen.
#[derive(Clone, Copy, Debug, PartialEq, Eq)]
pub struct Failed;

/// A stream of bytes that is read from its front.
pub trait Source {
    /// The bytes that are still to come, where the source tells them.
    ghost left: { Self → Option (List ℕ) };

    /// How often the source has failed. It stops at 2^64 - 1.
    ghost faults: { Self → ℕ };

    /// Takes bytes from the front into `buf`, and answers how many; 0 for a nonempty `buf` is the end.
    /// At `Err` nothing is taken, and what `buf` holds is left open.
    fn read(&mut self, buf: &mut [u8]) -> Result<usize, Failed>
        ensures bound { IfOk result (λ count. count ≤ length buf.old) }
        ensures bytes { ReadConsumes (left self.old) (left self.new) result buf.new }
        ensures rest { IfOk result (λ count. drop count buf.new ≡ drop count buf.old) }
        ensures cause { CountsFault faults self.old self.new result };
}
