ghost use Rattle.std.specs.Prelude.{decimal};
ghost use Rattle.scr_base.specs.Causes.{CountsError};
ghost use Rattle.scr_base.specs.Streams.{WritesText};

use crate::sink::{Sink, SinkError};
use itoa::Buffer;

/// Appends the whole piece. At `Err` a front of it was appended, and not all.
pub fn put_all<O: Sink>(out: &mut O, piece: &[u8]) -> Result<(), SinkError>
    ensures text { WritesText (O.written out.old) (O.written out.new) result piece.now }
    ensures cause { CountsError O.faults O.wants out.old out.new result }
{
    let mut rest = piece;
    while !rest.is_empty() {
        let count = out.write(rest)?;
        (_, rest) = rest.split_at(count);
    }
    Ok(())
}

/// Appends the decimal text of a number, as `put_all` does.
pub fn put_decimal<O: Sink>(out: &mut O, n: u64) -> Result<(), SinkError>
    ensures text { WritesText (O.written out.old) (O.written out.new) result (decimal n) }
    ensures cause { CountsError O.faults O.wants out.old out.new result }
{
    let mut buffer = Buffer::new();
    put_all(out, buffer.format(n).as_bytes())
}
