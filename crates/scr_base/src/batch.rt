ghost use Rattle.std.specs.Prelude.{◌≡◌, ◌+◌, ◌≤◌, ◌++◌, ℕ, List, [], length, take, decimal, OnErr, OnOk};
ghost use Rattle.std.specs.List.{flat_map};
ghost use Rattle.scr_base.specs.Causes.{CountsError};
ghost use Rattle.scr_base.specs.Streams.{WritesText, BatchesText, HoldsOrWrote, HoldsOrWroteBehind};
ghost use Rattle.scr_base.specs.Pieces.{text_of};
ghost use Rattle.scr_base.specs.declared.batch.TheConstants.{SIZE};

use crate::piece::Piece;
use crate::sink::{Sink, SinkError};
use crate::writing::put_all;
use itoa::Buffer;
use std::marker::Model;

/// How many bytes are collected before they are written, so that a line costs no call of the sink.
const SIZE: usize = 65536;

/// Text on its way to a sink: the bytes that are held back, in an array of its own.
#[derive(Drop)]
pub struct Batch {
    bytes: [u8; SIZE],
    filled: usize,
}

impl Model for Batch {
    ghost Value = { List ℕ };

    ghost view = { λ batch. take batch.filled batch.bytes };

    ghost invariant = { λ batch. batch.filled ≤ SIZE };
}

impl Batch {
    /// A batch that holds nothing.
    pub fn new() -> Self
        ensures { result ≡ [] }
    {
        Batch {
            bytes: [0; SIZE],
            filled: 0,
        }
    }

    /// Puts a text behind what is held, and writes what is held where there is no room.
    /// At `Err` the sink has gained a front of what was held and the text, and not all of it.
    pub fn put<O: Sink>(&mut self, out: &mut O, text: &[u8]) -> Result<(), SinkError>
        ensures text { BatchesText (O.written out.old) (O.written out.new) self.old self.new result text.now }
        ensures kept { OnErr result (HoldsOrWrote (O.written out.old) (O.written out.new) self.old self.new) }
        ensures cause { CountsError O.faults O.wants out.old out.new result }
    {
        if text.len() <= SIZE - self.filled {
            self.hold(text);
            return Ok(());
        }
        self.put_behind_all(out, text)
    }

    // Writes what is held, and then holds the text, or writes it too where it is longer than the array.
    #[cold]
    #[inline(never)]
    fn put_behind_all<O: Sink>(&mut self, out: &mut O, text: &[u8]) -> Result<(), SinkError>
        ensures text { BatchesText (O.written out.old) (O.written out.new) self.old self.new result text.now }
        ensures kept { OnErr result (HoldsOrWrote (O.written out.old) (O.written out.new) self.old self.new) }
        ensures cause { CountsError O.faults O.wants out.old out.new result }
    {
        self.finish(out)?;
        if text.len() > SIZE {
            return put_all(out, text);
        }
        self.hold(text);
        Ok(())
    }

    fn hold(&mut self, text: &[u8])
        requires { length self.old + length text.now ≤ SIZE }
        ensures { self.new ≡ self.old ++ text.now }
    {
        let end = self.filled + text.len();
        self.bytes[self.filled..end].copy_from_slice(text);
        self.filled = end;
    }

    /// Puts the decimal text of a number, as `put` does.
    pub fn put_decimal<O: Sink>(&mut self, out: &mut O, n: u64) -> Result<(), SinkError>
        ensures text { BatchesText (O.written out.old) (O.written out.new) self.old self.new result (decimal n) }
        ensures kept { OnErr result (HoldsOrWrote (O.written out.old) (O.written out.new) self.old self.new) }
        ensures cause { CountsError O.faults O.wants out.old out.new result }
    {
        let mut buffer = Buffer::new();
        self.put(out, buffer.format(n).as_bytes())
    }

    /// Puts the texts of these pieces one after another, as `put` does.
    pub fn put_pieces<O: Sink>(&mut self, out: &mut O, pieces: &[Piece]) -> Result<(), SinkError>
        ensures text { BatchesText (O.written out.old) (O.written out.new) self.old self.new result (flat_map text_of pieces.now) }
        ensures kept { OnErr result (HoldsOrWroteBehind (O.written out.old) (O.written out.new) self.old self.new pieces.now) }
        ensures cause { CountsError O.faults O.wants out.old out.new result }
    {
        for piece in pieces {
            self.put_piece(out, piece)?;
        }
        Ok(())
    }

    fn put_piece<O: Sink>(&mut self, out: &mut O, piece: &Piece) -> Result<(), SinkError>
        ensures text { BatchesText (O.written out.old) (O.written out.new) self.old self.new result (text_of piece.now) }
        ensures kept { OnErr result (HoldsOrWrote (O.written out.old) (O.written out.new) self.old self.new) }
        ensures cause { CountsError O.faults O.wants out.old out.new result }
    {
        match piece {
            Piece::Text(text) => self.put(out, text),
            Piece::Number(number) => self.put_decimal(out, *number),
        }
    }

    /// Writes what is held. At `Err` the sink has gained a front of it and not all, and all of it is still held.
    pub fn finish<O: Sink>(&mut self, out: &mut O) -> Result<(), SinkError>
        ensures text { WritesText (O.written out.old) (O.written out.new) result self.old }
        ensures empty { OnOk result (self.new ≡ []) }
        ensures kept { OnErr result (self.new ≡ self.old) }
        ensures cause { CountsError O.faults O.wants out.old out.new result }
    {
        put_all(out, &self.bytes[..self.filled])?;
        self.filled = 0;
        Ok(())
    }
}
