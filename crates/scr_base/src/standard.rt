ghost use Rattle.std.specs.Prelude.{◌≡◌, ◌≢◌, ◌≤◌, ◌<◌, ◌++◌, ℕ, List, [], length, min, take, drop, slice_range, None, IfOk, IfErr, OnOk, OnErr, if◌then◌else◌, is_ok};
ghost use Rattle.std.specs.Io.KnownBytes.{Keeps, Consumes, IsAtEnd, ReadConsumes, WriteAppends, prepend_known};
ghost use Rattle.scr_base.specs.Causes.{CountsFault, CountsError, counted};
ghost use Rattle.scr_base.specs.Standard.{ReadAhead, WrittenTo};
ghost use Rattle.scr_base.specs.declared.standard.TheConstants.{AHEAD};

use crate::copying::copy_front;
use crate::sink::{Sink, SinkError};
use crate::source::{Failed, Source};
use std::io::{Read, Stderr, Stdin, Stdout, Write};
use std::marker::Model;

/// How many bytes are read at once, so that a small read costs no system call.
const AHEAD: usize = 65536;

/// A reader as a source, which reads ahead into an array of its own.
#[derive(Drop)]
pub struct ReaderSource<R: Read + Drop> {
    reader: R,
    bytes: [u8; AHEAD],
    start: usize,
    end: usize,
    faults: u64,
}

/// Standard input, which tells nothing of its bytes.
pub type StdSource = ReaderSource<Stdin>;

impl<R: Read + Drop> Model for ReaderSource<R> {
    ghost Value = { ReadAhead };

    ghost view = { λ source. record {
      held = slice_range source.bytes source.start source.end;
      rest = R.remaining source.reader;
      faults = source.faults;
    } };

    ghost invariant = { λ source. (source.start ≤ source.end) × (source.end ≤ AHEAD) };
}

impl<R: Read + Drop> ReaderSource<R> {
    /// A source of what the reader gives.
    pub fn new(reader: R) -> Self
        ensures held { result.held ≡ [] }
        ensures rest { result.rest ≡ R.remaining reader }
        ensures faults { result.faults ≡ 0 }
    {
        ReaderSource {
            reader,
            bytes: [0; AHEAD],
            start: 0,
            end: 0,
            faults: 0,
        }
    }

    fn held(&self) -> &[u8]
        ensures { result.now ≡ self.now.held }
    {
        &self.bytes[self.start..self.end]
    }

    // Gives bytes that it holds.
    #[inline(always)]
    fn give(&mut self, buf: &mut [u8]) -> usize
        ensures count { result ≡ min (length buf.old) (length self.old.held) }
        ensures bytes { self.old.held ≡ take result buf.new ++ self.new.held }
        ensures others { drop result buf.new ≡ drop result buf.old }
        ensures rest { self.new.rest ≡ self.old.rest }
        ensures faults { self.new.faults ≡ self.old.faults }
    {
        let count = copy_front(&self.bytes[self.start..self.end], buf);
        self.start += count;
        count
    }

    // Reads ahead, where it holds no byte. A read that was interrupted has failed.
    #[cold]
    #[inline(never)]
    fn refill(&mut self) -> Result<(), Failed>
        requires { self.old.held ≡ [] }
        ensures bytes { OnOk result (Consumes self.old.rest self.new.rest self.new.held) }
        ensures end { OnOk result (self.new.held ≡ [] → IsAtEnd self.new.rest) }
        ensures kept { OnErr result (Keeps self.old.rest self.new.rest) }
        ensures still_empty { OnErr result (self.new.held ≡ []) }
        ensures cause { CountsFault (λ source. source.faults) self.old self.new result }
    {
        match self.reader.read(&mut self.bytes) {
            Ok(count) => {
                self.start = 0;
                self.end = count;
                Ok(())
            }
            Err(_) => {
                self.start = 0;
                self.end = 0;
                self.faults = self.faults.saturating_add(1);
                Err(Failed)
            }
        }
    }
}

impl<R: Read + Drop> Source for ReaderSource<R> {
    ghost left = { λ source. prepend_known source.held source.rest };

    ghost faults = { λ source. source.faults };

    #[inline(always)]
    fn read(&mut self, buf: &mut [u8]) -> Result<usize, Failed>
        ensures bound { IfOk result (λ count. count ≤ length buf.old) }
        ensures bytes { ReadConsumes (prepend_known self.old.held self.old.rest) (prepend_known self.new.held self.new.rest) result buf.new }
        ensures rest { IfOk result (λ count. drop count buf.new ≡ drop count buf.old) }
        ensures cause { CountsFault (λ source. source.faults) self.old self.new result }
        ensures held { 0 < length self.old.held → IfOk result (λ count. self.old.held ≡ take count buf.new ++ self.new.held) }
        ensures count { 0 < length self.old.held → result ≡ Ok (min (length buf.old) (length self.old.held)) }
    {
        if !self.held().is_empty() || buf.is_empty() {
            return Ok(self.give(buf));
        }
        self.refill()?;
        Ok(self.give(buf))
    }
}

/// A writer as a sink, which writes as it is called.
#[derive(Drop)]
pub struct WriterSink<W: Write + Drop> {
    writer: W,
    faults: u64,
}

/// Standard output, which tells nothing of its bytes.
pub type StdOutput = WriterSink<Stdout>;

/// Standard error, which tells nothing of its bytes.
pub type StdError = WriterSink<Stderr>;

impl<W: Write + Drop> Model for WriterSink<W> {
    ghost Value = { WrittenTo };

    ghost view = { λ sink. record { written = W.contents sink.writer; faults = sink.faults } };
}

impl<W: Write + Drop> WriterSink<W> {
    /// A sink of what the writer takes.
    pub fn new(writer: W) -> Self
        ensures written { result.written ≡ W.contents writer }
        ensures faults { result.faults ≡ 0 }
    {
        WriterSink { writer, faults: 0 }
    }
}

impl<W: Write + Drop> Sink for WriterSink<W> {
    ghost written = { λ sink. sink.written };

    ghost faults = { λ sink. sink.faults };

    ghost wants = { λ sink. 0 };

    // A write has failed too where it took nothing of a nonempty piece.
    fn write(&mut self, piece: &[u8]) -> Result<usize, SinkError>
        ensures bound { IfOk result (λ count. count ≤ length piece.now) }
        ensures progress { IfOk result (λ count. 0 < length piece.now → 0 < count) }
        ensures bytes { WriteAppends self.old.written self.new.written result piece.now }
        ensures cause { CountsError (λ sink. sink.faults) (λ sink. 0) self.old self.new result }
        ensures error { IfErr result (λ error. error ≡ SinkError.Failed) }
    {
        match self.writer.write(piece) {
            Ok(count) if count > 0 || piece.is_empty() => Ok(count),
            _ => {
                self.faults = self.faults.saturating_add(1);
                Err(SinkError::Failed)
            }
        }
    }
}
