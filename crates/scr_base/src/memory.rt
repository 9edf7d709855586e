ghost use Rattle.std.specs.Prelude.{◌≡◌, ◌≢◌, ◌≤◌, ◌<◌, ℕ, List, [], length, min, drop, Some, IfOk, IsErr, MatchBool, MatchResult, if◌then◌else◌, is_ok};
ghost use Rattle.std.specs.Io.KnownBytes.{ReadConsumes, WriteAppends};
ghost use Rattle.scr_base.specs.Causes.{CountsFault, CountsError, counted};
ghost use Rattle.scr_base.specs.Memory.{SourceInMemory, SinkInMemory, fails};

use crate::out_of_memory::OutOfMemory;
use crate::sink::{Sink, SinkError};
use crate::source::{Failed, Source};
use crate::sure::{SureSink, SureSource};
use std::alloc::Global;
use std::marker::Model;

// The calls that fail, by their numbers from 1; how many were made, and how many of them failed.
#[derive(Drop)]
struct Calls {
    failing: Vec<u64>,
    made: u64,
    faults: u64,
}

impl Calls {
    fn new(failing: Vec<u64>) -> Self
        ensures failing { result.failing ≡ failing }
        ensures made { result.made ≡ 0 }
        ensures faults { result.faults ≡ 0 }
    {
        Calls {
            failing,
            made: 0,
            faults: 0,
        }
    }

    // Counts one call more, and answers whether it fails.
    fn next_fails(&mut self) -> bool
        ensures answer { result ≡ fails self.old.failing.items self.old.made }
        ensures failing { self.new.failing ≡ self.old.failing }
        ensures made { self.new.made ≡ counted self.old.made }
        ensures faults { self.new.faults ≡ (if result then counted self.old.faults else self.old.faults) }
        ensures later { self.old.faults ≤ self.new.faults }
    {
        self.made = self.made.saturating_add(1);
        let fails = self.failing.contains(&self.made);
        if fails {
            self.faults = self.faults.saturating_add(1);
        }
        fails
    }
}

/// Bytes in memory, read a few at a time, with calls that fail.
#[derive(Drop)]
pub struct MemSource {
    source: SureSource,
    calls: Calls,
}

impl Model for MemSource {
    ghost Value = { SourceInMemory };

    ghost view = { λ memory. record {
      left = memory.source.left;
      limit = memory.source.limit;
      failing = memory.calls.failing.items;
      calls = memory.calls.made;
      faults = memory.calls.faults;
    } };
}

impl MemSource {
    /// A source of these bytes, at most `limit` of them a call.
    /// The calls whose numbers, from 1, are in `failing` fail and take nothing.
    pub fn new(bytes: Vec<u8>, limit: usize, failing: Vec<u64>) -> Self
        requires { 1 ≤ limit }
        ensures left { result.left ≡ bytes.items }
        ensures limit { result.limit ≡ limit }
        ensures failing { result.failing ≡ failing.items }
        ensures calls { result.calls ≡ 0 }
        ensures faults { result.faults ≡ 0 }
    {
        MemSource {
            source: SureSource::new(bytes, limit),
            calls: Calls::new(failing),
        }
    }
}

impl Source for MemSource {
    ghost left = { λ source. Some source.left };

    ghost faults = { λ source. source.faults };

    fn read(&mut self, buf: &mut [u8]) -> Result<usize, Failed>
        ensures bound { IfOk result (λ count. count ≤ length buf.old) }
        ensures bytes { ReadConsumes (Some self.old.left) (Some self.new.left) result buf.new }
        ensures rest { IfOk result (λ count. drop count buf.new ≡ drop count buf.old) }
        ensures cause { CountsFault (λ source. source.faults) self.old self.new result }
        ensures answer { MatchBool (fails self.old.failing self.old.calls) (IsErr result)
            (result ≡ Ok (min self.old.limit (min (length buf.old) (length self.old.left)))) }
        ensures calls { self.new.calls ≡ counted self.old.calls }
        ensures limit { self.new.limit ≡ self.old.limit }
        ensures failing { self.new.failing ≡ self.old.failing }
    {
        if self.calls.next_fails() {
            return Err(Failed);
        }
        self.source.read(buf)
    }
}

/// Bytes that are collected in memory, a few at a time, with calls that fail.
#[derive(Drop)]
pub struct MemSink {
    sink: SureSink,
    calls: Calls,
}

impl Model for MemSink {
    ghost Value = { SinkInMemory };

    ghost view = { λ memory. record {
      written = memory.sink.written;
      limit = memory.sink.limit;
      failing = memory.calls.failing.items;
      calls = memory.calls.made;
      faults = memory.calls.faults;
      wants = memory.sink.wants;
    } };
}

impl MemSink {
    /// An empty sink, which takes at most `limit` bytes a call.
    /// The calls whose numbers, from 1, are in `failing` fail and append nothing.
    pub fn new(alloc: Global, limit: usize, failing: Vec<u64>) -> Self
        requires { 1 ≤ limit }
        ensures written { result.written ≡ [] }
        ensures limit { result.limit ≡ limit }
        ensures failing { result.failing ≡ failing.items }
        ensures calls { result.calls ≡ 0 }
        ensures faults { result.faults ≡ 0 }
        ensures wants { result.wants ≡ 0 }
    {
        MemSink {
            sink: SureSink::new(alloc, limit),
            calls: Calls::new(failing),
        }
    }

    /// What was written so far.
    pub fn written(&self) -> &[u8]
        ensures { result.now ≡ self.now.written }
    {
        self.sink.written()
    }
}

impl Sink for MemSink {
    ghost written = { λ sink. Some sink.written };

    ghost faults = { λ sink. sink.faults };

    ghost wants = { λ sink. sink.wants };

    fn write(&mut self, piece: &[u8]) -> Result<usize, SinkError>
        ensures bound { IfOk result (λ count. count ≤ length piece.now) }
        ensures progress { IfOk result (λ count. 0 < length piece.now → 0 < count) }
        ensures bytes { WriteAppends (Some self.old.written) (Some self.new.written) result piece.now }
        ensures cause { CountsError (λ sink. sink.faults) (λ sink. sink.wants) self.old self.new result }
        ensures answer { MatchBool (fails self.old.failing self.old.calls) (result ≡ Err SinkError.Failed)
            (MatchResult result (λ count. count ≡ min self.old.limit (length piece.now)) (λ error. (want : OutOfMemory) × (error ≡ SinkError.OutOfMemory want))) }
        ensures calls { self.new.calls ≡ counted self.old.calls }
        ensures limit { self.new.limit ≡ self.old.limit }
        ensures failing { self.new.failing ≡ self.old.failing }
    {
        if self.calls.next_fails() {
            return Err(SinkError::Failed);
        }
        self.sink.write(piece)
    }
}
