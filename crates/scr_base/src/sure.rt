ghost use Rattle.std.specs.Prelude.{◌≡◌, ◌≤◌, ◌<◌, ◌+◌, ◌++◌, ℕ, List, [], length, min, take, drop, Some, IfOk, MatchResult, if◌then◌else◌, is_ok, vec_len};
ghost use Rattle.std.specs.Io.KnownBytes.{ReadConsumes, WriteAppends};
ghost use Rattle.scr_base.specs.Causes.{CountsFault, CountsError};
ghost use Rattle.scr_base.specs.Memory.{SureSourceInMemory, SureSinkInMemory};

use crate::copying::copy_front;
use crate::out_of_memory::OutOfMemory;
use crate::sink::{Sink, SinkError};
use crate::source::{Failed, Source};
use std::alloc::Global;
use std::marker::Model;

/// Bytes in memory, read a few at a time. No call fails.
#[derive(Drop)]
pub struct SureSource {
    bytes: Vec<u8>,
    at: usize,
    limit: usize,
}

impl Model for SureSource {
    ghost Value = { SureSourceInMemory };

    ghost view = { λ source. record { left = drop source.at source.bytes.items; limit = source.limit } };

    ghost invariant = { λ source. (source.at ≤ vec_len source.bytes) × (1 ≤ source.limit) };
}

impl SureSource {
    /// A source of these bytes, at most `limit` of them a call.
    pub fn new(bytes: Vec<u8>, limit: usize) -> Self
        requires { 1 ≤ limit }
        ensures left { result.left ≡ bytes.items }
        ensures limit { result.limit ≡ limit }
    {
        SureSource {
            bytes,
            at: 0,
            limit,
        }
    }
}

impl Source for SureSource {
    ghost left = { λ source. Some source.left };

    ghost faults = { λ source. 0 };

    fn read(&mut self, buf: &mut [u8]) -> Result<usize, Failed>
        ensures bound { IfOk result (λ count. count ≤ length buf.old) }
        ensures bytes { ReadConsumes (Some self.old.left) (Some self.new.left) result buf.new }
        ensures rest { IfOk result (λ count. drop count buf.new ≡ drop count buf.old) }
        ensures cause { CountsFault (λ source. 0) self.old self.new result }
        ensures answer { result ≡ Ok (min self.old.limit (min (length buf.old) (length self.old.left))) }
        ensures limit { self.new.limit ≡ self.old.limit }
    {
        let left = &self.bytes[self.at..];
        let piece = &left[..left.len().min(self.limit)];
        let count = copy_front(piece, buf);
        self.at += count;
        Ok(count)
    }
}

/// Bytes that are collected in memory, a few at a time. No call fails, but for want of memory.
#[derive(Drop)]
pub struct SureSink {
    bytes: Vec<u8>,
    limit: usize,
    wants: u64,
}

impl Model for SureSink {
    ghost Value = { SureSinkInMemory };

    ghost view = { λ sink. record { written = sink.bytes.items; limit = sink.limit; wants = sink.wants } };

    ghost invariant = { λ sink. 1 ≤ sink.limit };
}

impl SureSink {
    /// An empty sink, which takes at most `limit` bytes a call.
    pub fn new(alloc: Global, limit: usize) -> Self
        requires { 1 ≤ limit }
        ensures written { result.written ≡ [] }
        ensures limit { result.limit ≡ limit }
        ensures wants { result.wants ≡ 0 }
    {
        SureSink {
            bytes: Vec::new(alloc),
            limit,
            wants: 0,
        }
    }

    /// What was written so far.
    pub fn written(&self) -> &[u8]
        ensures { result.now ≡ self.now.written }
    {
        &self.bytes
    }
}

impl Sink for SureSink {
    ghost written = { λ sink. Some sink.written };

    ghost faults = { λ sink. 0 };

    ghost wants = { λ sink. sink.wants };

    fn write(&mut self, piece: &[u8]) -> Result<usize, SinkError>
        ensures bound { IfOk result (λ count. count ≤ length piece.now) }
        ensures progress { IfOk result (λ count. 0 < length piece.now → 0 < count) }
        ensures bytes { WriteAppends (Some self.old.written) (Some self.new.written) result piece.now }
        ensures cause { CountsError (λ sink. 0) (λ sink. sink.wants) self.old self.new result }
        ensures answer { MatchResult result (λ count. count ≡ min self.old.limit (length piece.now)) (λ error. (want : OutOfMemory) × (error ≡ SinkError.OutOfMemory want)) }
        ensures limit { self.new.limit ≡ self.old.limit }
    {
        let count = self.limit.min(piece.len());
        match self.bytes.extend_from_slice(&piece[..count]) {
            Ok(()) => Ok(count),
            Err(error) => {
                self.wants = self.wants.saturating_add(1);
                Err(SinkError::OutOfMemory(error.into()))
            }
        }
    }
}
