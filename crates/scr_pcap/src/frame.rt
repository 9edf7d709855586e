ghost use Rattle.std.specs.Prelude.{◌≡◌, ◌≤◌, ◌<◌, ◌+◌, ℕ, List, [], length, take, drop, slice_range, vec_len, IfOk, OnErr};
ghost use Rattle.std.specs.Io.KnownBytes.{Consumes, IsAtEnd};
ghost use Rattle.scr_base.specs.Causes.{CountsFault};
ghost use Rattle.scr_pcap.specs.Taken.{GivesFewer};
ghost use Rattle.scr_pcap.specs.declared.frame.TheConstants.{LONGEST};

use crate::filling::fill;
use scr_base::{Failed, OutOfMemory, Source};
use std::alloc::Global;
use std::marker::Model;

/// The longest frame that a capture may hold, in bytes.
pub const LONGEST: usize = 262_144;

/// The bytes of one frame, in memory that is used again for the next.
#[derive(Drop)]
pub struct FrameBuf {
    room: Vec<u8>,
    start: usize,
    end: usize,
}

impl Model for FrameBuf {
    ghost Value = { List ℕ };

    ghost view = { λ frame. slice_range frame.room.items frame.start frame.end };

    ghost invariant = { λ frame. (vec_len frame.room ≡ LONGEST) × (frame.start ≤ frame.end) × (frame.end ≤ LONGEST) };
}

impl FrameBuf {
    /// An empty buffer with room for the longest frame.
    pub fn make(alloc: Global) -> Result<Self, OutOfMemory>
        ensures { IfOk result (λ frame. frame ≡ []) }
    {
        let room = vec![in alloc; 0u8; LONGEST]?;
        Ok(FrameBuf {
            room,
            start: 0,
            end: 0,
        })
    }

    /// The bytes of the last frame.
    pub fn bytes(&self) -> &[u8]
        ensures bytes { result.now ≡ self.now }
        ensures within { length self.now ≤ LONGEST }
    {
        &self.room[self.start..self.end]
    }

    /// Takes a frame of this size, or as much of it as stands before the end, and answers how many bytes that was.
    #[inline(always)]
    pub fn fill<S: Source>(&mut self, source: &mut S, size: usize) -> Result<usize, Failed>
        requires { size ≤ LONGEST }
        ensures within { IfOk result (λ count. count ≤ size) }
        ensures count { IfOk result (λ count. count ≡ length self.new) }
        ensures taken { IfOk result (λ _. Consumes (S.left source.old) (S.left source.new) self.new) }
        ensures end { IfOk result (λ count. count < size → IsAtEnd (S.left source.new)) }
        ensures fewer { OnErr result (GivesFewer size (S.left source.old) (S.left source.new)) }
        ensures cause { CountsFault S.faults source.old source.new result }
    {
        self.start = 0;
        self.end = 0;
        let count = fill_front(source, &mut self.room, size)?;
        self.end = count;
        Ok(count)
    }

    /// Keeps so many of its bytes from a place on, and lets the others go.
    #[inline(always)]
    pub fn keep(&mut self, place: usize, size: usize)
        requires { place + size ≤ length self.old }
        ensures { self.new ≡ take size (drop place self.old) }
    {
        self.start += place;
        self.end = self.start + size;
    }
}

// Fills the first `size` bytes of the room, as `fill` does.
#[inline(always)]
fn fill_front<S: Source>(source: &mut S, room: &mut [u8], size: usize) -> Result<usize, Failed>
    requires { size ≤ length room.old }
    ensures within { IfOk result (λ count. count ≤ size) }
    ensures taken { IfOk result (λ count. Consumes (S.left source.old) (S.left source.new) (take count room.new)) }
    ensures end { IfOk result (λ count. count < size → IsAtEnd (S.left source.new)) }
    ensures fewer { OnErr result (GivesFewer size (S.left source.old) (S.left source.new)) }
    ensures cause { CountsFault S.faults source.old source.new result }
{
    fill(source, &mut room[..size])
}
