ghost use Rattle.std.specs.Prelude.{◌≡◌, ◌≢◌, ◌≤◌, ◌<◌, ℕ, List, true, length, take, Option, IfOk, OnErr};
ghost use Rattle.std.specs.Io.KnownBytes.{Consumes, IsAtEnd, prepend_known};
ghost use Rattle.scr_base.specs.Causes.{CountsFault};
ghost use Rattle.scr_pcap.specs.Taken.{GivesAtMost, GivesFewer};
ghost use Rattle.scr_pcapng.specs.Blocks.{BLOCKS, is_total};
ghost use Rattle.scr_pcapng.specs.Parts.{HasGivenHead, IsFaultAt};
ghost use Rattle.scr_pcapng.specs.Reading.{SECTION};
ghost use Rattle.scr_pcapng.specs.State.{ahead, faults_counted};

use crate::error::AnyError;
use crate::head::{Head, LONGEST_HEAD};
use crate::kind::Kind;
use crate::passing::fill_on;
use crate::reader::{BlockReader, FIRST};
use scr_base::{Failed, Source};

// How many bytes tell a block's type and total length.
pub(crate) const FRONT: usize = 8;

impl BlockReader {
    // Takes what stands in front of a block, whose type and total length were taken: those in `begun`.
    pub(crate) fn take_head<S: Source>(
        &self,
        source: &mut S,
        begun: [u8; LONGEST_HEAD],
    ) -> Result<Head, AnyError>
        requires { self.now.position.blocks ≢ BLOCKS }
        ensures given { IfOk result (λ head. (front : Option (List ℕ)) → Consumes front (S.left source.old) (take 8 begun)
            → HasGivenHead self.now.position front (S.left source.new) head.kind head.order head.total head.bytes) }
        ensures total { IfOk result (λ head. is_total head.kind head.total ≡ true) }
        ensures faulty { (front : Option (List ℕ)) → Consumes front (S.left source.old) (take 8 begun) → IsFaultAt self.now.position front result }
        ensures few { (front : Option (List ℕ)) → Consumes front (S.left source.old) (take 8 begun) → GivesAtMost LONGEST_HEAD front (S.left source.new) }
        ensures counts { S.faults source.new ≡ faults_counted result (S.faults source.old) }
    {
        let mut bytes = begun;
        let kind = Kind::of(self.order.u32_at(&bytes, 0));
        let front = kind.front();
        if fill_on(source, &mut bytes, FRONT, front)? < front {
            return Err(self.cut().into());
        }
        let order = self.order_in(kind, &bytes)?;
        let total = order.u32_at(&bytes, 4);
        if !kind.is_total(total) {
            return Err(self.length().into());
        }
        let size = kind.head();
        if fill_on(source, &mut bytes, front, size)? < size {
            return Err(self.cut().into());
        }
        Ok(Head {
            kind,
            order,
            total,
            bytes,
        })
    }

    // Takes a block's type and total length, as far as they are there. Those of the first block were begun ahead.
    #[inline(always)]
    pub(crate) fn take_front<S: Source>(
        &self,
        source: &mut S,
        bytes: &mut [u8],
    ) -> Result<usize, Failed>
        requires { 8 ≤ length bytes.old }
        ensures within { IfOk result (λ count. count ≤ 8) }
        ensures taken { IfOk result (λ count. Consumes (ahead self.now.position (S.left source.old)) (S.left source.new) (take count bytes.new)) }
        ensures end { IfOk result (λ count. count < 8 → IsAtEnd (S.left source.new)) }
        ensures fewer { OnErr result (GivesFewer 8 (ahead self.now.position (S.left source.old)) (S.left source.new)) }
        ensures cause { CountsFault S.faults source.old source.new result }
    {
        if self.blocks == 0 {
            return take_second(source, bytes);
        }
        fill_on(source, bytes, 0, FRONT)
    }
}

// Takes the total length of the first block, whose type was taken ahead.
#[cold]
#[inline(never)]
fn take_second<S: Source>(source: &mut S, bytes: &mut [u8]) -> Result<usize, Failed>
    requires { 8 ≤ length bytes.old }
    ensures within { IfOk result (λ count. count ≤ 8) }
    ensures taken { IfOk result (λ count. Consumes (prepend_known SECTION (S.left source.old)) (S.left source.new) (take count bytes.new)) }
    ensures end { IfOk result (λ count. count < 8 → IsAtEnd (S.left source.new)) }
    ensures fewer { OnErr result (GivesFewer 8 (prepend_known SECTION (S.left source.old)) (S.left source.new)) }
    ensures cause { CountsFault S.faults source.old source.new result }
{
    bytes[..FIRST.len()].copy_from_slice(&FIRST);
    fill_on(source, bytes, FIRST.len(), FRONT)
}
