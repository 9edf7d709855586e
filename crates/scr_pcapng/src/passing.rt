ghost use Rattle.std.specs.Prelude.{◌≡◌, ◌≤◌, ◌<◌, ◌+◌, ◌-◌, ℕ, List, length, take, Option, Err, IfOk, IfErr, OnOk, OnErr};
ghost use Rattle.scr_pcap.specs.Records.{CAPTURED};
ghost use Rattle.std.specs.Io.KnownBytes.{Consumes, IsAtEnd};
ghost use Rattle.scr_base.specs.Causes.{CountsFault};
ghost use Rattle.scr_pcap.specs.Taken.{GivesFewer};
ghost use Rattle.scr_pcapng.specs.Parts.{IsStop, TakesBytes, TakesTail};
ghost use Rattle.scr_pcapng.specs.State.{faults_counted};

use crate::error::{AnyError, NgError};
use scr_base::{Failed, Source};
use scr_pcap::{FrameBuf, Order, fill};

// How many bytes are passed over at once.
const PIECE: usize = 4096;

// How many bytes of a block's end are taken at once: a few options and the second total length.
const SHORT: u32 = 32;

// Reads on behind the first `from` bytes of a buffer, until the first `to` are there or the end is met, and answers how
// many are there.
pub(crate) fn fill_on<S: Source>(
    source: &mut S,
    buf: &mut [u8],
    from: usize,
    to: usize,
) -> Result<usize, Failed>
    requires order { from ≤ to }
    requires room { to ≤ length buf.old }
    ensures within { IfOk result (λ count. (from ≤ count) × (count ≤ to)) }
    ensures taken { IfOk result (λ count. (front : Option (List ℕ)) → Consumes front (S.left source.old) (take from buf.old)
        → Consumes front (S.left source.new) (take count buf.new)) }
    ensures end { IfOk result (λ count. count < to → IsAtEnd (S.left source.new)) }
    ensures fewer { OnErr result (GivesFewer (to - from) (S.left source.old) (S.left source.new)) }
    ensures cause { CountsFault S.faults source.old source.new result }
{
    let count = fill(source, &mut buf[from..to])?;
    Ok(from + count)
}

// Fills the whole buffer, within the block with this number.
pub(crate) fn take_whole<S: Source>(
    source: &mut S,
    buf: &mut [u8],
    block: u32,
) -> Result<(), AnyError>
    ensures taken { OnOk result (Consumes (S.left source.old) (S.left source.new) buf.new) }
    ensures fewer { OnErr result (GivesFewer (length buf.old) (S.left source.old) (S.left source.new)) }
    ensures stops { IfErr result (IsStop block (S.left source.new)) }
    ensures counts { S.faults source.new ≡ faults_counted result (S.faults source.old) }
{
    if fill(source, buf)? < buf.len() {
        return Err(AnyError::Ng(NgError::Cut { block }));
    }
    Ok(())
}

// Takes so many bytes of the block with this number, and keeps none.
#[cold]
#[inline(never)]
pub(crate) fn pass<S: Source>(source: &mut S, size: u32, block: u32) -> Result<(), AnyError>
    ensures taken { OnOk result (TakesBytes (S.left source.old) (S.left source.new) size) }
    ensures fewer { OnErr result (GivesFewer size (S.left source.old) (S.left source.new)) }
    ensures stops { IfErr result (IsStop block (S.left source.new)) }
    ensures counts { S.faults source.new ≡ faults_counted result (S.faults source.old) }
{
    let mut piece = [0; PIECE];
    let mut left = size as usize;
    while left > 0 {
        let count = left.min(PIECE);
        take_whole(source, &mut piece[..count], block)?;
        left -= count;
    }
    Ok(())
}

// The same, where mostly there are none.
pub(crate) fn pass_over<S: Source>(source: &mut S, size: u32, block: u32) -> Result<(), AnyError>
    ensures taken { OnOk result (TakesBytes (S.left source.old) (S.left source.new) size) }
    ensures fewer { OnErr result (GivesFewer size (S.left source.old) (S.left source.new)) }
    ensures stops { IfErr result (IsStop block (S.left source.new)) }
    ensures counts { S.faults source.new ≡ faults_counted result (S.faults source.old) }
{
    if size == 0 {
        return Ok(());
    }
    pass(source, size, block)
}

// Takes what is left of the block with this number, and answers the number in its last four bytes.
pub(crate) fn take_tail<S: Source>(
    source: &mut S,
    order: Order,
    size: u32,
    block: u32,
) -> Result<u32, AnyError>
    requires { 4 ≤ size }
    ensures taken { IfOk result (λ told. TakesTail (S.left source.old) (S.left source.new) order size told) }
    ensures fewer { OnErr result (GivesFewer size (S.left source.old) (S.left source.new)) }
    ensures stops { IfErr result (IsStop block (S.left source.new)) }
    ensures counts { S.faults source.new ≡ faults_counted result (S.faults source.old) }
{
    let short = size.min(SHORT);
    pass_over(source, size - short, block)?;
    let mut tail = [0; SHORT as usize];
    let piece = &mut tail[..short as usize];
    take_whole(source, piece, block)?;
    Ok(order.u32_at(piece, short as usize - 4))
}

// Takes the bytes of a packet in the block with this number, which `frame` then holds.
pub(crate) fn take_frame<S: Source>(
    source: &mut S,
    captured: u32,
    frame: &mut FrameBuf,
    block: u32,
) -> Result<(), AnyError>
    requires { captured ≤ CAPTURED }
    ensures taken { OnOk result (Consumes (S.left source.old) (S.left source.new) frame.new) }
    ensures length { OnOk result (length frame.new ≡ captured) }
    ensures fewer { OnErr result (GivesFewer captured (S.left source.old) (S.left source.new)) }
    ensures stops { IfErr result (IsStop block (S.left source.new)) }
    ensures counts { S.faults source.new ≡ faults_counted result (S.faults source.old) }
{
    if frame.fill(source, captured as usize)? < captured as usize {
        return Err(AnyError::Ng(NgError::Cut { block }));
    }
    Ok(())
}
