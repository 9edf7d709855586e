ghost use Rattle.std.specs.Prelude.{◌≡◌, ◌≤◌, ◌<◌, ◌-◌, ℕ, List, length, take, Option, IfOk, OnErr};
ghost use Rattle.std.specs.Io.KnownBytes.{Consumes, IsAtEnd, prepend_known};
ghost use Rattle.scr_base.specs.Causes.{CountsFault};
ghost use Rattle.scr_pcap.specs.Taken.{GivesFewer};

use scr_base::{Failed, Source};

/// Reads until the buffer is full or the end is met, and answers how many bytes were taken. Where a read failed there were
/// fewer than the buffer has room for.
#[inline(always)]
pub fn fill<S: Source>(source: &mut S, buf: &mut [u8]) -> Result<usize, Failed>
    ensures within { IfOk result (λ count. count ≤ length buf.old) }
    ensures taken { IfOk result (λ count. Consumes (S.left source.old) (S.left source.new) (take count buf.new)) }
    ensures end { IfOk result (λ count. count < length buf.old → IsAtEnd (S.left source.new)) }
    ensures fewer { OnErr result (GivesFewer (length buf.old) (S.left source.old) (S.left source.new)) }
    ensures cause { CountsFault S.faults source.old source.new result }
{
    if buf.is_empty() {
        return Ok(0);
    }
    // Mostly one read gives all.
    let count = source.read(buf)?;
    if count == 0 || count == buf.len() {
        return Ok(count);
    }
    fill_rest(source, buf, count)
}

// Reads on behind the first bytes of a buffer, which were taken.
#[cold]
#[inline(never)]
fn fill_rest<S: Source>(source: &mut S, buf: &mut [u8], from: usize) -> Result<usize, Failed>
    requires { from ≤ length buf.old }
    ensures within { IfOk result (λ count. count ≤ length buf.old) }
    ensures taken { IfOk result (λ count. (front : Option (List ℕ)) → Consumes front (S.left source.old) (take from buf.old)
        → Consumes front (S.left source.new) (take count buf.new)) }
    ensures end { IfOk result (λ count. count < length buf.old → IsAtEnd (S.left source.new)) }
    ensures fewer { OnErr result (GivesFewer (length buf.old - from) (S.left source.old) (S.left source.new)) }
    ensures cause { CountsFault S.faults source.old source.new result }
{
    let count = fill_by_reads(source, &mut buf[from..])?;
    Ok(from + count)
}

// As `fill`, read by read.
fn fill_by_reads<S: Source>(source: &mut S, buf: &mut [u8]) -> Result<usize, Failed>
    ensures within { IfOk result (λ count. count ≤ length buf.old) }
    ensures taken { IfOk result (λ count. Consumes (S.left source.old) (S.left source.new) (take count buf.new)) }
    ensures end { IfOk result (λ count. count < length buf.old → IsAtEnd (S.left source.new)) }
    ensures fewer { OnErr result (GivesFewer (length buf.old) (S.left source.old) (S.left source.new)) }
    ensures cause { CountsFault S.faults source.old source.new result }
{
    let mut count = 0;
    while count < buf.len() {
        let more = source.read(&mut buf[count..])?;
        if more == 0 {
            break;
        }
        count += more;
    }
    Ok(count)
}

// Fills a buffer behind its first bytes, which were taken ahead, and answers how many bytes are there.
pub(crate) fn fill_behind<S: Source>(
    first: &[u8],
    source: &mut S,
    buf: &mut [u8],
) -> Result<usize, Failed>
    requires { length first.now ≤ length buf.old }
    ensures within { IfOk result (λ count. count ≤ length buf.old) }
    ensures taken { IfOk result (λ count. Consumes (prepend_known first.now (S.left source.old)) (S.left source.new) (take count buf.new)) }
    ensures end { IfOk result (λ count. count < length buf.old → IsAtEnd (S.left source.new)) }
    ensures fewer { OnErr result (GivesFewer (length buf.old) (prepend_known first.now (S.left source.old)) (S.left source.new)) }
    ensures cause { CountsFault S.faults source.old source.new result }
{
    buf[..first.len()].copy_from_slice(first);
    let count = fill(source, &mut buf[first.len()..])?;
    Ok(first.len() + count)
}
