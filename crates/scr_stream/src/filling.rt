ghost use Rattle.std.specs.Prelude.{◌≤◌, ◌<◌, ◌-◌, length, take, IfOk};
ghost use Rattle.std.specs.Io.KnownBytes.{IsAtEnd};
ghost use Rattle.scr_base.specs.Causes.{CountsFault};
ghost use Rattle.scr_pcap.specs.Taken.{GivesAtMost};
ghost use Rattle.scr_stream.specs.Taken.{IsFilledBehind};

use scr_base::{Failed, Source};
use scr_pcap::fill;

// Fills a buffer behind its first bytes, which were taken before, and answers how many bytes are there.
pub(crate) fn fill_behind<S: Source>(
    first: &[u8],
    source: &mut S,
    buffer: &mut [u8],
) -> Result<usize, Failed>
    requires { length first.now ≤ length buffer.old }
    ensures most { IfOk result (λ count. count ≤ length buffer.old) }
    ensures least { IfOk result (λ count. length first.now ≤ count) }
    ensures filled { IfOk result (λ count. IsFilledBehind first.now (S.left source.old) (S.left source.new) (take count buffer.new)) }
    ensures end { IfOk result (λ count. count < length buffer.old → IsAtEnd (S.left source.new)) }
    ensures few { GivesAtMost (length buffer.old - length first.now) (S.left source.old) (S.left source.new) }
    ensures cause { CountsFault S.faults source.old source.new result }
{
    buffer[..first.len()].copy_from_slice(first);
    let count = fill(source, &mut buffer[first.len()..])?;
    Ok(first.len() + count)
}
