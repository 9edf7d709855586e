ghost use Rattle.std.specs.Prelude.{◌≡◌, ◌≢◌, ◌≤◌, length, IfErr};
ghost use Rattle.scr_pcap.specs.Header.{fraction_of, format_in, format_of, header_of, IsHeaderFault};

use crate::error::CaptureError;
use crate::format::{Format, Fraction, Order};

/// The length of the header of a capture, in bytes.
pub(crate) const HEADER: usize = 24;

// What the fractions of seconds count behind this magic number, where it is one.
fn fraction_of(magic: u32) -> Option<Fraction>
    ensures { result ≡ fraction_of magic }
{
    match magic {
        0xA1B2_C3D4 => Some(Fraction::Microseconds),
        0xA1B2_3C4D => Some(Fraction::Nanoseconds),
        _ => None,
    }
}

// The format whose magic number stands in front, in this order.
fn format_in(order: Order, header: &[u8]) -> Option<Format>
    requires { 4 ≤ length header.now }
    ensures { result ≡ format_in order header.now }
{
    let fraction = fraction_of(order.u32_at(header, 0))?;
    Some(Format { order, fraction })
}

// The format whose magic number stands in front, in one of the two orders.
#[tactic(auto, unfolding(crate::specs::Header::format_of))]
fn format_of(header: &[u8]) -> Option<Format>
    requires { 4 ≤ length header.now }
    ensures { result ≡ format_of header.now }
{
    format_in(Order::Little, header).or_else(|| format_in(Order::Big, header))
}

// The format of a capture that begins with a valid header, or the first test that fails.
#[tactic(auto, unfolding(crate::specs::Header::header_of))]
pub(crate) fn header_of(header: &[u8]) -> Result<Format, CaptureError>
    ensures value { result ≡ header_of header.now }
    ensures named { IfErr result IsHeaderFault }
    ensures told { result ≢ Err CaptureError.ReadFault }
{
    if header.len() < HEADER {
        return Err(CaptureError::ShortHeader);
    }
    let format = format_of(header).ok_or(CaptureError::Magic)?;
    let order = format.order;
    if (order.u16_at(header, 4), order.u16_at(header, 6)) != (2, 4) {
        return Err(CaptureError::Version);
    }
    if order.u32_at(header, 20) & 0xFFFF != 1 {
        return Err(CaptureError::LinkType);
    }
    Ok(format)
}
