ghost use Rattle.std.specs.Prelude.{◌≡◌, ◌≤◌, length};
ghost use Rattle.scr_frame.specs.Fields.{told_or_captured, ipv4, ipv6, with_transport};

use crate::codes::{IPV4_HEADER, IPV6_HEADER, LONGEST_FRAME};
use crate::number::{u16_at, u32_at, u128_at};
use crate::parsed::{Kind, Parsed};

/// What the header of an IP packet says.
#[derive(Clone, Copy)]
pub(crate) struct Packet {
    /// 0 for IPv4, 1 for IPv6.
    pub(crate) family: u8,
    pub(crate) source: u128,
    pub(crate) destination: u128,
    pub(crate) protocol: u8,
    /// The offset of a fragment, which is 0 for a whole packet.
    pub(crate) fragment: u16,
    /// The bytes of the header.
    pub(crate) header: u8,
    /// The bytes of the packet, header included.
    pub(crate) length: u32,
}

impl Packet {
    /// The packet, and what its transport header says.
    #[inline(always)]
    pub(crate) fn with_transport(
        &self,
        kind: Kind,
        source_port: u16,
        destination_port: u16,
        flags: u8,
    ) -> Parsed
        ensures { result ≡ with_transport kind self.now source_port destination_port flags }
    {
        Parsed {
            kind,
            family: self.family,
            source: self.source,
            destination: self.destination,
            source_port,
            destination_port,
            protocol: self.protocol,
            flags,
            length: self.length,
        }
    }
}

/// The length that a header tells, where its field isn't 0, and else the captured bytes.
fn told_or_captured(field: u16, told: u32, bytes: &[u8]) -> u32
    requires { length bytes.now ≤ LONGEST_FRAME }
    ensures { result ≡ told_or_captured field told bytes.now }
{
    if field == 0 { bytes.len() as u32 } else { told }
}

/// The IPv4 packet that the bytes begin with, if its header is whole and the length covers it.
#[tactic(auto, unfolding(crate::specs::Fields::ipv4))]
#[inline(always)]
pub(crate) fn ipv4(bytes: &[u8]) -> Option<Packet>
    requires { length bytes.now ≤ LONGEST_FRAME }
    ensures { result ≡ ipv4 bytes.now }
{
    if bytes.len() < usize::from(IPV4_HEADER) || bytes[0] >> 4 != 4 {
        return None;
    }
    let header = 4 * (bytes[0] & 0x0F);
    let total = u16_at(bytes, 2);
    let length = told_or_captured(total, u32::from(total), bytes);
    if header < IPV4_HEADER || bytes.len() < usize::from(header) || length < u32::from(header) {
        return None;
    }
    Some(Packet {
        family: 0,
        source: u128::from(u32_at(bytes, 12)),
        destination: u128::from(u32_at(bytes, 16)),
        protocol: bytes[9],
        fragment: u16_at(bytes, 6) & 0x1FFF,
        header,
        length,
    })
}

/// The IPv6 packet that the bytes begin with, if its header is whole.
#[tactic(auto, unfolding(crate::specs::Fields::ipv6))]
#[inline(always)]
pub(crate) fn ipv6(bytes: &[u8]) -> Option<Packet>
    requires { length bytes.now ≤ LONGEST_FRAME }
    ensures { result ≡ ipv6 bytes.now }
{
    if bytes.len() < usize::from(IPV6_HEADER) || bytes[0] >> 4 != 6 {
        return None;
    }
    let payload = u16_at(bytes, 4);
    Some(Packet {
        family: 1,
        source: u128_at(bytes, 8),
        destination: u128_at(bytes, 24),
        protocol: bytes[6],
        fragment: 0,
        header: IPV6_HEADER,
        length: told_or_captured(payload, u32::from(IPV6_HEADER) + u32::from(payload), bytes),
    })
}
