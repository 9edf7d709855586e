ghost use Rattle.std.specs.Prelude.{◌≡◌, ◌≤◌, length, IfSome};
ghost use Rattle.std.specs.Option.{option_map};
ghost use Rattle.scr_frame.specs.Fields.{ethernet, transport, fields, ipv6, packet_or_other};

use crate::codes::{
    ETHERNET_HEADER, LONGEST_FRAME, TAGGED_HEADER, TCP, TCP_HEADER, TCP_WORDS, TYPE_IPV4,
    TYPE_IPV6, TYPE_TAG, UDP, UDP_HEADER,
};
use crate::number::u16_at;
use crate::packet::{Packet, ipv4, ipv6};
use crate::parsed::{Kind, Parsed};

const OTHER: Parsed = Parsed {
    kind: Kind::Other,
    family: 0,
    source: 0,
    destination: 0,
    source_port: 0,
    destination_port: 0,
    protocol: 0,
    flags: 0,
    length: 0,
};

/// The fields of a frame of at most 262,144 bytes.
#[tactic(auto, unfolding(crate::specs::Fields::fields))]
#[inline(always)]
pub fn parse(bytes: &[u8]) -> Parsed
    requires { length bytes.now ≤ LONGEST_FRAME }
    ensures { result ≡ fields bytes.now }
{
    let Some((ethertype, bytes)) = ethernet(bytes) else {
        return OTHER;
    };
    match ethertype {
        TYPE_IPV4 => of_packet(ipv4(bytes), bytes),
        TYPE_IPV6 => of_ipv6(bytes),
        _ => OTHER,
    }
}

// The fields of the packet that the bytes begin with, where there is one.
#[inline(always)]
fn of_packet(packet: Option<Packet>, bytes: &[u8]) -> Parsed
    ensures { result ≡ packet_or_other packet bytes.now }
{
    match packet {
        Some(packet) => transport(&packet, bytes),
        None => OTHER,
    }
}

// Those of IPv6, which stand apart so that the fields of IPv4 stay in registers.
#[inline(never)]
fn of_ipv6(bytes: &[u8]) -> Parsed
    requires { length bytes.now ≤ LONGEST_FRAME }
    ensures { result ≡ packet_or_other (ipv6 bytes.now) bytes.now }
{
    of_packet(ipv6(bytes), bytes)
}

/// The type of a frame, and the bytes behind it; none where the frame ends before that.
#[tactic(auto, unfolding(crate::specs::Fields::ethernet))]
#[inline(always)]
fn ethernet(frame: &[u8]) -> Option<(u16, &[u8])>
    ensures parts { option_map (λ x. (x.0, x.1.now)) result ≡ ethernet frame.now }
    ensures shorter { IfSome result (λ x. length x.1.now ≤ length frame.now) }
{
    if frame.len() < ETHERNET_HEADER {
        return None;
    }
    let ethertype = u16_at(frame, 12);
    if ethertype != TYPE_TAG {
        return Some((ethertype, &frame[ETHERNET_HEADER..]));
    }
    if frame.len() < TAGGED_HEADER {
        return None;
    }
    Some((u16_at(frame, 16), &frame[TAGGED_HEADER..]))
}

/// The packet, and what its transport header says, if that is looked at and whole.
#[tactic(auto, unfolding(crate::specs::Fields::transport))]
#[inline(always)]
fn transport(packet: &Packet, bytes: &[u8]) -> Parsed
    ensures { result ≡ transport packet.now bytes.now }
{
    let start = usize::from(packet.header);
    let end = bytes.len().min(packet.length as usize);
    match packet.protocol {
        TCP
            if packet.fragment == 0
                && start + TCP_HEADER <= end
                && bytes[start + 12] >> 4 >= TCP_WORDS => {
            let header = &bytes[start..];
            packet.with_transport(Kind::Tcp, u16_at(header, 0), u16_at(header, 2), header[13])
        }
        UDP if packet.fragment == 0 && start + UDP_HEADER <= end => {
            let header = &bytes[start..];
            packet.with_transport(Kind::Udp, u16_at(header, 0), u16_at(header, 2), 0)
        }
        _ => packet.with_transport(Kind::Bare, 0, 0, 0),
    }
}
