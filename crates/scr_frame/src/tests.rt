//! Frames with the answers that the formats give, written by hand.

use super::*;
use std::alloc::{AllocError, Global};
use std::ops::Range;
use std::test::Fail;

/// 10.0.0.1 port 40000 to 10.0.0.2 port 53, over UDP.
const DATAGRAM: [u8; 42] = [
    0x02, 0, 0, 0, 0, 0x02, 0x02, 0, 0, 0, 0, 0x01, 0x08, 0x00, // Ethernet
    0x45, 0, 0, 0x1C, 0, 0, 0, 0, 0x40, 17, 0, 0, 10, 0, 0, 1, 10, 0, 0, 2, // IPv4
    0x9C, 0x40, 0, 53, 0, 8, 0, 0, // UDP
];

/// 10.0.0.1 port 40000 to 10.0.0.2 port 80, over TCP with SYN and ACK.
const SEGMENT: [u8; 54] = [
    0x02, 0, 0, 0, 0, 0x02, 0x02, 0, 0, 0, 0, 0x01, 0x08, 0x00, // Ethernet
    0x45, 0, 0, 0x28, 0, 0, 0, 0, 0x40, 6, 0, 0, 10, 0, 0, 1, 10, 0, 0, 2, // IPv4
    0x9C, 0x40, 0, 80, 0, 0, 0, 0, 0, 0, 0, 0, 0x50, 0x12, 0xFF, 0xFF, 0, 0, 0, 0, // TCP
];

/// 2001:db8::1 port 40000 to 2001:db8::2 port 53, over UDP.
const DATAGRAM_V6: [u8; 62] = [
    0x02, 0, 0, 0, 0, 0x02, 0x02, 0, 0, 0, 0, 0x01, 0x86, 0xDD, // Ethernet
    0x60, 0, 0, 0, 0, 8, 17, 0x40, // IPv6
    0x20, 0x01, 0x0D, 0xB8, 0, 0, 0, 0, 0, 0, 0, 0, 0, 0, 0, 1, // source
    0x20, 0x01, 0x0D, 0xB8, 0, 0, 0, 0, 0, 0, 0, 0, 0, 0, 0, 2, // destination
    0x9C, 0x40, 0, 53, 0, 8, 0, 0, // UDP
];

const OTHER: Parsed = Parsed {
    kind: Kind::Other,
    family: 0,
    source: 0,
    destination: 0,
    source_port: 0,
    destination_port: 0,
    protocol: 0,
    flags: 0,
    length: 0,
};

const UDP: Parsed = Parsed {
    kind: Kind::Udp,
    family: 0,
    source: 0x0A00_0001,
    destination: 0x0A00_0002,
    source_port: 40000,
    destination_port: 53,
    protocol: 17,
    flags: 0,
    length: 28,
};

const UDP_V6: Parsed = Parsed {
    kind: Kind::Udp,
    family: 1,
    source: 0x2001_0DB8_0000_0000_0000_0000_0000_0001,
    destination: 0x2001_0DB8_0000_0000_0000_0000_0000_0002,
    source_port: 40000,
    destination_port: 53,
    protocol: 17,
    flags: 0,
    length: 48,
};

const TCP: Parsed = Parsed {
    kind: Kind::Tcp,
    family: 0,
    source: 0x0A00_0001,
    destination: 0x0A00_0002,
    source_port: 40000,
    destination_port: 80,
    protocol: 6,
    flags: 0x12,
    length: 40,
};

/// The addresses alone of a packet without ports and flags.
fn bare(of: Parsed, protocol: u8, length: u32) -> Parsed {
    Parsed {
        kind: Kind::Bare,
        source_port: 0,
        destination_port: 0,
        protocol,
        flags: 0,
        length,
        ..of
    }
}

const TAG: &[u8] = &[0x81, 0, 0, 5];

const TWO_TAGS: &[u8] = &[0x81, 0, 0, 5, 0x81, 0, 0, 5];

/// An IPv4 header with 4 bytes of options.
const WITH_OPTIONS: &[u8] = &[
    0x46, 0, 0, 0x20, 0, 0, 0, 0, 0x40, 17, 0, 0, 10, 0, 0, 1, 10, 0, 0, 2, 1, 1, 1, 0,
];

/// The bytes with others in place of a range.
fn spliced(
    alloc: Global,
    bytes: &[u8],
    range: Range<usize>,
    with: &[u8],
) -> Result<Vec<u8>, AllocError> {
    let mut frame = Vec::new(alloc);
    frame.extend_from_slice(bytes.get(..range.start).unwrap_or(bytes))?;
    frame.extend_from_slice(with)?;
    frame.extend_from_slice(bytes.get(range.end..).unwrap_or(&[]))?;
    Ok(frame)
}

#[test]
fn ipv4_frames(rt: HostRuntime) -> Result<(), Fail> {
    let udp = &DATAGRAM[..];
    let tcp = &SEGMENT[..];
    let none: &[u8] = &[];
    let longer = Parsed { length: 32, ..UDP };
    let cases = [
        ("a datagram", udp, 0..0, none, UDP),
        ("no bytes", udp, 0..42, none, OTHER),
        ("13 bytes", udp, 13..42, none, OTHER),
        ("33 bytes", udp, 33..42, none, OTHER),
        ("34 bytes", udp, 34..42, none, bare(UDP, 17, 28)),
        ("41 bytes", udp, 41..42, none, bare(UDP, 17, 28)),
        ("4 words", udp, 14..15, &[0x44], OTHER),
        ("version 6", udp, 14..15, &[0x65], OTHER),
        ("length 19", udp, 16..18, &[0, 19], OTHER),
        ("length 0", udp, 16..18, &[0, 0], UDP),
        ("length 27", udp, 16..18, &[0, 27], bare(UDP, 17, 27)),
        ("a later fragment", udp, 20..22, &[0, 1], bare(UDP, 17, 28)),
        ("a first fragment", udp, 20..22, &[0x20, 0], UDP),
        ("protocol 1", udp, 23..24, &[1], bare(UDP, 1, 28)),
        ("options", udp, 14..34, WITH_OPTIONS, longer),
        ("a tag", udp, 12..12, TAG, UDP),
        ("two tags", udp, 12..12, TWO_TAGS, OTHER),
        ("a segment", tcp, 0..0, none, TCP),
        ("data offset 4", tcp, 46..47, &[0x40], bare(TCP, 6, 40)),
        ("padding", tcp, 54..54, &[0; 6], TCP),
    ];
    for (name, bytes, range, with, want) in cases {
        let frame = spliced(rt.alloc(), bytes, range, with)?;
        assert!(rt; frame.len() <= 262_144);
        assert_eq!(rt; parse(&frame), want, "at {name}");
    }
    Ok(())
}

#[test]
fn ipv6_frames(rt: HostRuntime) -> Result<(), Fail> {
    let none: &[u8] = &[];
    let cases = [
        ("a datagram", 0..0, none, UDP_V6),
        ("53 bytes", 53..62, none, OTHER),
        ("54 bytes", 54..62, none, bare(UDP_V6, 17, 48)),
        ("payload length 7", 18..20, &[0, 7], bare(UDP_V6, 17, 47)),
        ("payload length 0", 18..20, &[0, 0], UDP_V6),
        ("next header 0", 20..21, &[0], bare(UDP_V6, 0, 48)),
        ("version 4", 14..15, &[0x40], OTHER),
        ("a tag", 12..12, TAG, UDP_V6),
    ];
    for (name, range, with, want) in cases {
        let frame = spliced(rt.alloc(), &DATAGRAM_V6, range, with)?;
        assert!(rt; frame.len() <= 262_144);
        assert_eq!(rt; parse(&frame), want, "at {name}");
    }
    Ok(())
}
