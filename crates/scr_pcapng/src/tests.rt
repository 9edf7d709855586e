use crate::{AnyError, AnyReader, NgError};
use scr_base::{MemSource, OutOfMemory, Source, SureSource};
use scr_pcap::{CaptureError, FrameBuf, RecordInfo};
use std::alloc::Global;
use std::process::Abort;
use std::test::Fail;

// A section in the low order, without a length of its own, and an interface of Ethernet with a snap length of 262,144.
const SECTION: &[u8] = &[
    0x0A, 0x0D, 0x0D, 0x0A, 28, 0, 0, 0, 0x4D, 0x3C, 0x2B, 0x1A, 1, 0, 0, 0, 255, 255, 255, 255,
    255, 255, 255, 255, 28, 0, 0, 0,
];

const INTERFACE: &[u8] = &[1, 0, 0, 0, 20, 0, 0, 0, 1, 0, 0, 0, 0, 0, 4, 0, 20, 0, 0, 0];

// A packet of two bytes at second 1.
const PACKET: &[u8] = &[
    6, 0, 0, 0, 36, 0, 0, 0, 0, 0, 0, 0, 0, 0, 0, 0, 0x40, 0x42, 0x0F, 0, 2, 0, 0, 0, 60, 0, 0, 0,
    0xAA, 0xBB, 0, 0, 36, 0, 0, 0,
];

// A section in the high order, an interface that counts nanoseconds behind a name, and a simple packet of three bytes.
const BIG_SECTION: &[u8] = &[
    0x0A, 0x0D, 0x0D, 0x0A, 0, 0, 0, 28, 0x1A, 0x2B, 0x3C, 0x4D, 0, 1, 0, 0, 255, 255, 255, 255,
    255, 255, 255, 255, 0, 0, 0, 28,
];

const NANOSECONDS: &[u8] = &[
    0, 0, 0, 1, 0, 0, 0, 40, 0, 1, 0, 0, 0, 0, 0, 3, 0, 2, 0, 3, b'l', b'o', b'0', 0, 0, 9, 0, 1,
    9, 0, 0, 0, 0, 0, 0, 0, 0, 0, 0, 40,
];

const SIMPLE: &[u8] = &[
    0, 0, 0, 3, 0, 0, 0, 20, 0, 0, 0, 60, 1, 2, 3, 0, 0, 0, 0, 20,
];

// A packet without bytes, two seconds and 999 nanoseconds behind the start.
const BIG_PACKET: &[u8] = &[
    0, 0, 0, 6, 0, 0, 0, 32, 0, 0, 0, 0, 0, 0, 0, 0, 0x77, 0x35, 0x97, 0xE7, 0, 0, 0, 0, 0, 0, 0,
    60, 0, 0, 0, 32,
];

// A block of another type, with a body of four bytes.
const PASSED: &[u8] = &[2, 0, 0, 0, 16, 0, 0, 0, 1, 2, 3, 4, 16, 0, 0, 0];

// A capture in the libpcap file format, with a record of one byte at microsecond 5.
const CLASSIC: &[u8] = &[
    0xD4, 0xC3, 0xB2, 0xA1, 2, 0, 4, 0, 0, 0, 0, 0, 0, 0, 0, 0, 0xFF, 0xFF, 0, 0, 1, 0, 0, 0, 0, 0,
    0, 0, 5, 0, 0, 0, 1, 0, 0, 0, 60, 0, 0, 0, 0xAA,
];

fn joined(alloc: Global, parts: &[&[u8]]) -> Result<Vec<u8>, OutOfMemory> {
    let mut bytes = Vec::new(alloc);
    for part in parts {
        bytes.extend_from_slice(part)?;
    }
    Ok(bytes)
}

fn info(number: u32, time: u64, length: u32) -> RecordInfo {
    RecordInfo {
        number,
        time,
        length,
    }
}

#[test]
fn reads_sections_of_both_orders(rt: HostRuntime) -> Result<(), Fail> {
    let mut frame = FrameBuf::make(rt.alloc())?;
    for limit in [1, 7, 4096] {
        let low = [SECTION, PASSED, INTERFACE, PACKET];
        let high = [BIG_SECTION, NANOSECONDS, BIG_PACKET, SIMPLE];
        let mut bytes = joined(rt.alloc(), &low)?;
        bytes.extend_from_slice(&joined(rt.alloc(), &high)?)?;
        let mut source = SureSource::new(bytes, limit);
        let mut reader = AnyReader::begin(rt.alloc(), &mut source)?;
        let next = reader.next(&mut source, &mut frame);
        assert_eq!(rt; next, Ok(Some(info(1, 1_000_000, 2))));
        assert_eq!(rt; frame.bytes(), &[0xAA, 0xBB][..]);
        let next = reader.next(&mut source, &mut frame);
        assert_eq!(rt; next, Ok(Some(info(2, 2_000_000, 0))));
        let next = reader.next(&mut source, &mut frame);
        assert_eq!(rt; next, Ok(Some(info(3, 0, 3))));
        assert_eq!(rt; frame.bytes(), &[1, 2, 3][..]);
        assert_eq!(rt; reader.next(&mut source, &mut frame), Ok(None));
        assert_eq!(rt; reader.next(&mut source, &mut frame), Ok(None));
    }
    Ok(())
}

#[test]
fn reads_the_other_format(rt: HostRuntime) -> Result<(), Fail> {
    let mut frame = FrameBuf::make(rt.alloc())?;
    let mut source = SureSource::new(joined(rt.alloc(), &[CLASSIC])?, 3);
    let mut reader = AnyReader::begin(rt.alloc(), &mut source)?;
    let next = reader.next(&mut source, &mut frame);
    assert_eq!(rt; next, Ok(Some(info(1, 5, 1))));
    assert_eq!(rt; reader.next(&mut source, &mut frame), Ok(None));

    let mut source = SureSource::new(joined(rt.alloc(), &[&SECTION[..3]])?, 3);
    let error = AnyReader::begin(rt.alloc(), &mut source).err();
    assert_eq!(rt; error, Some(AnyError::Classic(CaptureError::ShortHeader)));
    Ok(())
}

#[test]
fn refuses_by_the_first_test(rt: HostRuntime) -> Result<(), Fail> {
    let mut frame = FrameBuf::make(rt.alloc())?;
    let cases: [(&[&[u8]], NgError); 6] = [
        (&[&SECTION[..4], &[0; 20]], NgError::Mark { block: 1 }),
        (&[SECTION, &PACKET[..8]], NgError::Cut { block: 2 }),
        (&[SECTION, PACKET], NgError::Interface { block: 2 }),
        (
            &[SECTION, INTERFACE, SECTION, PACKET],
            NgError::Interface { block: 4 },
        ),
        (
            &[SECTION, PASSED, &INTERFACE[..18], &[1, 0]],
            NgError::Length { block: 3 },
        ),
        (
            &[SECTION, INTERFACE, &PACKET[..35]],
            NgError::Cut { block: 3 },
        ),
    ];
    for (parts, fault) in cases {
        let mut source = SureSource::new(joined(rt.alloc(), parts)?, 5);
        let mut reader = AnyReader::begin(rt.alloc(), &mut source)?;
        let next = reader.next(&mut source, &mut frame);
        assert_eq!(rt; next, Err(AnyError::Ng(fault)));
        let next = reader.next(&mut source, &mut frame);
        assert_eq!(rt; next, Err(AnyError::Ng(fault)));
    }
    Ok(())
}

#[test]
fn keeps_a_failed_read(rt: HostRuntime) -> Result<(), Fail> {
    let mut frame = FrameBuf::make(rt.alloc())?;
    let bytes = joined(rt.alloc(), &[SECTION, INTERFACE, PACKET])?;
    let mut failing = Vec::new(rt.alloc());
    failing.push(4)?;
    let mut source = MemSource::new(bytes, 16, failing);
    let mut reader = AnyReader::begin(rt.alloc(), &mut source)?;
    let next = reader.next(&mut source, &mut frame);
    assert_eq!(rt; next, Err(AnyError::ReadFault));
    let next = reader.next(&mut source, &mut frame);
    assert_eq!(rt; next, Err(AnyError::ReadFault));
    Ok(())
}
