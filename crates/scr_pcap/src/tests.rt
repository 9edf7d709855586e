use crate::{CaptureError, FrameBuf, Reader, RecordInfo, most_bytes, one_reading, some_reading};
use scr_base::{MemSource, OutOfMemory, Source, SureSource};
use std::alloc::Global;
use std::process::Abort;
use std::test::Fail;

// Headers of captures in each order and unit, with zones, figures and snap lengths that differ.
const LITTLE_MICROSECONDS: &[u8] = &[
    0xD4, 0xC3, 0xB2, 0xA1, 2, 0, 4, 0, 0, 0, 0, 0, 0, 0, 0, 0, 0xFF, 0xFF, 0, 0, 1, 0, 0, 0,
];

const LITTLE_NANOSECONDS: &[u8] = &[
    0x4D, 0x3C, 0xB2, 0xA1, 2, 0, 4, 0, 0x10, 0x0E, 0, 0, 9, 0, 0, 0, 0, 0, 4, 0, 1, 0, 0, 0,
];

const BIG_MICROSECONDS: &[u8] = &[
    0xA1, 0xB2, 0xC3, 0xD4, 0, 2, 0, 4, 0, 0, 0, 0, 0, 0, 0, 0, 0, 0, 0xFF, 0xFF, 0, 0, 0, 1,
];

const BIG_NANOSECONDS: &[u8] = &[
    0xA1, 0xB2, 0x3C, 0x4D, 0, 2, 0, 4, 0, 0, 0, 0, 0, 0, 0, 0, 0, 4, 0, 0, 0, 0, 0, 1,
];

// A record of second 3 and fraction 2,000,000,999 with two bytes of sixty, in each order.
const LITTLE_RECORD: &[u8] = &[
    3, 0, 0, 0, 0xE7, 0x97, 0x35, 0x77, 2, 0, 0, 0, 60, 0, 0, 0, 0xAA, 0xBB,
];

const BIG_RECORD: &[u8] = &[
    0, 0, 0, 3, 0x77, 0x35, 0x97, 0xE7, 0, 0, 0, 2, 0, 0, 0, 60, 0xAA, 0xBB,
];

// A record of second 1 without bytes, in the low order.
const EMPTY_RECORD: &[u8] = &[1, 0, 0, 0, 0, 0, 0, 0, 0, 0, 0, 0, 60, 0, 0, 0];

fn joined(alloc: Global, parts: &[&[u8]]) -> Result<Vec<u8>, OutOfMemory> {
    let mut bytes = Vec::new(alloc);
    for part in parts {
        bytes.extend_from_slice(part)?;
    }
    Ok(bytes)
}

#[test]
fn reads_both_orders_and_units(rt: HostRuntime) -> Result<(), Fail> {
    let mut frame = FrameBuf::make(rt.alloc())?;
    assert_eq!(rt; frame.bytes(), &[][..]);
    let cases = [
        (LITTLE_MICROSECONDS, LITTLE_RECORD, 2_003_000_999),
        (LITTLE_NANOSECONDS, LITTLE_RECORD, 5_000_000),
        (BIG_MICROSECONDS, BIG_RECORD, 2_003_000_999),
        (BIG_NANOSECONDS, BIG_RECORD, 5_000_000),
    ];
    for (header, record, time) in cases {
        for limit in [1, 16, 4096] {
            let bytes = joined(rt.alloc(), &[header, record, record])?;
            let mut source = SureSource::new(bytes, limit);
            let mut reader = Reader::begin(&mut source)?;
            for number in 1..=2 {
                let want = RecordInfo {
                    number,
                    time,
                    length: 2,
                };
                assert_eq!(rt; reader.next(&mut source, &mut frame), Ok(Some(want)));
                assert_eq!(rt; frame.bytes(), &[0xAA, 0xBB][..]);
            }
            assert_eq!(rt; reader.next(&mut source, &mut frame), Ok(None));
            assert_eq!(rt; reader.next(&mut source, &mut frame), Ok(None));
        }
    }
    Ok(())
}

#[test]
fn tests_the_header(rt: HostRuntime) -> Result<(), Fail> {
    let cases = [
        (0, 0xD4, None),
        (0, 0xD5, Some(CaptureError::Magic)),
        (3, 0, Some(CaptureError::Magic)),
        (4, 1, Some(CaptureError::Version)),
        (5, 1, Some(CaptureError::Version)),
        (6, 3, Some(CaptureError::Version)),
        (20, 2, Some(CaptureError::LinkType)),
        (21, 1, Some(CaptureError::LinkType)),
        (23, 0x10, None),
    ];
    for (place, value, want) in cases {
        let mut bytes = joined(rt.alloc(), &[LITTLE_MICROSECONDS])?;
        *bytes.get_mut(place).ok_or("a place")? = value;
        let begun = Reader::begin(&mut SureSource::new(bytes, 16));
        assert_eq!(rt; begun.err(), want, "at {place}");
    }
    for length in [0, 1, 23] {
        let mut bytes = joined(rt.alloc(), &[BIG_NANOSECONDS])?;
        bytes.truncate(length);
        let begun = Reader::begin(&mut SureSource::new(bytes, 16));
        assert_eq!(rt; begun.err(), Some(CaptureError::ShortHeader), "at {length}");
    }
    Ok(())
}

#[test]
fn tests_each_record(rt: HostRuntime) -> Result<(), Fail> {
    let mut frame = FrameBuf::make(rt.alloc())?;
    let content = vec![in rt.alloc(); 7u8; 262_144]?;
    let short = CaptureError::ShortRecord { number: 2 };
    let long = CaptureError::LongRecord {
        number: 2,
        length: 262_145,
    };
    // The captured length, how many bytes the capture has, 40 of them before this record, and the answer.
    let cases = [
        (0, 56, Ok(0)),
        (0, 41, Err(short)),
        (0, 55, Err(short)),
        (1, 56, Err(short)),
        (262_144, 262_200, Ok(262_144)),
        (262_144, 262_199, Err(short)),
        (262_145, 55, Err(short)),
        (262_145, 56, Err(long)),
    ];
    for (captured, length, want) in cases {
        let parts = [
            LITTLE_MICROSECONDS,
            EMPTY_RECORD,
            &[0; 8],
            &u32::to_le_bytes(captured),
            &[0; 4],
            &content,
        ];
        let mut bytes = joined(rt.alloc(), &parts)?;
        bytes.truncate(length);
        let mut source = SureSource::new(bytes, 1000);
        let mut reader = Reader::begin(&mut source)?;
        let first = reader.next(&mut source, &mut frame)?.ok_or("a record")?;
        assert_eq!(rt; (first.number, first.time, first.length), (1, 1_000_000, 0));
        let second = reader.next(&mut source, &mut frame);
        if let Ok(Some(info)) = second {
            assert_eq!(rt; Ok(info.length), want);
            assert_eq!(rt; frame.bytes().len(), info.length as usize);
        } else {
            assert_eq!(rt; second.err(), want.err(), "at {captured} of {length}");
        }
    }
    Ok(())
}

// The records that are read, or why they end early; an error is answered again, and nothing is read.
fn count_records(
    rt: &impl Abort,
    source: &mut MemSource,
    frame: &mut FrameBuf,
) -> Result<u32, CaptureError> {
    let mut reader = Reader::begin(source)?;
    for number in 0..10 {
        match reader.next(source, frame) {
            Ok(Some(_)) => {}
            Ok(None) => return Ok(number),
            Err(error) => {
                assert_eq!(rt; reader.next(source, frame), Err(error));
                return Err(error);
            }
        }
    }
    Ok(10)
}

#[test]
fn answers_a_failed_read_again(rt: HostRuntime) -> Result<(), Fail> {
    let mut frame = FrameBuf::make(rt.alloc())?;
    let fault = CaptureError::ReadFault;
    let short = CaptureError::ShortRecord { number: 2 };
    // The header takes two calls of 16 and 8 bytes, the record 16 and 2, and the rest behind it 3 and none.
    let cases = [
        (1, fault, 16),
        (2, fault, 16),
        (3, fault, 16),
        (4, fault, 5),
        (5, fault, 3),
        (6, fault, 0),
        (8, short, 0),
    ];
    for (call, want, left) in cases {
        let bytes = joined(rt.alloc(), &[LITTLE_MICROSECONDS, LITTLE_RECORD, &[0; 3]])?;
        let mut source = MemSource::new(bytes, 16, vec![in rt.alloc(); call]?);
        assert_eq!(rt;
            count_records(&rt, &mut source, &mut frame),
            Err(want),
            "at {call}"
        );
        assert_eq!(rt; source.read(&mut [0; 64]), Ok(left), "at {call}");
    }
    Ok(())
}

#[test]
fn laws_are_called(_rt: HostRuntime) {
    some_reading();
    one_reading();
    most_bytes();
}
