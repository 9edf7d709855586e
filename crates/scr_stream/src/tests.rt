use crate::{StreamError, one_reading, read_stream, some_reading, write_stream, written_is_read};
use scr_base::{MemSink, MemSource, OutOfMemory, Row};
use scr_plan::{Delays, Drops, Link, RunPlan};
use scr_wire::WireError;
use std::alloc::Global;
use std::test::Fail;

// The row of a counter of packets from 10.0.0.1.
const ROW: Row = Row {
    w0: 0,
    w1: 0x0A00_0001,
    w2: 0,
    w3: 0,
    w4: 3,
    w5: 0,
    w6: 0,
};

// The row of a packet that no frame carries.
const NO_ROW: Row = Row {
    w0: 0,
    w1: 0,
    w2: 0,
    w3: 0,
    w4: 0,
    w5: 0,
    w6: 0,
};

// The bytes of the first.
const ROW_BYTES: [u8; 56] = [
    0, 0, 0, 0, 0, 0, 0, 0, 0, 0, 0, 0, 0x0A, 0, 0, 1, 0, 0, 0, 0, 0, 0, 0, 0, 0, 0, 0, 0, 0, 0, 0,
    0, 0, 0, 0, 0, 0, 0, 0, 3, 0, 0, 0, 0, 0, 0, 0, 0, 0, 0, 0, 0, 0, 0, 0, 0,
];

const HEADER: [u8; 8] = [0x53, 0x43, 0x52, 0x53, 1, 0, 2, 1];

const FRAME_1: [u8; 10] = [0x53, 0x43, 2, 1, 0, 0, 0, 1, 0, 1];

const FRAME_3: [u8; 10] = [0x53, 0x43, 2, 1, 0, 0, 0, 3, 0, 2];

const FRAME_4: [u8; 10] = [0x53, 0x43, 2, 1, 0, 0, 0, 4, 0, 2];

const END_4: [u8; 10] = [0x53, 0x43, 2, 3, 0, 0, 0, 4, 0, 0];

fn joined(alloc: Global, parts: &[&[u8]]) -> Result<Vec<u8>, OutOfMemory> {
    let mut bytes = Vec::new(alloc);
    for part in parts {
        bytes.extend_from_slice(part)?;
    }
    Ok(bytes)
}

// The stream of four packets on two cores with a history of one, of which frame 2 is lost.
fn worked(alloc: Global) -> Result<Vec<u8>, OutOfMemory> {
    joined(
        alloc,
        &[
            &HEADER, &FRAME_1, &ROW_BYTES, &FRAME_3, &ROW_BYTES, &ROW_BYTES, &FRAME_4, &ROW_BYTES,
            &ROW_BYTES, &END_4,
        ],
    )
}

#[test]
fn writes_the_worked_stream(rt: HostRuntime) -> Result<(), Fail> {
    let alloc = rt.alloc();
    let drops = match Drops::read(alloc, b"2") {
        Ok(drops) => drops,
        Err(_) => return Ok(assert!(rt; false)),
    };
    let rows = vec![in alloc; ROW; 4]?;
    let plan = RunPlan::make(rows, 2, 1, Link::dropping(alloc, drops));
    let mut out = MemSink::new(alloc, 100, Vec::new(alloc));
    let written = write_stream(alloc, 0, &plan, &mut out);
    assert!(rt; written.is_ok());
    let expected = worked(alloc)?;
    assert_eq!(rt; expected.len(), 328);
    assert_eq!(rt; out.written(), expected.as_slice());
    Ok(())
}

// The stream of the same packets over the link of these lists.
fn stream_over(
    alloc: Global,
    drops: &[u8],
    repeats: &[u8],
    delays: &[u8],
    out: &mut MemSink,
) -> Option<()> {
    let drops = Drops::read(alloc, drops).ok()?;
    let repeats = Drops::read(alloc, repeats).ok()?;
    let delays = Delays::read(alloc, delays).ok()?;
    let rows = vec![in alloc; ROW; 4].ok()?;
    let plan = RunPlan::make(rows, 2, 1, Link::make(alloc, drops, repeats, delays));
    write_stream(alloc, 0, &plan, out).ok()
}

#[test]
fn late_and_repeated_frames_stand_once_at_their_number(rt: HostRuntime) -> Result<(), Fail> {
    let alloc = rt.alloc();
    // Frame 2 comes behind frame 4 of its core, too late; frame 3 comes twice and late, but in time.
    let mut out = MemSink::new(alloc, 1000, Vec::new(alloc));
    assert!(rt; stream_over(alloc, b"", b"1,3-4", b"2:3,3:9", &mut out).is_some());
    assert_eq!(rt; out.written(), worked(alloc)?.as_slice());
    Ok(())
}

#[test]
fn missing_frames_are_left_out(rt: HostRuntime) -> Result<(), Fail> {
    let alloc = rt.alloc();
    let rows = vec![in alloc; ROW; 4]?;
    let plan = RunPlan::make(rows, 2, 1, Link::lost(alloc, vec![in alloc; 2u32; 1]?));
    let mut out = MemSink::new(alloc, 1000, Vec::new(alloc));
    assert!(rt; write_stream(alloc, 0, &plan, &mut out).is_ok());
    assert_eq!(rt; out.written(), worked(alloc)?.as_slice());
    Ok(())
}

#[test]
fn no_packets_are_a_header_and_an_end(rt: HostRuntime) -> Result<(), Fail> {
    let alloc = rt.alloc();
    let plan = RunPlan::make(Vec::new(alloc), 16, 64, Link::lost(alloc, Vec::new(alloc)));
    let mut out = MemSink::new(alloc, 3, Vec::new(alloc));
    assert!(rt; write_stream(alloc, 4, &plan, &mut out).is_ok());
    let expected = [
        0x53, 0x43, 0x52, 0x53, 1, 4, 16, 64, 0x53, 0x43, 2, 3, 0, 0, 0, 0, 0, 0,
    ];
    assert_eq!(rt; out.written(), expected.as_slice());
    Ok(())
}

#[test]
fn a_fault_leaves_a_front(rt: HostRuntime) -> Result<(), Fail> {
    let alloc = rt.alloc();
    for call in 1..5 {
        let mut out = MemSink::new(alloc, 100, vec![in alloc; call; 1]?);
        assert!(rt; stream_over(alloc, b"2", b"", b"", &mut out).is_none());
        let whole = worked(alloc)?;
        assert_eq!(rt; Some(out.written()), whole.get(..100 * (call as usize - 1)));
    }
    Ok(())
}

#[test]
fn reads_the_worked_stream(rt: HostRuntime) -> Result<(), Fail> {
    let alloc = rt.alloc();
    let mut source = MemSource::new(worked(alloc)?, 1, Vec::new(alloc));
    let read = read_stream(alloc, 0, &mut source);
    match read {
        Ok(plan) => {
            assert_eq!(rt; plan.rows(), vec![in alloc; ROW; 4]?.as_slice());
            assert_eq!(rt; (plan.cores(), plan.history()), (2, 1));
            assert!(rt; !plan.link().delivered(2, 4, 2));
            assert!(rt; plan.link().delivered(2, 4, 1));
            assert!(rt; plan.link().delivered(2, 4, 3));
            assert!(rt; plan.link().delivered(2, 4, 4));
        }
        Err(_) => assert!(rt; false),
    }
    Ok(())
}

// What the reading of these bytes is refused for.
fn refusal_of(alloc: Global, program: u8, bytes: Vec<u8>) -> Option<StreamError> {
    let mut source = MemSource::new(bytes, 16, Vec::new(alloc));
    read_stream(alloc, program, &mut source).err()
}

#[test]
fn refuses_what_is_cut(rt: HostRuntime) -> Result<(), Fail> {
    let alloc = rt.alloc();
    // The first bytes alone.
    for count in 0..328 {
        let mut bytes = worked(alloc)?;
        bytes.truncate(count);
        let expected = match count {
            0..8 => StreamError::ShortHeader,
            8..74 => StreamError::Cut { entry: 1 },
            74..196 => StreamError::Cut { entry: 2 },
            196..318 => StreamError::Cut { entry: 3 },
            _ => StreamError::Cut { entry: 4 },
        };
        assert_eq!(rt; refusal_of(alloc, 0, bytes), Some(expected));
    }
    Ok(())
}

#[test]
fn refuses_another_program_and_more_bytes(rt: HostRuntime) -> Result<(), Fail> {
    let alloc = rt.alloc();
    assert_eq!(rt;
        refusal_of(alloc, 1, worked(alloc)?),
        Some(StreamError::Program)
    );
    let mut bytes = worked(alloc)?;
    bytes.push(0)?;
    assert_eq!(rt; refusal_of(alloc, 0, bytes), Some(StreamError::Trailing));
    Ok(())
}

// The stream with one byte of another value.
#[test]
fn refuses_what_is_changed(rt: HostRuntime) -> Result<(), Fail> {
    let alloc = rt.alloc();
    let cases = [
        (0, 0x54, StreamError::Mark),
        (3, 0x54, StreamError::Mark),
        (4, 2, StreamError::Version),
        (5, 2, StreamError::Program),
        (6, 0, StreamError::Shape),
        (6, 17, StreamError::Shape),
        (7, 65, StreamError::Shape),
        (7, 2, StreamError::Rows { entry: 2 }),
        (7, 0, StreamError::Rows { entry: 2 }),
        (
            8,
            0,
            StreamError::Message {
                entry: 1,
                cause: WireError::Mark,
            },
        ),
        (
            10,
            1,
            StreamError::Message {
                entry: 1,
                cause: WireError::Version,
            },
        ),
        (
            11,
            4,
            StreamError::Message {
                entry: 1,
                cause: WireError::Kind,
            },
        ),
        (
            11,
            2,
            StreamError::Message {
                entry: 1,
                cause: WireError::Count,
            },
        ),
        (
            17,
            0,
            StreamError::Message {
                entry: 1,
                cause: WireError::Count,
            },
        ),
        (
            15,
            0,
            StreamError::Message {
                entry: 1,
                cause: WireError::Count,
            },
        ),
        (15, 2, StreamError::Rows { entry: 1 }),
        (
            81,
            1,
            StreamError::Message {
                entry: 2,
                cause: WireError::Count,
            },
        ),
        (203, 3, StreamError::Number { entry: 3 }),
        (203, 2, StreamError::Number { entry: 3 }),
        (201, 0x10, StreamError::Number { entry: 3 }),
        (321, 2, StreamError::Beacon { entry: 4 }),
        (325, 3, StreamError::Number { entry: 4 }),
        (323, 0x10, StreamError::Number { entry: 4 }),
        (
            327,
            1,
            StreamError::Message {
                entry: 4,
                cause: WireError::Count,
            },
        ),
        (206, 1, StreamError::Differs { entry: 3 }),
        (261, 1, StreamError::Differs { entry: 3 }),
    ];
    for (place, value, expected) in cases {
        let mut bytes = worked(alloc)?;
        *bytes.get_mut(place).ok_or("a place")? = value;
        assert_eq!(rt; refusal_of(alloc, 0, bytes), Some(expected));
    }
    Ok(())
}

#[test]
fn tells_of_a_fault(rt: HostRuntime) -> Result<(), Fail> {
    let alloc = rt.alloc();
    for call in 1..22 {
        let mut source = MemSource::new(worked(alloc)?, 16, vec![in alloc; call; 1]?);
        let read = read_stream(alloc, 0, &mut source);
        assert_eq!(rt; read.err(), Some(StreamError::ReadFault));
    }
    Ok(())
}

#[test]
fn reads_what_was_written(rt: HostRuntime) -> Result<(), Fail> {
    let alloc = rt.alloc();
    let drops = match Drops::read(alloc, b"1,4") {
        Ok(drops) => drops,
        Err(_) => return Ok(assert!(rt; false)),
    };
    let rows = vec![in alloc; ROW; 4]?;
    let plan = RunPlan::make(rows, 1, 0, Link::dropping(alloc, drops));
    let mut out = MemSink::new(alloc, 1000, Vec::new(alloc));
    assert!(rt; write_stream(alloc, 3, &plan, &mut out).is_ok());
    let bytes = joined(alloc, &[out.written()])?;
    let mut source = MemSource::new(bytes, 5, Vec::new(alloc));
    match read_stream(alloc, 3, &mut source) {
        Ok(read) => {
            let expected = [NO_ROW, ROW, ROW, NO_ROW];
            assert_eq!(rt; read.rows(), expected.as_slice());
            assert!(rt; !read.link().delivered(1, 4, 1));
            assert!(rt; read.link().delivered(1, 4, 2));
            assert!(rt; !read.link().delivered(1, 4, 4));
        }
        Err(_) => assert!(rt; false),
    }
    Ok(())
}

#[test]
fn laws_are_called(_rt: HostRuntime) {
    one_reading();
    some_reading();
    written_is_read();
}
