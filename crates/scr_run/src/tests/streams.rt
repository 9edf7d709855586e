//! Sprays and replays: a stream written by hand, what it is replayed to, and why one is refused.

use super::{Ended, run, run_over};
use crate::{Status, replayed_is_run, write_fault_line};
use scr_base::{OutOfMemory, SureSink};
use scr_stream::StreamError;
use scr_wire::WireError;
use std::alloc::Global;
use std::test::Fail;

/// The row of a packet from 10.0.0.1, as the counter of packets has it.
const ROW: [u8; 56] = [
    0, 0, 0, 0, 0, 0, 0, 0, 0, 0, 0, 0, 10, 0, 0, 1, 0, 0, 0, 0, 0, 0, 0, 0, 0, 0, 0, 0, 0, 0, 0,
    0, 0, 0, 0, 0, 0, 0, 0, 3, 0, 0, 0, 0, 0, 0, 0, 0, 0, 0, 0, 0, 0, 0, 0, 0,
];

/// The stream of four such packets on two cores with a history of one, of which frame 2 is lost.
fn stream(alloc: Global) -> Result<Vec<u8>, OutOfMemory> {
    let parts: [&[u8]; 10] = [
        &[0x53, 0x43, 0x52, 0x53, 1, 0, 2, 1],
        &[0x53, 0x43, 2, 1, 0, 0, 0, 1, 0, 1],
        &ROW,
        &[0x53, 0x43, 2, 1, 0, 0, 0, 3, 0, 2],
        &ROW,
        &ROW,
        &[0x53, 0x43, 2, 1, 0, 0, 0, 4, 0, 2],
        &ROW,
        &ROW,
        &[0x53, 0x43, 2, 3, 0, 0, 0, 4, 0, 0],
    ];
    let mut bytes = Vec::new(alloc);
    for part in parts {
        bytes.extend_from_slice(part)?;
    }
    Ok(bytes)
}

/// The report of the run with the same words.
const REPORT: &str = "1 PASS\n3 DROP\n4 DROP\n\
     frames 4 delivered 3 kept 4\n\
     core 0 delivered 2 carried 3 recovered 1 skipped 0\n\
     core 1 delivered 1 carried 2 recovered 2 skipped 0\n\
     flows 1\n\
     verdict PASS 1\nverdict DROP 2\nverdict OTHER 0\n";

#[test]
fn sprays_what_the_cores_are_delivered(rt: HostRuntime) -> Result<(), Fail> {
    let alloc = rt.alloc();
    let lines = [
        "spray program=ddos threshold=2 cores=2 history=1 drop=2",
        "spray program=ddos cores=2 history=1 repeat=1,3-4 delay=2:3,3:9",
    ];
    for line in lines {
        let ended = run(&rt, alloc, line, 256)?;
        assert_eq!(rt; ended.status, Status::Done);
        assert_eq!(rt; ended.out.written(), stream(alloc)?.as_slice());
        assert_eq!(rt; ended.err.written(), &b""[..]);
    }
    let cut = run(&rt, alloc, "spray program=ddos", 255)?;
    assert_eq!(rt; cut.status.code(), 2);
    assert_eq!(rt; cut.out.written(), &b""[..]);
    assert_eq!(rt; cut.err.written(), &b"scr: record 4: ShortRecord\n"[..]);
    Ok(())
}

#[test]
fn replays_what_was_sprayed(rt: HostRuntime) -> Result<(), Fail> {
    let alloc = rt.alloc();
    let lines = [
        "replay program=ddos threshold=2",
        "replay program=ddos threshold=2 threads=no ring=1",
    ];
    for line in lines {
        let ended = run_over(&rt, alloc, line, stream(alloc)?)?;
        assert_eq!(rt; ended.status, Status::Done);
        assert_eq!(rt; ended.out.written(), REPORT.as_bytes());
        assert_eq!(rt; ended.err.written(), &b""[..]);
    }
    replayed_is_run();
    Ok(())
}

/// The replay of so many of the first bytes of the stream.
fn replay<R: std::thread::Threads + std::sync::Wait + Sync>(
    rt: &R,
    alloc: Global,
    line: &str,
    length: usize,
) -> Result<Ended, OutOfMemory> {
    let mut bytes = stream(alloc)?;
    bytes.truncate(length);
    run_over(rt, alloc, line, bytes)
}

#[test]
fn tells_why_a_stream_stopped_it(rt: HostRuntime) -> Result<(), Fail> {
    let alloc = rt.alloc();
    let cases = [
        ("replay program=ddos", 327, 8, "scr: entry 4: Cut\n"),
        ("replay program=ddos", 7, 8, "scr: stream: ShortHeader\n"),
        ("replay program=heavy", 328, 8, "scr: stream: Program\n"),
        ("replay program=chain", 328, 1, "scr: word 2: Program\n"),
        (
            "replay program=ddos cores=2",
            328,
            1,
            "scr: word 3: NotHere\n",
        ),
        ("run program=ddos", 328, 2, "scr: header: Magic\n"),
    ];
    for (line, length, code, told) in cases {
        let ended = replay(&rt, alloc, line, length)?;
        assert_eq!(rt; ended.status.code(), code);
        assert_eq!(rt; ended.out.written(), &b""[..]);
        assert_eq!(rt; ended.err.written(), told.as_bytes());
    }
    Ok(())
}

#[test]
fn tells_each_status_of_streams(rt: HostRuntime) -> Result<(), Fail> {
    let cases = [
        (StreamError::ShortHeader, "scr: stream: ShortHeader\n"),
        (StreamError::Mark, "scr: stream: Mark\n"),
        (StreamError::Version, "scr: stream: Version\n"),
        (StreamError::Program, "scr: stream: Program\n"),
        (StreamError::Shape, "scr: stream: Shape\n"),
        (StreamError::Cut { entry: 1 }, "scr: entry 1: Cut\n"),
        (StreamError::Beacon { entry: 20 }, "scr: entry 20: Beacon\n"),
        (StreamError::Number { entry: 3 }, "scr: entry 3: Number\n"),
        (StreamError::Rows { entry: 4 }, "scr: entry 4: Rows\n"),
        (
            StreamError::Differs { entry: 1000000 },
            "scr: entry 1000000: Differs\n",
        ),
        (StreamError::Trailing, "scr: stream: Trailing\n"),
    ];
    for (fault, line) in cases {
        let status = Status::from(fault);
        let mut err = SureSink::new(rt.alloc(), 100);
        assert_eq!(rt; write_fault_line(&mut err, &status), Ok(()));
        assert_eq!(rt; err.written(), line.as_bytes());
        assert_eq!(rt; status.code(), 8);
    }
    assert_eq!(rt; Status::from(StreamError::ReadFault), Status::ReadFault);
    Ok(())
}

#[test]
fn tells_each_cause_of_a_message(rt: HostRuntime) -> Result<(), Fail> {
    let cases = [
        (WireError::Short, "scr: entry 2: Message Short\n"),
        (WireError::Mark, "scr: entry 2: Message Mark\n"),
        (WireError::Version, "scr: entry 2: Message Version\n"),
        (WireError::Kind, "scr: entry 2: Message Kind\n"),
        (WireError::Count, "scr: entry 2: Message Count\n"),
        (WireError::Length, "scr: entry 2: Message Length\n"),
    ];
    for (cause, line) in cases {
        let status = Status::from(StreamError::Message { entry: 2, cause });
        let mut err = SureSink::new(rt.alloc(), 100);
        assert_eq!(rt; write_fault_line(&mut err, &status), Ok(()));
        assert_eq!(rt; err.written(), line.as_bytes());
    }
    Ok(())
}
