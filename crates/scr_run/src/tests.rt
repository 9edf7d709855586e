//! Runs over captures in memory. Captures, reports and lines are written by hand.

use crate::{OpenGate, Shape, Status, names_of, plain_run, run_engine, scr_main};
use scr_base::{OutOfMemory, SureSink, SureSource, Word};
use scr_ddos::{Ddos, DdosSettings};
use scr_plan::{Drops, Link};
use std::alloc::Global;
use std::sync::Wait;
use std::test::Fail;
use std::thread::Threads;

mod blocks;
mod statuses;
mod streams;

/// The header of a capture with times in microseconds.
const HEADER: &[u8] = &[
    0xD4, 0xC3, 0xB2, 0xA1, 2, 0, 4, 0, 0, 0, 0, 0, 0, 0, 0, 0, 0, 0, 4, 0, 1, 0, 0, 0,
];

/// 10.0.0.1 port 40000 to 10.0.0.2 port 53, over UDP.
const FRAME: &[u8] = &[
    0x02, 0, 0, 0, 0, 0x02, 0x02, 0, 0, 0, 0, 0x01, 0x08, 0x00, // Ethernet
    0x45, 0, 0, 0x1C, 0, 0, 0, 0, 0x40, 17, 0, 0, 10, 0, 0, 1, 10, 0, 0, 2, // IPv4
    0x9C, 0x40, 0, 53, 0, 8, 0, 0, // UDP
];

/// A capture of the frame four times, of 256 bytes.
fn capture(alloc: Global) -> Result<Vec<u8>, OutOfMemory> {
    let mut bytes = Vec::from_slice(alloc, HEADER)?;
    for seconds in 1..=4 {
        bytes.extend_from_slice(&[seconds, 0, 0, 0, 0, 0, 0, 0, 42, 0, 0, 0, 42, 0, 0, 0])?;
        bytes.extend_from_slice(FRAME)?;
    }
    Ok(bytes)
}

/// How a run ended, and what it wrote.
#[derive(Drop)]
struct Ended {
    status: Status,
    out: SureSink,
    err: SureSink,
}

/// The run of the words of a line over so many of the first bytes of the capture.
fn run<R: Threads + Wait + Sync>(
    rt: &R,
    alloc: Global,
    line: &str,
    length: usize,
) -> Result<Ended, OutOfMemory> {
    let mut bytes = capture(alloc)?;
    bytes.truncate(length);
    run_over(rt, alloc, line, bytes)
}

/// The run of the words of a line over these bytes.
fn run_over<R: Threads + Wait + Sync>(
    rt: &R,
    alloc: Global,
    line: &str,
    bytes: Vec<u8>,
) -> Result<Ended, OutOfMemory> {
    let mut words = Vec::new(alloc);
    for text in line.split(' ') {
        words.push(Word::of(alloc, text.as_bytes())?)?;
    }
    // A caller of `scr_main` owes that there are fewer than 2^32 - 1.
    words.truncate(100);
    let mut source = SureSource::new(bytes, 100);
    let mut out = SureSink::new(alloc, usize::MAX);
    let mut err = SureSink::new(alloc, usize::MAX);
    let status = scr_main(
        rt,
        alloc,
        &words,
        &mut source,
        &mut out,
        &mut err,
        &OpenGate,
    );
    Ok(Ended { status, out, err })
}

#[test]
fn reports_what_is_asked_for(rt: HostRuntime) -> Result<(), Fail> {
    let cases = [
        (
            "run program=ddos threshold=2",
            "1 PASS\n2 PASS\n3 DROP\n4 DROP\n\
             frames 4 delivered 4 kept 4\n\
             core 0 delivered 4 carried 4 recovered 0 skipped 0\n\
             flows 1\n\
             verdict PASS 2\nverdict DROP 2\nverdict OTHER 0\n",
        ),
        (
            "run program=ddos threshold=2 cores=2 history=0 drop=2",
            "1 PASS\n3 PASS\n4 DROP\n\
             frames 4 delivered 3 kept 3\n\
             core 0 delivered 2 carried 2 recovered 1 skipped 1\n\
             core 1 delivered 1 carried 1 recovered 2 skipped 1\n\
             flows 1\n\
             verdict PASS 2\nverdict DROP 1\nverdict OTHER 0\n",
        ),
        (
            "run program=ddos threshold=2 cores=2 history=1 drop=2",
            "1 PASS\n3 DROP\n4 DROP\n\
             frames 4 delivered 3 kept 4\n\
             core 0 delivered 2 carried 3 recovered 1 skipped 0\n\
             core 1 delivered 1 carried 2 recovered 2 skipped 0\n\
             flows 1\n\
             verdict PASS 1\nverdict DROP 2\nverdict OTHER 0\n",
        ),
        (
            "run program=ddos threshold=2 cores=2 history=0 repeat=1-4 delay=1:3",
            "2 PASS\n3 PASS\n4 DROP\n\
             frames 4 delivered 3 kept 3\n\
             core 0 delivered 1 carried 1 recovered 2 skipped 1\n\
             core 1 delivered 2 carried 2 recovered 1 skipped 1\n\
             flows 1\n\
             verdict PASS 2\nverdict DROP 1\nverdict OTHER 0\n",
        ),
        (
            "plain program=knock ports=53,53,53",
            "1 DROP\n2 DROP\n3 DROP\n4 PASS\n\
             frames 4 delivered 4 kept 4\n\
             flows 1\n\
             verdict PASS 1\nverdict DROP 3\nverdict OTHER 0\n",
        ),
        (
            "load program=conn frames=1 hosts=1",
            "frames 1 delivered 1 kept 1\n\
             core 0 delivered 1 carried 1 recovered 0 skipped 0\n\
             flows 1\n\
             verdict SYN_SENT 1\nverdict SYN_RECV 0\nverdict ESTABLISHED 0\nverdict FIN_WAIT 0\n\
             verdict LAST_ACK 0\nverdict TIME_WAIT 0\nverdict CLOSED 0\nverdict INVALID 0\nverdict OTHER 0\n",
        ),
        (
            "run program=chain first=ddos second=heavy threshold=3 bytes=60",
            "1 PASS\n2 PASS\n3 HEAVY\n4 STOPPED\n\
             frames 4 delivered 4 kept 4\n\
             core 0 delivered 4 carried 4 recovered 0 skipped 0\n\
             flows 2\n\
             verdict PASS 2\nverdict HEAVY 1\nverdict OTHER 0\nverdict STOPPED 1\n",
        ),
        (
            "plain program=table table=0:d53>1/D,0:*>0/D,1:u>2/P,1:*>1/D,2:*>2/D",
            "1 DROP\n2 PASS\n3 DROP\n4 DROP\n\
             frames 4 delivered 4 kept 4\n\
             flows 1\n\
             verdict PASS 1\nverdict DROP 3\nverdict OTHER 0\n",
        ),
    ];
    for (line, report) in cases {
        let ended = run(&rt, rt.alloc(), line, 256)?;
        assert_eq!(rt; ended.status, Status::Done);
        assert_eq!(rt; ended.out.written(), report.as_bytes());
        assert_eq!(rt; ended.err.written(), &b""[..]);
    }
    Ok(())
}

#[test]
fn tells_why_it_stopped(rt: HostRuntime) -> Result<(), Fail> {
    let cases = [
        ("", 256, 1, "scr: word 1: Command\n"),
        ("run", 256, 1, "scr: word 2: Missing\n"),
        (
            "run program=ddos drop=1,,2",
            256,
            1,
            "scr: word 3: Drop Empty at 2\n",
        ),
        ("run program=ddos", 23, 2, "scr: header: ShortHeader\n"),
        ("plain program=ddos", 255, 2, "scr: record 4: ShortRecord\n"),
    ];
    for (line, length, code, told) in cases {
        let ended = run(&rt, rt.alloc(), line, length)?;
        assert_eq!(rt; ended.status.code(), code);
        assert_eq!(rt; ended.out.written(), &b""[..]);
        assert_eq!(rt; ended.err.written(), told.as_bytes());
    }
    Ok(())
}

#[test]
fn a_program_runs_by_itself(rt: HostRuntime) -> Result<(), Fail> {
    let alloc = rt.alloc();
    let settings = DdosSettings::new(1);
    let shape = Shape {
        cores: 1,
        history: 0,
        link: Link::dropping(alloc, Drops::none(alloc)),
        ring: 1,
        threads: false,
    };
    let mut source = SureSource::new(capture(alloc)?, 100);
    let mut out = SureSink::new(alloc, 100);
    let status = run_engine::<Ddos, SureSource, SureSink, OpenGate, HostRuntime>(
        &rt,
        alloc,
        &settings,
        shape,
        true,
        &mut source,
        &mut out,
        &OpenGate,
    );
    assert_eq!(rt; status, Status::Done);
    assert_eq!(rt; out.written().len(), 161);
    let mut source = SureSource::new(capture(alloc)?, 100);
    let mut out = SureSink::new(alloc, 100);
    let status = plain_run::<Ddos, SureSource, SureSink>(alloc, &settings, &mut source, &mut out);
    assert_eq!(rt; status, Status::Done);
    assert_eq!(rt; out.written().len(), 110);
    assert_eq!(rt; names_of::<Ddos>(alloc)?.len(), 3);
    Ok(())
}
