//! The callers, over a capture of four frames.

use super::*;
use scr_base::{OutOfMemory, Verdict, Word};
use scr_ddos::{Ddos, DdosSettings};
use scr_program::{DROP, PASS, Program};
use scr_run::Status;
use std::alloc::Global;
use std::test::Fail;

/// The header of a capture with times in microseconds.
const HEADER: [u8; 24] = [
    0xD4, 0xC3, 0xB2, 0xA1, 2, 0, 4, 0, 0, 0, 0, 0, 0, 0, 0, 0, 0, 0, 4, 0, 1, 0, 0, 0,
];

/// 10.0.0.1 port 40000 to 10.0.0.2 port 53, over UDP.
const FRAME: [u8; 42] = [
    0x02, 0, 0, 0, 0, 0x02, 0x02, 0, 0, 0, 0, 0x01, 0x08, 0x00, // Ethernet
    0x45, 0, 0, 0x1C, 0, 0, 0, 0, 0x40, 17, 0, 0, 10, 0, 0, 1, 10, 0, 0, 2, // IPv4
    0x9C, 0x40, 0, 53, 0, 8, 0, 0, // UDP
];

/// The report of a program that drops two frames of four, without lines of cores.
const REPORT: &str = "1 PASS\n2 PASS\n3 DROP\n4 DROP\n\
    frames 4 delivered 4 kept 4\nflows 1\nverdict PASS 2\nverdict DROP 2\nverdict OTHER 0\n";

/// A capture of the frame four times.
fn capture(alloc: Global) -> Result<Vec<u8>, OutOfMemory> {
    let mut bytes = Vec::from_slice(alloc, &HEADER)?;
    for seconds in 1..=4 {
        bytes.extend_from_slice(&[seconds, 0, 0, 0, 0, 0, 0, 0, 42, 0, 0, 0, 42, 0, 0, 0])?;
        bytes.extend_from_slice(&FRAME)?;
    }
    Ok(bytes)
}

#[test]
fn runs_words(rt: HostRuntime) -> Result<(), Fail> {
    let alloc = rt.alloc();
    let cases = [
        ("threshold=2", 0, REPORT, ""),
        ("bytes=2", 1, "", "scr: word 3: NotHere\n"),
    ];
    for (text, code, report, told) in cases {
        let words = [
            Word::of(alloc, b"plain")?,
            Word::of(alloc, b"program=ddos")?,
            Word::of(alloc, text.as_bytes())?,
        ];
        let ended = run_words(&rt, alloc, &words, capture(alloc)?);
        assert_eq!(rt; ended.status.code(), code);
        assert_eq!(rt; ended.out.written(), report.as_bytes());
        assert_eq!(rt; ended.err.written(), told.as_bytes());
    }
    Ok(())
}

#[test]
fn reports_of_a_program(rt: HostRuntime) -> Result<(), Fail> {
    let alloc = rt.alloc();
    let mut flood = DdosSettings::new(10);
    assert_eq!(rt; flood.set(b"threshold", b"2"), Ok(()));
    let report = report_of::<Ddos>(alloc, &flood, capture(alloc)?);
    assert_eq!(rt; report.expect(&rt, "a report").written(), REPORT.as_bytes());
    let port = PortSettings {
        port: 53,
        most: 2,
        flows: 10,
    };
    let report = report_of::<PortGuard>(alloc, &port, capture(alloc)?);
    assert_eq!(rt; report.expect(&rt, "a report").written(), REPORT.as_bytes());
    let refused = report_of::<Ddos>(alloc, &flood, Vec::new(alloc));
    assert_eq!(rt; refused.err().map(|status| status.code()), Some(2));
    Ok(())
}

/// The verdicts of a guard of port 53, which lets one packet of a source pass, on the frame, one time to each port.
fn guarded(alloc: Global, ports: [u8; 5]) -> Result<Vec<Verdict>, OutOfMemory> {
    let settings = PortSettings {
        port: 53,
        most: 1,
        flows: 10,
    };
    let mut state = PortGuard::fresh(alloc, &settings)?;
    let mut verdicts = Vec::new(alloc);
    for port in ports {
        let mut frame = FRAME;
        frame[37] = port;
        verdicts.push(take_frame::<PortGuard>(&settings, &mut state, &frame, 0)?)?;
    }
    Ok(verdicts)
}

#[test]
fn guards_a_port(rt: HostRuntime) -> Result<(), Fail> {
    let verdicts = guarded(rt.alloc(), [53, 54, 53, 54, 53])?;
    assert_eq!(rt;
        verdicts.as_slice(),
        [PASS, PASS, DROP, PASS, DROP].as_slice()
    );
    Ok(())
}
