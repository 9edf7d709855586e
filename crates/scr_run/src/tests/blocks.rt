//! Runs over a capture in blocks.

use crate::Status;
use crate::tests::{FRAME, run_over};
use scr_base::OutOfMemory;
use scr_pcapng::NgError;
use std::alloc::Global;
use std::test::Fail;

/// A section in the low order, and an interface of Ethernet with a snap length of 262,144.
const FRONT: &[u8] = &[
    0x0A, 0x0D, 0x0D, 0x0A, 28, 0, 0, 0, 0x4D, 0x3C, 0x2B, 0x1A, 1, 0, 0, 0, // section
    255, 255, 255, 255, 255, 255, 255, 255, 28, 0, 0, 0, //
    1, 0, 0, 0, 20, 0, 0, 0, 1, 0, 0, 0, 0, 0, 4, 0, 20, 0, 0, 0, // interface
];

/// The low bytes of one to four seconds, in microseconds.
const TIMES: [[u8; 4]; 4] = [
    [0x40, 0x42, 0x0F, 0],
    [0x80, 0x84, 0x1E, 0],
    [0xC0, 0xC6, 0x2D, 0],
    [0, 0x09, 0x3D, 0],
];

/// So many of the first bytes of a capture of the frame four times, which has 352.
fn in_blocks(alloc: Global, length: usize) -> Result<Vec<u8>, OutOfMemory> {
    let mut bytes = Vec::from_slice(alloc, FRONT)?;
    for time in TIMES {
        bytes.extend_from_slice(&[6, 0, 0, 0, 76, 0, 0, 0, 0, 0, 0, 0, 0, 0, 0, 0])?;
        bytes.extend_from_slice(&time)?;
        bytes.extend_from_slice(&[42, 0, 0, 0, 42, 0, 0, 0])?;
        bytes.extend_from_slice(FRAME)?;
        bytes.extend_from_slice(&[0, 0, 76, 0, 0, 0])?;
    }
    bytes.truncate(length);
    Ok(bytes)
}

#[test]
fn reports_of_a_capture_in_blocks(rt: HostRuntime) -> Result<(), Fail> {
    let cases = [
        (
            "run program=ddos threshold=2",
            "1 PASS\n2 PASS\n3 DROP\n4 DROP\n\
             frames 4 delivered 4 kept 4\n\
             core 0 delivered 4 carried 4 recovered 0 skipped 0\n\
             flows 1\n\
             verdict PASS 2\nverdict DROP 2\nverdict OTHER 0\n",
        ),
        (
            "plain program=bucket rate=1 burst=1",
            "1 PASS\n2 PASS\n3 PASS\n4 PASS\n\
             frames 4 delivered 4 kept 4\n\
             flows 1\n\
             verdict PASS 4\nverdict DROP 0\nverdict OTHER 0\n",
        ),
    ];
    for (line, report) in cases {
        let ended = run_over(&rt, rt.alloc(), line, in_blocks(rt.alloc(), 352)?)?;
        assert_eq!(rt; ended.status, Status::Done);
        assert_eq!(rt; ended.out.written(), report.as_bytes());
        assert_eq!(rt; ended.err.written(), &b""[..]);
    }
    Ok(())
}

#[test]
fn tells_why_blocks_stopped_it(rt: HostRuntime) -> Result<(), Fail> {
    let cut = Status::Pcapng(NgError::Cut { block: 6 });
    let header = Status::Pcapng(NgError::Cut { block: 1 });
    let cases: [(&str, usize, Status, &str); 3] = [
        ("run program=ddos", 351, cut, "scr: block 6: Cut\n"),
        ("plain program=ddos", 351, cut, "scr: block 6: Cut\n"),
        ("plain program=ddos", 4, header, "scr: block 1: Cut\n"),
    ];
    for (line, length, status, told) in cases {
        let ended = run_over(&rt, rt.alloc(), line, in_blocks(rt.alloc(), length)?)?;
        assert_eq!(rt; ended.status, status);
        assert_eq!(rt; ended.out.written(), &b""[..]);
        assert_eq!(rt; ended.err.written(), told.as_bytes());
    }
    Ok(())
}
