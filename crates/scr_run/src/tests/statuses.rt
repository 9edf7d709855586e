//! The number of each status that no run of the tests ends with, and its line.

use crate::{Status, tell_want, write_fault_line};
use scr_base::{OutOfMemory, SureSink};
use scr_pcap::CaptureError;
use scr_pcapng::{AnyError, NgError};
use std::test::Fail;

#[test]
fn tells_each_status(rt: HostRuntime) -> Result<(), Fail> {
    let long = CaptureError::LongRecord {
        number: 2,
        length: 262145,
    };
    let too_large = Vec::<u8>::with_capacity(rt.alloc(), usize::MAX);
    let want = OutOfMemory::from(too_large.err().expect(&rt, "no memory is so large"));
    let cases: [(Status, u8, &str); 8] = [
        (Status::Done, 0, ""),
        (Status::from(CaptureError::Magic), 2, "scr: header: Magic\n"),
        (
            Status::from(CaptureError::Version),
            2,
            "scr: header: Version\n",
        ),
        (
            Status::from(CaptureError::LinkType),
            2,
            "scr: header: LinkType\n",
        ),
        (Status::from(long), 2, "scr: record 2: LongRecord 262145\n"),
        (Status::ReadFault, 3, "scr: read fault\n"),
        (Status::WriteFault, 4, "scr: write fault\n"),
        (
            Status::TooMany { limit: 1000000 },
            6,
            "scr: more than 1000000 records\n",
        ),
    ];
    for (status, code, line) in cases {
        let mut err = SureSink::new(rt.alloc(), 100);
        assert_eq!(rt; write_fault_line(&mut err, &status), Ok(()));
        assert_eq!(rt; err.written(), line.as_bytes());
        assert_eq!(rt; status.code(), code);
    }
    let mut err = SureSink::new(rt.alloc(), 100);
    assert_eq!(rt;
        write_fault_line(&mut err, &Status::OutOfMemory(want)),
        Ok(())
    );
    assert_eq!(rt; err.written(), &b"scr: out of memory\n"[..]);
    assert_eq!(rt; tell_want(&mut err), 5);
    assert_eq!(rt;
        err.written(),
        &b"scr: out of memory\nscr: out of memory\n"[..]
    );
    Ok(())
}

#[test]
fn tells_each_status_of_blocks(rt: HostRuntime) -> Result<(), Fail> {
    let too_large = NgError::Captured {
        block: 3,
        length: 262145,
    };
    let cases = [
        (NgError::Cut { block: 1 }, "scr: block 1: Cut\n"),
        (NgError::Mark { block: 20 }, "scr: block 20: Mark\n"),
        (NgError::Length { block: 3 }, "scr: block 3: Length\n"),
        (NgError::Version { block: 4 }, "scr: block 4: Version\n"),
        (
            NgError::Resolution { block: 2 },
            "scr: block 2: Resolution\n",
        ),
        (NgError::Interface { block: 2 }, "scr: block 2: Interface\n"),
        (too_large, "scr: block 3: Captured 262145\n"),
        (
            NgError::LinkType { block: 4000000 },
            "scr: block 4000000: LinkType\n",
        ),
        (
            NgError::TooManyBlocks { limit: 4000000 },
            "scr: more than 4000000 blocks\n",
        ),
    ];
    for (fault, line) in cases {
        let status = Status::from(AnyError::Ng(fault));
        let mut err = SureSink::new(rt.alloc(), 100);
        assert_eq!(rt; write_fault_line(&mut err, &status), Ok(()));
        assert_eq!(rt; err.written(), line.as_bytes());
        assert_eq!(rt; status.code(), 7);
    }
    let too_many = Status::from(AnyError::Ng(NgError::TooMany { limit: 1000000 }));
    assert_eq!(rt; too_many, Status::TooMany { limit: 1000000 });
    Ok(())
}
