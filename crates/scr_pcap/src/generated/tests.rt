//! The first record written down by hand, and whole captures by the lengths and checksums that `tests/generated.py` of the
//! repository computes.

use super::*;
use std::test::Fail;

const FIRST: [u8; 94] = [
    // The header.
    0xD4, 0xC3, 0xB2, 0xA1, 2, 0, 4, 0, 0, 0, 0, 0, 0, 0, 0, 0, 0, 0, 4, 0, 1, 0, 0, 0,
    // 1,700,000,000 seconds and 100 microseconds, 54 bytes.
    0x00, 0xF1, 0x53, 0x65, 100, 0, 0, 0, 54, 0, 0, 0, 54, 0, 0, 0,
    // SYN from 10.0.0.1 port 40000 to 10.128.0.1 port 80.
    2, 0, 0, 0, 0, 2, 2, 0, 0, 0, 0, 1, 0x08, 0x00, //
    0x45, 0, 0, 40, 0, 0, 0, 0, 64, 6, 0, 0, 10, 0, 0, 1, 10, 128, 0, 1, //
    0x9C, 0x40, 0, 80, 0, 0, 0, 0, 0, 0, 0, 0, 0x50, 0x02, 0xFF, 0xFF, 0, 0, 0, 0,
];

// 31 times the checksum of what stands before a byte, plus this byte.
fn checksum(bytes: &[u8]) -> u64 {
    bytes.iter().fold(0u64, |sum, byte| {
        sum.wrapping_mul(31).wrapping_add(u64::from(*byte))
    })
}

#[test]
fn the_first_record(rt: HostRuntime) -> Result<(), OutOfMemory> {
    let bytes = generate(rt.alloc(), 0, 1, 1)?;
    assert_eq!(rt; bytes.as_slice(), &FIRST[..]);
    let bytes = generate(rt.alloc(), 0, 0, 1)?;
    assert_eq!(rt; bytes.as_slice(), &FIRST[..24]);
    Ok(())
}

#[test]
fn whole_captures(rt: HostRuntime) -> Result<(), OutOfMemory> {
    let bytes = generate(rt.alloc(), 7, 300, 5)?;
    assert_eq!(rt;
        (bytes.len(), checksum(&bytes)),
        (20_316, 17_237_193_152_614_954_970)
    );
    // More than a second long, from the greatest start and with the most hosts.
    let bytes = generate(rt.alloc(), u64::MAX, 20_000, 65_536)?;
    assert_eq!(rt;
        (bytes.len(), checksum(&bytes)),
        (1_354_724, 1_646_399_022_815_097_492)
    );
    Ok(())
}
