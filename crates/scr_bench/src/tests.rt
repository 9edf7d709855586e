//! Checksums of a few packets of one flow, whose verdicts were followed by hand, and of what goes from thread to thread.

use crate::laned::lane_received;
use crate::logged::rows_found;
use crate::measure::{Cores, Frames, Load, Shared, Stepped};
use crate::stepped::checksum_of;
use scr_base::OutOfMemory;
use std::test::Fail;

#[test]
fn verdicts_of_a_few_packets(rt: HostRuntime) -> Result<(), OutOfMemory> {
    let few = Load {
        flows: 1,
        packets: 3,
    };
    // Three times PASS, the verdict 0.
    assert_eq!(rt; checksum_of(rt.alloc(), Stepped::Ddos, few)?, 993);
    assert_eq!(rt; checksum_of(rt.alloc(), Stepped::Heavy, few)?, 993);
    assert_eq!(rt; checksum_of(rt.alloc(), Stepped::Bucket, few)?, 993);
    Ok(())
}

#[test]
fn verdicts_of_knocks(rt: HostRuntime) -> Result<(), OutOfMemory> {
    let knocks = Load {
        flows: 1,
        packets: 4,
    };
    // DROP, DROP, DROP, PASS, which are 1, 1, 1, 0.
    assert_eq!(rt; checksum_of(rt.alloc(), Stepped::Knock, knocks)?, 61_567);
    Ok(())
}

#[test]
fn verdicts_of_a_connection(rt: HostRuntime) -> Result<(), OutOfMemory> {
    let connection = Load {
        flows: 1,
        packets: 7,
    };
    // SYN_SENT, SYN_RECV, ESTABLISHED twice, FIN_WAIT, LAST_ACK, TIME_WAIT, which are 0, 1, 2, 2, 3, 4, 5.
    assert_eq!(rt;
        checksum_of(rt.alloc(), Stepped::Conn, connection)?,
        947_625_924
    );
    Ok(())
}

#[test]
fn messages_through_a_lane(rt: HostRuntime) -> Result<(), Fail> {
    // Frame 1, frame 2, end 2, of which a frame has one row.
    let two = Frames { count: 2 };
    assert_eq!(rt; lane_received(&rt, rt.alloc(), two)?, 4_260_607_558_657);
    // More than a lane holds, with beacons between.
    let many = Frames { count: 3_000 };
    assert_eq!(rt;
        lane_received(&rt, rt.alloc(), many)?,
        17_442_562_978_049_441_244
    );
    Ok(())
}

#[test]
fn rows_found_by_cores(rt: HostRuntime) -> Result<(), Fail> {
    // Rows of 0, 32 and 64, each found by all cores but one.
    let two = Shared {
        cores: Cores::Two,
        rows: 3,
    };
    assert_eq!(rt; rows_found(&rt, rt.alloc(), two)?, 96);
    let four = Shared {
        cores: Cores::Four,
        rows: 3,
    };
    assert_eq!(rt; rows_found(&rt, rt.alloc(), four)?, 288);
    // Each slot is used three times.
    let many = Shared {
        cores: Cores::Two,
        rows: 3_000,
    };
    assert_eq!(rt; rows_found(&rt, rt.alloc(), many)?, 139_527_000);
    Ok(())
}
