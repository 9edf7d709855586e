use crate::{Outgoing, Sequencer};
use scr_base::Row;
use scr_plan::Fate;
use scr_wire::decode;
use std::test::Fail;

// The row of a counter of packets from 10.0.0.1.
const ROW: Row = Row {
    w0: 0,
    w1: 0x0A00_0001,
    w2: 0,
    w3: 0,
    w4: 3,
    w5: 0,
    w6: 0,
};

// The messages of frames 1, 3 and 4 where frame 2 is dropped and a frame carries one packet before its own.
const FRAME_1: [u8; 66] = [
    0x53, 0x43, 2, 1, 0, 0, 0, 1, 0, 1, 0, 0, 0, 0, 0, 0, 0, 0, 0, 0, 0, 0, 0x0A, 0, 0, 1, 0, 0, 0,
    0, 0, 0, 0, 0, 0, 0, 0, 0, 0, 0, 0, 0, 0, 0, 0, 0, 0, 0, 0, 3, 0, 0, 0, 0, 0, 0, 0, 0, 0, 0, 0,
    0, 0, 0, 0, 0,
];

const FRAME_3: [u8; 122] = [
    0x53, 0x43, 2, 1, 0, 0, 0, 3, 0, 2, 0, 0, 0, 0, 0, 0, 0, 0, 0, 0, 0, 0, 0x0A, 0, 0, 1, 0, 0, 0,
    0, 0, 0, 0, 0, 0, 0, 0, 0, 0, 0, 0, 0, 0, 0, 0, 0, 0, 0, 0, 3, 0, 0, 0, 0, 0, 0, 0, 0, 0, 0, 0,
    0, 0, 0, 0, 0, 0, 0, 0, 0, 0, 0, 0, 0, 0, 0, 0, 0, 0x0A, 0, 0, 1, 0, 0, 0, 0, 0, 0, 0, 0, 0, 0,
    0, 0, 0, 0, 0, 0, 0, 0, 0, 0, 0, 0, 0, 3, 0, 0, 0, 0, 0, 0, 0, 0, 0, 0, 0, 0, 0, 0, 0, 0,
];

const FRAME_4: [u8; 122] = [
    0x53, 0x43, 2, 1, 0, 0, 0, 4, 0, 2, 0, 0, 0, 0, 0, 0, 0, 0, 0, 0, 0, 0, 0x0A, 0, 0, 1, 0, 0, 0,
    0, 0, 0, 0, 0, 0, 0, 0, 0, 0, 0, 0, 0, 0, 0, 0, 0, 0, 0, 0, 3, 0, 0, 0, 0, 0, 0, 0, 0, 0, 0, 0,
    0, 0, 0, 0, 0, 0, 0, 0, 0, 0, 0, 0, 0, 0, 0, 0, 0, 0x0A, 0, 0, 1, 0, 0, 0, 0, 0, 0, 0, 0, 0, 0,
    0, 0, 0, 0, 0, 0, 0, 0, 0, 0, 0, 0, 0, 3, 0, 0, 0, 0, 0, 0, 0, 0, 0, 0, 0, 0, 0, 0, 0, 0,
];

// What most frames do.
const ONCE: Fate = Fate::Once { delay: 0 };

// The bytes of the packet of the step's own frame, or none.
fn bytes_of(outgoing: &Outgoing) -> &[u8] {
    match &outgoing.own {
        Some(frame) => frame.packet.bytes(),
        None => &[],
    }
}

#[test]
fn two_cores_and_a_dropped_frame(rt: HostRuntime) -> Result<(), Fail> {
    let mut sequencer = Sequencer::make(rt.alloc(), 2, 1)?;
    let first = sequencer.next(ROW, ONCE)?;
    assert_eq!(rt; bytes_of(&first), FRAME_1.as_slice());
    let second = sequencer.next(ROW, Fate::Lost)?;
    assert!(rt; second.own.is_none());
    let third = sequencer.next(ROW, ONCE)?;
    assert_eq!(rt; bytes_of(&third), FRAME_3.as_slice());
    let fourth = sequencer.next(ROW, ONCE)?;
    assert_eq!(rt; bytes_of(&fourth), FRAME_4.as_slice());
    assert_eq!(rt; sequencer.finish().end(), 4);
    Ok(())
}

#[test]
fn a_beacon_after_each_256_numbers(rt: HostRuntime) -> Result<(), Fail> {
    let mut sequencer = Sequencer::make(rt.alloc(), 2, 0)?;
    for n in 0..600 {
        let outgoing = sequencer.next(ROW, ONCE)?;
        let beacon = (n == 256 || n == 512).then_some(n);
        assert_eq!(rt; outgoing.beacon, beacon);
        let frame = outgoing.own.ok_or("a frame")?;
        assert_eq!(rt; frame.core, n % 2);
    }
    Ok(())
}

#[test]
fn frames_carry_the_last_rows_in_order(rt: HostRuntime) -> Result<(), Fail> {
    let mut sequencer = Sequencer::make(rt.alloc(), 3, 2)?;
    for n in 1..=7u64 {
        let outgoing = sequencer.next(Row { w6: n, ..ROW }, ONCE)?;
        let view = decode(bytes_of(&outgoing)).ok().ok_or("a frame")?;
        let count = view.count();
        assert_eq!(rt; u64::from(count), n.min(3));
        for i in 0..count {
            let behind = view.row(i).w6.checked_add(u64::from(count));
            assert_eq!(rt; behind, Some(n + 1 + u64::from(i)));
        }
    }
    Ok(())
}

#[test]
fn late_frames_behind_the_step_s_own(rt: HostRuntime) -> Result<(), Fail> {
    let mut sequencer = Sequencer::make(rt.alloc(), 2, 1)?;
    let first = sequencer.next(ROW, Fate::Twice { delay: 2 })?;
    assert!(rt; first.own.is_none() && first.late.is_empty());
    let second = sequencer.next(ROW, Fate::Once { delay: 1_000 })?;
    assert!(rt; second.own.is_none() && second.late.is_empty());
    let third = sequencer.next(ROW, ONCE)?;
    assert_eq!(rt; bytes_of(&third), FRAME_3.as_slice());
    assert_eq!(rt; third.late.len(), 1);
    for frame in &third.late {
        assert_eq!(rt; frame.packet.bytes(), FRAME_1.as_slice());
        assert!(rt; frame.copy.is_some());
    }
    let mut rest = sequencer.finish();
    for n in 4..=1_003 {
        let frames = rest.step().ok_or("a step")?;
        assert_eq!(rt; frames.len(), usize::from(n == 1_002), "at step {n}");
    }
    assert!(rt; rest.step().is_none());
    Ok(())
}
