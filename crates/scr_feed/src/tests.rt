ghost use Rattle.std.specs.Prelude.{◌≤◌, length, IfOk};

use crate::{Feed, Step};
use scr_base::{OutOfMemory, Row};
use scr_lane::ReceiveEnd;
use scr_plan::{Delays, Drops, Link, RunPlan};
use scr_wire::{MessageKind, Packet};
use std::alloc::Global;
use std::sync::Wait;
use std::test::Fail;
use std::thread::Threads;

mod taking;

use taking::{Taken, through_threads};

// The row of a counter of packets from 10.0.0.1.
const ROW: Row = Row {
    w0: 0,
    w1: 0x0A00_0001,
    w2: 0,
    w3: 0,
    w4: 3,
    w5: 0,
    w6: 0,
};

// So many of them.
fn rows_of(alloc: Global, frames: u16) -> Result<Vec<Row>, OutOfMemory>
    ensures { IfOk result (λ rows. length rows.items ≤ 65535) }
{
    let rows = vec![in alloc; ROW; usize::from(frames)]?;
    Ok(rows)
}

// A plan of such rows, whose frames carry their own packets alone.
fn plan_of(alloc: Global, frames: u16, cores: u32, link: Link) -> Result<RunPlan, OutOfMemory>
    requires some { 1 ≤ cores }
    requires few { cores ≤ 16 }
{
    Ok(RunPlan::make(rows_of(alloc, frames)?, cores, 0, link))
}

// The message of frame n, where a frame carries its own packet alone.
fn frame_message(n: u8) -> [u8; 66] {
    [
        0x53, 0x43, 2, 1, 0, 0, 0, n, 0, 1, 0, 0, 0, 0, 0, 0, 0, 0, 0, 0, 0, 0, 0x0A, 0, 0, 1, 0,
        0, 0, 0, 0, 0, 0, 0, 0, 0, 0, 0, 0, 0, 0, 0, 0, 0, 0, 0, 0, 0, 0, 3, 0, 0, 0, 0, 0, 0, 0,
        0, 0, 0, 0, 0, 0, 0, 0, 0,
    ]
}

fn is_frame(packet: &Packet, n: u8) -> bool {
    packet.bytes() == frame_message(n).as_slice()
}

// What is done with a feed and the lane of its one core, and what must come of it.
enum Act {
    // The feed's next step is this.
    Feeds(Step),
    // The lane has a packet, and it is this frame.
    Takes(u8),
    // The lane has no packet.
    FindsNone,
}

// Whether the next packet of the lane is this frame, where there is a packet.
fn takes<R: Wait>(rt: &R, end: &mut ReceiveEnd, n: u8) -> bool {
    end.has_item() && is_frame(&end.pop(rt), n)
}

// Whether this comes of it.
fn does<R: Wait>(
    rt: &R,
    feed: &mut Feed<'_>,
    end: &mut ReceiveEnd,
    act: &Act,
) -> Result<bool, OutOfMemory> {
    match act {
        Act::Feeds(step) => Ok(feed.step(rt)? == *step),
        Act::Takes(n) => Ok(takes(rt, end, *n)),
        Act::FindsNone => Ok(!end.has_item()),
    }
}

// Whether this comes of it so often.
fn does_often<R: Wait>(
    rt: &R,
    feed: &mut Feed<'_>,
    end: &mut ReceiveEnd,
    times: u32,
    act: &Act,
) -> Result<bool, OutOfMemory> {
    for _ in 0..times {
        if !does(rt, feed, end, act)? {
            return Ok(false);
        }
    }
    Ok(true)
}

// The first of these acts that goes otherwise.
fn goes_otherwise<R: Wait>(
    rt: &R,
    feed: &mut Feed<'_>,
    end: &mut ReceiveEnd,
    acts: &[(u32, Act)],
) -> Result<Option<usize>, OutOfMemory> {
    for (place, (times, act)) in acts.iter().enumerate() {
        if !does_often(rt, feed, end, *times, act)? {
            return Ok(Some(place));
        }
    }
    Ok(None)
}

const TAKEN: Act = Act::Feeds(Step::Taken);

const SENT: Act = Act::Feeds(Step::Sent { core: 0 });

const FULL: Act = Act::Feeds(Step::Full { core: 0 });

const DONE: Act = Act::Feeds(Step::Done);

// How four frames go through a lane of two packets: how often, and what.
const FOUR_FRAMES: [(u32, Act); 18] = [
    (1, TAKEN),
    (1, SENT),
    (1, TAKEN),
    (1, SENT),
    (1, TAKEN),
    (2, FULL),
    (1, Act::Takes(1)),
    (1, Act::Takes(2)),
    (1, Act::FindsNone),
    (1, SENT),
    (1, TAKEN),
    (1, SENT),
    (1, Act::Takes(3)),
    (1, Act::Takes(4)),
    // Nothing comes late.
    (1_000, TAKEN),
    // The end.
    (1, TAKEN),
    (1, SENT),
    (2, DONE),
];

#[test]
fn a_full_lane_and_an_empty_one(rt: HostRuntime) -> Result<(), Fail> {
    let link = Link::dropping(rt.alloc(), Drops::none(rt.alloc()));
    let plan = plan_of(rt.alloc(), 4, 1, link)?;
    let (mut feed, mut ends) = Feed::make(rt.alloc(), &plan, 2)?;
    let mut end = ends.pop().ok_or("an end")?;
    let otherwise = goes_otherwise(&rt, &mut feed, &mut end, &FOUR_FRAMES)?;
    assert_eq!(rt; otherwise, None);
    Ok(())
}

// A link that drops the even frames, repeats the first, and brings frames 3 and 599 late.
fn odd_frames(alloc: Global) -> Result<Link, Fail> {
    let drops = Drops::read(alloc, b"2-600/2")?;
    let repeats = Drops::read(alloc, b"1-2")?;
    let delays = Delays::read(alloc, b"3:2,599:1000")?;
    Ok(Link::make(alloc, drops, repeats, delays))
}

// What the lane of core 0 is over it.
fn odd_frames_with_beacons(alloc: Global) -> Result<Vec<Taken>, OutOfMemory> {
    let mut lane = Vec::new(alloc);
    lane.push((MessageKind::Frame, 1, 1))?;
    for n in 1..=600u32 {
        if n == 257 || n == 513 {
            lane.push((MessageKind::Beacon, n - 1, 0))?;
        }
        match n {
            3 => lane.push((MessageKind::Frame, 5, 1))?,
            5 => lane.push((MessageKind::Frame, 3, 1))?,
            n if n % 2 == 1 => lane.push((MessageKind::Frame, n, 1))?,
            _ => {}
        }
    }
    lane.push((MessageKind::End, 600, 0))?;
    Ok(lane)
}

// What comes of the two lanes of a plan.
fn two_lanes<R: Threads + Wait + Sync>(
    rt: &R,
    alloc: Global,
    plan: &RunPlan,
) -> Result<(Vec<Taken>, Vec<Taken>), Fail> {
    let (feed, mut ends) = Feed::make(alloc, plan, 2)?;
    let one = ends.pop().ok_or("an end")?;
    let zero = ends.pop().ok_or("another end")?;
    let lanes = through_threads(rt, alloc, feed, zero, one).ok_or("the whole lanes")?;
    Ok(lanes)
}

// What the lane of core 1 is over the same link.
const BEACONS: [Taken; 3] = [
    (MessageKind::Beacon, 256, 0),
    (MessageKind::Beacon, 512, 0),
    (MessageKind::End, 600, 0),
];

#[test]
fn whole_lanes_between_two_threads(rt: HostRuntime) -> Result<(), Fail> {
    let plan = plan_of(rt.alloc(), 600, 2, odd_frames(rt.alloc())?)?;
    let (of_zero, of_one) = two_lanes(&rt, rt.alloc(), &plan)?;
    let lane = odd_frames_with_beacons(rt.alloc())?;
    assert_eq!(rt; lane.len(), 304);
    assert_eq!(rt; of_zero.as_slice(), lane.as_slice());
    assert_eq!(rt; of_one.as_slice(), BEACONS.as_slice());
    Ok(())
}
