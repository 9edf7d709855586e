//! The messages of one core through its lane, from one thread to another.
use crate::measure::Frames;
use crate::rows::plan_of;
use crate::stop::Stop;
use scr_base::OutOfMemory;
use scr_feed::{Feed, Step};
use scr_lane::ReceiveEnd;
use scr_plan::RunPlan;
use scr_wire::{MessageKind, Packet, decode};
use std::alloc::Global;
use std::sync::Wait;
use std::sync::atomic::{AtomicBool, Ordering};
use std::thread;
use std::thread::{JoinHandle, Scope, Threads};

const CAPACITY: u32 = 1_024;

/// A checksum of the messages of so many frames, as they come out of the lane.
pub fn lane_received<R: Threads + Wait + Sync>(
    rt: &R,
    alloc: Global,
    frames: Frames,
) -> Result<u64, Stop> {
    let plan = plan_of(alloc, 1, frames.count)?;
    let received = received_of(rt, alloc, &plan);
    drop(plan);
    received
}

fn received_of<R: Threads + Wait + Sync>(
    rt: &R,
    alloc: Global,
    plan: &RunPlan,
) -> Result<u64, Stop> {
    let (mut feed, mut ends) = Feed::make(alloc, plan, CAPACITY)?;
    let received = received_between(rt, &mut feed, &mut ends);
    drop(feed);
    drop(ends);
    received
}

fn received_between<R: Threads + Wait + Sync>(
    rt: &R,
    feed: &mut Feed<'_>,
    ends: &mut Vec<ReceiveEnd>,
) -> Result<u64, Stop> {
    match ends.pop() {
        Some(end) => received_from(rt, feed, end),
        None => Ok(0),
    }
}

fn received_from<R: Threads + Wait + Sync>(
    rt: &R,
    feed: &mut Feed<'_>,
    end: ReceiveEnd,
) -> Result<u64, Stop> {
    let gave_up = AtomicBool::new(false);
    let gave_up = &gave_up;
    thread::scope(thread::scope_env(), rt, |scope| {
        let Some(receiving) = start_receiving(scope, rt, end, gave_up) else {
            return Err(Stop::NoThread);
        };
        feed_all(rt, feed, gave_up);
        receiving.join(rt).ok_or(Stop::GaveUp)
    })
}

// Starts the thread that takes the messages.
fn start_receiving<'s, E, R: Wait + Sync + 's>(
    scope: &Scope<'s, E>,
    rt: &'s R,
    mut end: ReceiveEnd,
    gave_up: &'s AtomicBool,
) -> Option<JoinHandle<Option<u64>>> {
    scope.spawn(move || receive_all(rt, &mut end, gave_up)).ok()
}

// Sends the whole lane, and tells where there was no memory for it.
fn feed_all<R: Wait>(rt: &R, feed: &mut Feed<'_>, gave_up: &AtomicBool) {
    if send_all(rt, feed).is_err() {
        gave_up.store(true, Ordering::SeqCst);
    }
}

fn send_all<R: Wait>(rt: &R, feed: &mut Feed<'_>) -> Result<(), OutOfMemory> {
    for _ in rt.forever() {
        match feed.step(rt)? {
            Step::Taken | Step::Sent { .. } => {}
            Step::Full { .. } => thread::yield_now(),
            Step::Done => return Ok(()),
        }
    }
    unreachable!()
}

// Takes all messages up to the end. None where the sender gave up.
fn receive_all<R: Wait>(rt: &R, end: &mut ReceiveEnd, gave_up: &AtomicBool) -> Option<u64> {
    let mut sum = 0u64;
    for _ in rt.forever() {
        if end.has_item() {
            let (more, is_end) = added(sum, &end.pop(rt));
            if is_end {
                return Some(more);
            }
            sum = more;
        } else if gave_up.load(Ordering::SeqCst) {
            return None;
        } else {
            thread::yield_now();
        }
    }
    unreachable!()
}

// The checksum with that of one message, and whether this is the end.
fn added(sum: u64, packet: &Packet) -> (u64, bool) {
    let Ok(message) = decode(packet.bytes()) else {
        return (sum, true);
    };
    let said = u64::from(message.count()) << 32 | u64::from(message.number());
    let is_end = message.kind() == MessageKind::End;
    (sum.wrapping_mul(31).wrapping_add(said), is_end)
}
