//! What takes the messages of two lanes to their ends.
use crate::{Feed, Step};
use scr_base::OutOfMemory;
use scr_lane::ReceiveEnd;
use scr_wire::{MessageKind, Packet, decode};
use std::alloc::Global;
use std::sync::Wait;
use std::thread;
use std::thread::Threads;

/// A message that was taken: what it is, its number and its count of rows.
pub type Taken = (MessageKind, u32, u16);

// What the packet says. Bytes that are no message are an end with the number 0.
fn said_by(packet: &Packet) -> Taken {
    match decode(packet.bytes()) {
        Ok(view) => (view.kind(), view.number(), view.count()),
        Err(_) => (MessageKind::End, 0, 0),
    }
}

// Takes the next message, where there is one. Tells whether it is the end.
fn take_next<R: Wait>(
    rt: &R,
    end: &mut ReceiveEnd,
    taken: &mut Vec<Taken>,
) -> Result<bool, OutOfMemory> {
    if !end.has_item() {
        thread::yield_now();
        return Ok(false);
    }
    let said = said_by(&end.pop(rt));
    taken.push(said)?;
    Ok(said.0 == MessageKind::End)
}

// All messages of two lanes, taken in turn.
fn take_all<R: Wait>(
    rt: &R,
    alloc: Global,
    mut zero: ReceiveEnd,
    mut one: ReceiveEnd,
) -> Result<(Vec<Taken>, Vec<Taken>), OutOfMemory> {
    let (mut of_zero, mut of_one) = (Vec::new(alloc), Vec::new(alloc));
    let (mut zero_ended, mut one_ended) = (false, false);
    for _ in rt.forever() {
        if zero_ended && one_ended {
            return Ok((of_zero, of_one));
        }
        zero_ended = zero_ended || take_next(rt, &mut zero, &mut of_zero)?;
        one_ended = one_ended || take_next(rt, &mut one, &mut of_one)?;
    }
    unreachable!()
}

// Sends the whole lanes.
fn send_all<R: Wait>(rt: &R, mut feed: Feed<'_>) -> Result<(), OutOfMemory> {
    for _ in rt.forever() {
        match feed.step(rt)? {
            Step::Taken | Step::Sent { .. } => {}
            Step::Full { .. } => thread::yield_now(),
            Step::Done => return Ok(()),
        }
    }
    unreachable!()
}

/// What comes of two lanes that another thread feeds. None where no thread can be started, or memory is wanting.
pub fn through_threads<R: Threads + Wait + Sync>(
    rt: &R,
    alloc: Global,
    feed: Feed<'_>,
    zero: ReceiveEnd,
    one: ReceiveEnd,
) -> Option<(Vec<Taken>, Vec<Taken>)> {
    thread::scope(thread::scope_env(), rt, |scope| {
        scope.spawn(move || send_all(rt, feed)).ok()?;
        take_all(rt, alloc, zero, one).ok()
    })
}
