//! Packets go home: what a core needs no more goes back to the thread that took its memory, which gives it free.
ghost use Rattle.std.specs.Prelude.{◌≡◌, IfOk};

use rtrb::{Consumer, Producer, RingBuffer};
use scr_base::OutOfMemory;
use scr_plan::Given;
use scr_replica::Outlet;
use scr_wire::Packet;
use std::alloc::Global;
use std::sync::Wait;

// How many packets may be under way to their home: as many as may wait in a lane.
const CAPACITY: usize = 1_024;

/// An outlet, and the way home of the packets that its core needs no more.
#[derive(Drop)]
pub struct Returning<O: Drop> {
    pub outlet: O,
    // None where they are dropped at once.
    back: Option<Producer<Packet>>,
}

impl<O: Drop> Returning<O> {
    /// An outlet whose core drops its packets itself.
    pub fn nowhere(outlet: O) -> Self
        ensures { result.outlet ≡ outlet }
    {
        Returning { outlet, back: None }
    }

    /// An outlet, and where the packets come that its core needs no more.
    pub fn home(alloc: Global, outlet: O) -> Result<(Self, Consumer<Packet>), OutOfMemory>
        ensures { IfOk result (λ ways. ways.0.outlet ≡ outlet) }
    {
        let (back, spent) = RingBuffer::new(alloc, CAPACITY)?;
        let back = Some(back);
        Ok((Returning { outlet, back }, spent))
    }
}

impl<O: Outlet + Drop> Outlet for Returning<O> {
    ghost Awaits = { λ it. O.Awaits it.outlet };

    fn give<R: Wait>(&mut self, rt: &R, given: Given) -> Result<bool, OutOfMemory> {
        self.outlet.give(rt, given)
    }

    fn take_back(&mut self, spent: Packet) {
        if let Some(back) = &mut self.back {
            // Where the ring is full the packet is dropped here.
            let _full = back.push(spent);
        }
    }
}

/// Takes the packets that have come home by these ends, and drops them.
pub fn take_home(spent: &mut [Consumer<Packet>]) {
    for home in spent {
        for _ in 0..CAPACITY {
            if home.pop().is_err() {
                break;
            }
        }
    }
}
