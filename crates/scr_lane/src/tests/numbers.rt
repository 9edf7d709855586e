//! A lane of numbers, each of which is its own place.
ghost use Rattle.std.specs.Prelude.{◌≡◌, ◌≤◌, ◌<◌};

use crate::{Course, Receiver, Sender, make_ends};
use scr_base::OutOfMemory;
use std::alloc::Global;
use std::sync::Wait;
use std::thread;
use std::thread::Threads;

/// How many numbers a lane has.
pub const ALL: u32 = 600;

/// The numbers below a bound, in order.
#[derive(Drop)]
pub struct Numbers;

impl Course<u32, u32> for Numbers {
    ghost use Rattle.std.specs.Prelude.{◌≡◌, ◌<◌};

    ghost total = { λ all. all };

    ghost fits = { λ all place number. (number ≡ place) × (place < all) };

    ghost nothing = { 0 };

    ghost within = { λ all place number fits. fits.1 };
}

/// The end that takes them.
pub type Taker = Receiver<u32, u32, Numbers>;

/// What sends them.
#[derive(Drop)]
pub struct Counting {
    end: Sender<u32, u32, Numbers>,
    next: u32,
    ghost all: { end.about ≡ 600 },
    ghost place: { end.count ≡ next },
}

impl Counting {
    /// A new lane of numbers, and the end that takes them.
    pub fn make(alloc: Global, capacity: u32) -> Result<(Counting, Taker), OutOfMemory>
        requires { 1 ≤ capacity }
    {
        let (end, taker) = make_ends(alloc, &ALL, capacity)?;
        Ok((Counting { end, next: 0 }, taker))
    }

    /// Sends the next number, where there is one and the lane has room.
    pub fn send<R: Wait>(&mut self, rt: &R) -> bool {
        if self.next >= ALL || !self.end.has_room() {
            return false;
        }
        self.end.push(rt, self.next);
        self.next += 1;
        true
    }

    // Sends all numbers.
    fn send_all<R: Wait>(mut self, rt: &R) {
        for _ in rt.forever() {
            if !self.send(rt) {
                if self.next >= ALL {
                    return;
                }
                thread::yield_now();
            }
        }
    }
}

/// The next number, where one was sent.
pub fn taken<R: Wait>(rt: &R, taker: &mut Taker) -> Option<u32> {
    if taker.has_item() {
        Some(taker.pop(rt))
    } else {
        None
    }
}

// Takes all numbers, and tells whether each is its own place.
fn take_all<R: Wait>(rt: &R, mut taker: Taker) -> bool {
    let mut place = 0;
    for _ in rt.forever() {
        if place >= ALL {
            return true;
        }
        match taken(rt, &mut taker) {
            Some(number) if number == place => place += 1,
            Some(_) => return false,
            None => thread::yield_now(),
        }
    }
    unreachable!()
}

/// Whether all numbers pass from one thread to another. None where no thread can be started.
pub fn through_threads<R: Threads + Wait + Sync>(
    rt: &R,
    counting: Counting,
    taker: Taker,
) -> Option<bool> {
    thread::scope(thread::scope_env(), rt, |scope| {
        scope.spawn(move || counting.send_all(rt)).ok()?;
        Some(take_all(rt, taker))
    })
}
