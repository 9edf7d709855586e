//! A gate at which the cores of a run wait for each other.
use scr_log::CorePass;
use scr_replica::Gate;
use std::sync::Wait;
use std::sync::atomic::{AtomicBool, AtomicU64, Ordering};
use std::thread;

// How often a core looks for the others before it gives up.
const TURNS: u32 = 10_000_000;

// How many went through one side of the gate: core 0, core 1, and any other.
#[derive(Drop)]
struct Side {
    zero: AtomicU64,
    one: AtomicU64,
    others: AtomicU64,
}

impl Side {
    fn new() -> Side {
        Side {
            zero: AtomicU64::new(0),
            one: AtomicU64::new(0),
            others: AtomicU64::new(0),
        }
    }

    fn count(&self, core: u32) {
        let counter = match core {
            0 => &self.zero,
            1 => &self.one,
            _ => &self.others,
        };
        counter.fetch_add(1, Ordering::SeqCst);
    }

    fn counts(&self) -> [u64; 3] {
        [
            self.zero.load(Ordering::SeqCst),
            self.one.load(Ordering::SeqCst),
            self.others.load(Ordering::SeqCst),
        ]
    }

    // Waits until cores 0 and 1 have come, and tells whether they have.
    fn waits_for_both(&self) -> bool {
        for _ in 0..TURNS {
            let [zero, one, _] = self.counts();
            if zero >= 1 && one >= 1 {
                return true;
            }
            thread::yield_now();
        }
        false
    }
}

/// A gate of two cores. On either side each waits until both have come.
#[derive(Drop)]
pub struct Meeting {
    entered: Side,
    left: Side,
    missed: AtomicBool,
    published: AtomicU64,
}

impl Meeting {
    pub fn new() -> Meeting {
        Meeting {
            entered: Side::new(),
            left: Side::new(),
            missed: AtomicBool::new(false),
            published: AtomicU64::new(0),
        }
    }

    fn wait_at(&self, side: &Side, core: u32) {
        side.count(core);
        if !side.waits_for_both() {
            self.missed.store(true, Ordering::SeqCst);
        }
    }

    /// Whether each core that came has met the other.
    pub fn all_met(&self) -> bool {
        !self.missed.load(Ordering::SeqCst)
    }

    /// How often core 0, core 1 and the others entered.
    pub fn entered(&self) -> [u64; 3] {
        self.entered.counts()
    }

    /// How often they left.
    pub fn left(&self) -> [u64; 3] {
        self.left.counts()
    }

    /// How many numbers the passes had published that left.
    pub fn published(&self) -> u64 {
        self.published.load(Ordering::SeqCst)
    }
}

impl Gate for Meeting {
    fn enter<R: Wait>(&self, _rt: &R, pass: &CorePass) {
        self.wait_at(&self.entered, pass.core());
    }

    fn leave<R: Wait>(&self, _rt: &R, pass: &CorePass) {
        self.wait_at(&self.left, pass.core());
        self.published
            .fetch_add(u64::from(pass.published()), Ordering::SeqCst);
    }
}
