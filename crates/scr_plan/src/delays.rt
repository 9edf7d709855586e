ghost use Rattle.std.specs.Prelude.{◌≡◌, ◌≤◌, ◌<◌, ◌+◌, ℕ, List, [], length, slice_index_or, MatchResult, IfOk, ◌==◌, if◌then◌else◌};
ghost use Rattle.scr_plan.specs.Delays.{IsDelayList, delay_of, greatest_delay};
ghost use Rattle.scr_plan.specs.DelaySpelling.{SpellsDelays, DelaysRefusedBy};
ghost use Rattle.scr_plan.specs.declared.delays.FrameDelay.{FrameDelay};

use crate::reading_delays::{DelayError, read_delays};
use scr_base::OutOfMemory;
use std::alloc::Global;
use std::marker::Model;

/// A frame that comes later.
#[derive(Clone, Copy, Debug, PartialEq, Eq)]
pub struct FrameDelay {
    /// Its number.
    pub frame: u32,
    /// By how many steps.
    pub steps: u32,
}

impl FrameDelay {
    // Puts the steps down at the place of the frame, of those from frame 1 on.
    fn put_down(&self, steps: &mut [u32])
        requires { 1 ≤ self.now.frame }
        ensures { (k : ℕ) → k < length steps.old → slice_index_or steps.new k 0 ≡ (if self.now.frame == k + 1 then self.now.steps else slice_index_or steps.old k 0) }
    {
        let place = self.frame as usize - 1;
        if place < steps.len() {
            steps[place] = self.steps;
        }
    }
}

/// The frames that come later than in their turn.
#[derive(Debug, Drop)]
pub struct Delays {
    delays: Vec<FrameDelay>,
}

impl Model for Delays {
    ghost Value = { List FrameDelay };

    ghost view = { λ it. it.delays.items };

    ghost invariant = { λ it. IsDelayList it.delays.items };
}

impl Delays {
    /// No frame comes later.
    pub fn none(alloc: Global) -> Self
        ensures { result ≡ [] }
    {
        Delays {
            delays: Vec::new(alloc),
        }
    }

    /// The list that a text spells: it is empty, or pieces `n:d` parted by commas, by which frame n comes d steps late.
    /// Numbers are decimal, of any length and with any zeros in front.
    pub fn read(alloc: Global, text: &[u8]) -> Result<Self, DelayError>
        ensures { MatchResult result (λ delays. SpellsDelays text.now delays) (λ error. DelaysRefusedBy text.now error) }
    {
        let delays = read_delays(alloc, text)?;
        Ok(Delays { delays })
    }

    /// By how many steps this frame comes later, or 0.
    pub fn of(&self, n: u32) -> u32
        ensures answer { result ≡ delay_of self.now n }
        ensures near { result ≤ greatest_delay }
        ensures ranges { IsDelayList self.now }
    {
        for delay in &self.delays {
            if delay.frame == n {
                return delay.steps;
            }
        }
        0
    }

    /// By how many steps each of the frames 1 to `count` comes later, in order. The list is gone through once.
    pub fn steps(&self, alloc: Global, count: usize) -> Result<Vec<u32>, OutOfMemory>
        ensures count { IfOk result (λ steps. length steps.items ≡ count) }
        ensures steps { IfOk result (λ steps. (k : ℕ) → k < count → slice_index_or steps.items k 0 ≡ delay_of self.now (k + 1)) }
    {
        let mut steps = vec![in alloc; 0; count]?;
        for delay in &self.delays {
            delay.put_down(&mut steps);
        }
        Ok(steps)
    }
}
