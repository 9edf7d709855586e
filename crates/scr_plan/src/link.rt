ghost use Rattle.std.specs.Prelude.{◌≡◌, ◌≢◌, ◌≤◌, ◌<◌, ◌+◌, ℕ, [], All, length, slice_index_or, true, false, Some, None, IfSome, IfOk, ◌||◌, ◌==◌, if◌then◌else◌};
ghost use Rattle.scr_plan.specs.Limits.{most_packets, most_cores};
ghost use Rattle.scr_plan.specs.Delays.{greatest_delay};
ghost use Rattle.scr_plan.specs.Link.{Link, IsLink, loses, delays_by, fate_of, delay_in};
ghost use Rattle.scr_plan.specs.Plan.{Plan, HasParts};
ghost use Rattle.scr_plan.specs.Delivered.{delivers};
ghost use Rattle.scr_plan.specs.Overtaken.{IsAhead, comes_before};

use crate::carrying::core_of;
use crate::delays::Delays;
use crate::drops::Drops;
use scr_base::OutOfMemory;
use std::alloc::Global;
use std::marker::Model;

/// After how many numbers a beacon comes.
const BEACON: u32 = 256;

/// What a link does with a frame.
#[derive(Clone, Copy, Debug, PartialEq, Eq)]
pub enum Fate {
    /// It doesn't arrive.
    Lost,
    /// It arrives once, so many steps late.
    Once { delay: u32 },
    /// It arrives twice, so many steps late.
    Twice { delay: u32 },
}

impl Fate {
    // The fate of a frame that is lost or comes so many steps late, once or twice.
    fn of(lost: bool, twice: bool, delay: u32) -> Fate
        ensures { result ≡ (if lost then Fate.Lost else (if twice then Fate.Twice delay else Fate.Once delay)) }
    {
        if lost {
            Fate::Lost
        } else if twice {
            Fate::Twice { delay }
        } else {
            Fate::Once { delay }
        }
    }

    /// By how many steps the frame comes later, or 0.
    pub fn delay(self) -> u32
        ensures { result ≡ delay_in self }
    {
        match self {
            Fate::Lost => 0,
            Fate::Once { delay } | Fate::Twice { delay } => delay,
        }
    }
}

/// What lies between the sequencer and the cores: which frames get lost, come twice, and come later.
#[derive(Debug, Drop)]
pub struct Link {
    drops: Drops,
    repeats: Drops,
    delays: Delays,
    missing: Vec<u32>,
}

impl Model for Link {
    ghost Value = { Link };

    ghost view = { λ link. record {
      drops = link.drops;
      repeats = link.repeats;
      delays = link.delays;
      missing = link.missing.items;
    } };

    ghost invariant = { λ link. IsLink (record {
      drops = link.drops;
      repeats = link.repeats;
      delays = link.delays;
      missing = link.missing.items;
    }) };
}

// Marks a number, of those from 1 on.
fn mark(number: u32, marks: &mut [bool])
    requires { 1 ≤ number }
    ensures { (k : ℕ) → k < length marks.old → slice_index_or marks.new k false ≡ (slice_index_or marks.old k false || (number == k + 1)) }
{
    let place = number as usize - 1;
    if place < marks.len() {
        marks[place] = true;
    }
}

impl Link {
    /// The link with these lists. No frame is missing.
    pub fn make(alloc: Global, drops: Drops, repeats: Drops, delays: Delays) -> Self
        ensures link { result ≡ record { drops = drops; repeats = repeats; delays = delays; missing = [] } }
        ensures ranges { IsLink result }
    {
        Link {
            drops,
            repeats,
            delays,
            missing: Vec::new(alloc),
        }
    }

    /// The link that only drops frames.
    pub fn dropping(alloc: Global, drops: Drops) -> Self
        ensures link { result ≡ record { drops = drops; repeats = []; delays = []; missing = [] } }
        ensures ranges { IsLink result }
    {
        Link::make(alloc, drops, Drops::none(alloc), Delays::none(alloc))
    }

    /// The link on which just these frames are missing, in growing order.
    pub fn lost(alloc: Global, numbers: Vec<u32>) -> Self
        requires from_one { (i d : ℕ) → i < length numbers.items → 1 ≤ slice_index_or numbers.items i d }
        requires growing { (i j d : ℕ) → i < j → j < length numbers.items → slice_index_or numbers.items i d < slice_index_or numbers.items j d }
        ensures link { result ≡ record { drops = []; repeats = []; delays = []; missing = numbers.items } }
        ensures ranges { IsLink result }
    {
        Link {
            drops: Drops::none(alloc),
            repeats: Drops::none(alloc),
            delays: Delays::none(alloc),
            missing: numbers,
        }
    }

    // Whether the frame doesn't arrive.
    fn loses(&self, n: u32) -> bool
        ensures answer { result ≡ loses self.now n }
        ensures ranges { IsLink self.now }
    {
        self.drops.has(n) || self.missing.binary_search(&n).is_ok()
    }

    // By how many steps frame n comes late, where it arrives.
    fn lateness(&self, n: u32) -> Option<u32>
        ensures answer { result ≡ (if loses self.now n then None else Some (delays_by self.now n)) }
        ensures near { IfSome result (λ delay. delay ≤ greatest_delay) }
        ensures ranges { IsLink self.now }
    {
        if self.loses(n) {
            None
        } else {
            Some(self.delays.of(n))
        }
    }

    /// What becomes of frame n. Each list is asked once.
    pub fn fate(&self, n: u32) -> Fate
        ensures answer { result ≡ fate_of self.now n }
        ensures near { delay_in result ≤ greatest_delay }
        ensures ranges { IsLink self.now }
    {
        if self.loses(n) {
            return Fate::Lost;
        }
        let delay = self.delays.of(n);
        if self.repeats.has(n) {
            Fate::Twice { delay }
        } else {
            Fate::Once { delay }
        }
    }

    // Of the frames 1 to `count`, in order, whether each doesn't arrive.
    fn losses(&self, alloc: Global, count: usize) -> Result<Vec<bool>, OutOfMemory>
        ensures count { IfOk result (λ losses. length losses.items ≡ count) }
        ensures losses { IfOk result (λ losses. (k : ℕ) → k < count → slice_index_or losses.items k false ≡ loses self.now (k + 1)) }
    {
        let mut losses = self.drops.marks(alloc, count)?;
        for n in &self.missing {
            mark(*n, &mut losses);
        }
        Ok(losses)
    }

    /// What becomes of the frames 1 to `count`, in order. Each list is gone through once, and costs as [`Drops::marks`] says.
    pub fn fates(&self, alloc: Global, count: usize) -> Result<Vec<Fate>, OutOfMemory>
        ensures count { IfOk result (λ fates. length fates.items ≡ count) }
        ensures fates { IfOk result (λ fates. (k : ℕ) (d : Fate) → k < count → slice_index_or fates.items k d ≡ fate_of self.now (k + 1)) }
        ensures near { IfOk result (λ fates. All (λ fate. delay_in fate ≤ greatest_delay) fates.items) }
    {
        let losses = self.losses(alloc, count)?;
        let repeats = self.repeats.marks(alloc, count)?;
        let steps = self.delays.steps(alloc, count)?;
        let mut fates = Vec::with_capacity(alloc, count)?;
        for i in 0..count {
            fates.push(Fate::of(losses[i], repeats[i], steps[i]))?;
        }
        Ok(fates)
    }

    /// Whether frame n of t is delivered to its core, one of k: it arrives, and before any beacon and any frame of its
    /// core's lane that has a number above its own. A frame without delay that arrives always is.
    pub fn delivered(&self, k: u32, t: u32, n: u32) -> bool
        requires a_frame { 1 ≤ n }
        requires of_the_run { n ≤ t }
        requires few_frames { t ≤ most_packets }
        requires a_core { 1 ≤ k }
        requires few_cores { k ≤ most_cores }
        ensures { (plan : Plan) → HasParts plan self.now k t → result ≡ delivers plan n }
    {
        match self.lateness(n) {
            None => false,
            Some(delay) => delay == 0 || !self.is_overtaken(k, t, n, n + delay),
        }
    }

    // Whether a beacon or a later frame comes to the core of frame n before it, which comes at this step.
    fn is_overtaken(&self, k: u32, t: u32, n: u32, step: u32) -> bool
        requires a_frame { 1 ≤ n }
        requires of_the_run { n ≤ t }
        requires few_frames { t ≤ most_packets }
        requires a_core { 1 ≤ k }
        requires later { n < step }
        requires near { step ≤ n + greatest_delay }
        ensures overtaken { (plan : Plan) → HasParts plan self.now k t → result ≡ true → IsAhead plan n step → ⊥ }
        ensures in_time { (plan : Plan) → HasParts plan self.now k t → result ≢ true → IsAhead plan n step }
    {
        let last = step.min(t);
        if (last - 1) / BEACON * BEACON >= n {
            return true;
        }
        let core = core_of(n, k);
        for frame in n + 1..=last {
            if core_of(frame, k) == core && self.comes_before(frame, step) {
                return true;
            }
        }
        false
    }

    // Whether a frame comes before the late ones of this step.
    fn comes_before(&self, frame: u32, step: u32) -> bool
        requires { frame ≤ most_packets }
        ensures answer { result ≡ comes_before self.now frame step }
        ensures ranges { IsLink self.now }
    {
        match self.lateness(frame) {
            None => false,
            Some(delay) => frame + delay < step || (frame == step && delay == 0),
        }
    }
}
