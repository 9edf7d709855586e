ghost use Rattle.std.specs.Prelude.{◌≡◌, ◌+◌, ◌-◌, ◌≤◌, ◌<◌, max};
ghost use Rattle.scr_plan.specs.Limits.{most_packets, most_cores, longest_history};
ghost use Rattle.scr_plan.specs.Plan.{Plan, HasParts};
ghost use Rattle.scr_plan.specs.Kept.{first_carried};
ghost use Rattle.scr_plan.specs.Counts.{plan_counts};

use crate::carrying::{carried_from, core_of};
use crate::link::Link;

/// What one core does in a run.
#[derive(Clone, Copy, Debug, PartialEq, Eq)]
pub struct CoreCounts {
    /// The frames that are delivered to it.
    pub delivered: u32,
    /// The packets that some of these carries.
    pub carried: u32,
    /// The packets that only frames of other cores carry.
    pub recovered: u32,
    /// The packets that no delivered frame carries.
    pub skipped: u32,
}

// Frames so far, and the packets that they carry, each counted once.
#[derive(Clone, Copy)]
struct Tally {
    frames: u32,
    packets: u32,
    last: u32,
}

impl Tally {
    // Counts a frame behind the last one: it carries what the last one didn't, as far back as the history goes.
    fn add(&mut self, frame: u32, h: u32)
        requires behind { self.old.last < frame }
        requires few_frames { self.old.frames ≤ self.old.last }
        requires few_packets { self.old.packets ≤ self.old.last }
        ensures frames { self.new.frames ≡ self.old.frames + 1 }
        ensures packets { self.new.packets
            ≡ self.old.packets + (frame - max self.old.last (first_carried h frame - 1)) }
        ensures last { self.new.last ≡ frame }
    {
        let known = self.last.max(carried_from(frame, h) - 1);
        self.frames += 1;
        self.packets += frame - known;
        self.last = frame;
    }
}

/// The counts of a core among k cores, over t frames, at a history of h packets.
pub fn counts(link: &Link, k: u32, h: u32, t: u32, core: u32) -> CoreCounts
    requires a_core { 1 ≤ k }
    requires few_cores { k ≤ most_cores }
    requires short_history { h ≤ longest_history }
    requires few_frames { t ≤ most_packets }
    requires of_the_cores { core < k }
    ensures { (plan : Plan) → HasParts plan link.now k t → plan.history ≡ h → result ≡ plan_counts plan core }
{
    let none = Tally {
        frames: 0,
        packets: 0,
        last: 0,
    };
    let (mut own, mut all) = (none, none);
    for frame in 1..t + 1 {
        if !link.delivered(k, t, frame) {
            continue;
        }
        all.add(frame, h);
        if core_of(frame, k) == core {
            own.add(frame, h);
        }
    }
    CoreCounts {
        delivered: own.frames,
        carried: own.packets,
        recovered: all.packets - own.packets,
        skipped: t - all.packets,
    }
}
