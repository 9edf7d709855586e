//! The lane of a core: the messages that a plan says, each as one packet.
ghost use Rattle.std.specs.Prelude.{◌≤◌, ◌<◌, ◌≡◌, ◌^◌, IfOk};
ghost use Rattle.scr_lane.specs.Messages.{route, message_count};
ghost use Rattle.scr_lane.specs.Ends.{most_waiting, begun};

use crate::course::Course;
use crate::ends::make_ends;
use crate::receiver::Receiver;
use crate::sender::Sender;
use scr_base::OutOfMemory;
use scr_plan::RunPlan;
use scr_wire::Packet;
use std::alloc::Global;
use std::marker::Model;
use std::snapshot::Snapshot;

/// Whose lane it is. It keeps nothing of the plan.
#[derive(Drop)]
pub struct LaneOf {
    plan: Snapshot<RunPlan>,
    core: u32,
}

impl Model for LaneOf {
    ghost use Rattle.scr_lane.specs.Messages.{Route};

    ghost Value = { Route };

    ghost view = { λ lane. record { plan = lane.plan.value; core = lane.core } };
}

impl LaneOf {
    // A plan has few rows, so a lane has few messages.
    fn of(plan: &RunPlan, core: u32) -> LaneOf
        ensures lane { result ≡ route plan.now core }
        ensures few { message_count result < 2 ^ 63 }
    {
        let _rows = plan.rows();
        LaneOf {
            plan: Snapshot::of(plan),
            core,
        }
    }
}

/// A lane carries the messages of a plan for one core.
#[derive(Drop)]
pub struct Messages;

impl Course<Packet, LaneOf> for Messages {
    ghost use Rattle.scr_lane.specs.Messages.{message_count, no_route, SpellsMessage};
    ghost use Rattle.scr_lane.specs.Messages.{stands_within};

    ghost total = { message_count };

    ghost fits = { SpellsMessage };

    ghost nothing = { no_route };

    ghost within = { stands_within };
}

/// The end of a lane that the sequencer's packets go in by.
pub type SendEnd = Sender<Packet, LaneOf, Messages>;

/// The end of a lane that a core takes them by.
pub type ReceiveEnd = Receiver<Packet, LaneOf, Messages>;

/// The lane of a core.
pub struct Lane;

impl Lane {
    /// Both ends of the lane of this core, with room for so many packets. No call after this one takes memory.
    pub fn make(
        alloc: Global,
        plan: &RunPlan,
        core: u32,
        capacity: u32,
    ) -> Result<(SendEnd, ReceiveEnd), OutOfMemory>
        requires a_core { core < plan.now.cores }
        requires some_room { 1 ≤ capacity }
        requires little_room { capacity ≤ most_waiting }
        ensures one_lane { IfOk result (λ ends. ends.0.lane ≡ ends.1.lane) }
        ensures send { IfOk result (λ ends. ends.0 ≡ begun ends.0.lane (route plan.now core) capacity) }
        ensures receive { IfOk result (λ ends. ends.1 ≡ begun ends.1.lane (route plan.now core) capacity) }
    {
        let ends = make_ends(alloc, &LaneOf::of(plan, core), capacity)?;
        Ok(ends)
    }
}
