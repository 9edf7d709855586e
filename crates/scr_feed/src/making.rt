ghost use Rattle.std.specs.Prelude.{◌≡◌, ◌≤◌, IfOk};
ghost use Rattle.scr_lane.specs.Ends.{most_waiting};
ghost use Rattle.scr_feed.specs.Made.{AreLanes};

use scr_base::OutOfMemory;
use scr_lane::{Lane, ReceiveEnd, SendEnd};
use scr_plan::RunPlan;
use std::alloc::Global;

/// The ends of new lanes, one for each core of a plan.
pub fn make_lanes(
    alloc: Global,
    plan: &RunPlan,
    capacity: u32,
) -> Result<(Vec<SendEnd>, Vec<ReceiveEnd>), OutOfMemory>
    requires some_room { 1 ≤ capacity }
    requires little_room { capacity ≤ most_waiting }
    ensures { IfOk result (λ ends. AreLanes plan.now capacity plan.now.cores ends.0.items ends.1.items) }
{
    let cores = plan.cores();
    let mut sends = Vec::with_capacity(alloc, cores as usize)?;
    let mut receives = Vec::with_capacity(alloc, cores as usize)?;
    for core in 0..cores {
        let (send, receive) = Lane::make(alloc, plan, core, capacity)?;
        sends.push(send)?;
        receives.push(receive)?;
    }
    Ok((sends, receives))
}
