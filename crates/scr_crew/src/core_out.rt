ghost use Rattle.std.specs.Prelude.{◌≡◌, length, IfOk, IfErr};
ghost use Rattle.scr_replica.specs.OneCore.{course, entries};
ghost use Rattle.scr_replica.specs.Replicas.{Begin};
ghost use Rattle.scr_replica.specs.Stops.{StopTells};
ghost use Rattle.scr_plan.specs.Counts.{plan_counts};

use crate::returning::Returning;
use crate::verdict_lane::VerdictSend;
use scr_lane::ReceiveEnd;
use scr_log::{CorePass, Logs};
use scr_plan::CoreCounts;
use scr_program::Program;
use scr_replica::{CoreStop, Gate, run_core_into};
use std::alloc::Global;
use std::sync::Wait;

/// What one core makes of a run whose verdicts leave by a lane.
#[derive(Drop)]
pub struct CoreTotals<P: Program> {
    /// The number of the core, from 0.
    pub core: u32,
    /// What it did.
    pub counts: CoreCounts,
    /// The entries of its last state.
    pub flows: u64,
    /// The end of its verdict lane, by which all its verdicts went.
    pub verdicts: VerdictSend<P>,
}

/// As [`run_core_out`], with a way home for the packets that the core needs no more.
pub fn run_core_home<P: Program, G: Gate, R: Wait>(
    rt: &R,
    alloc: Global,
    settings: &P::Settings,
    lane: ReceiveEnd,
    pass: CorePass,
    logs: &Logs,
    gate: &G,
    out: Returning<VerdictSend<P>>,
) -> Result<CoreTotals<P>, CoreStop>
    requires of_these { pass.logs ≡ logs.now }
    requires begin { Begin lane pass }
    requires course { out.outlet.about ≡ course (P.verdict_after settings.now) logs.now.plan pass.core }
    requires unsent { out.outlet.count ≡ 0 }
    ensures core { IfOk result (λ it. it.core ≡ pass.core) }
    ensures counts { IfOk result (λ it. it.counts ≡ plan_counts logs.now.plan pass.core) }
    ensures flows { IfOk result (λ it. it.flows ≡ entries (P.count_after settings.now) logs.now.plan) }
    ensures same_course { IfOk result (λ it. it.verdicts.about ≡ out.outlet.about) }
    ensures all_sent { IfOk result (λ it. it.verdicts.count ≡ length out.outlet.about) }
    ensures stop { IfErr result (StopTells pass) }
{
    let mut out = out;
    let tally = run_core_into::<P, G, Returning<VerdictSend<P>>, R>(
        rt, alloc, settings, lane, pass, logs, gate, &mut out,
    )?;
    Ok(CoreTotals {
        core: tally.core,
        counts: tally.counts,
        flows: tally.flows,
        verdicts: out.outlet,
    })
}

/// A core in the calling thread, from its begin to its end, which sends its verdicts by a lane as it gives them. Where the lane
/// is full it tries again until there is room, or the run was halted.
pub fn run_core_out<P: Program, G: Gate, R: Wait>(
    rt: &R,
    alloc: Global,
    settings: &P::Settings,
    lane: ReceiveEnd,
    pass: CorePass,
    logs: &Logs,
    gate: &G,
    verdicts: VerdictSend<P>,
) -> Result<CoreTotals<P>, CoreStop>
    requires of_these { pass.logs ≡ logs.now }
    requires begin { Begin lane pass }
    requires course { verdicts.about ≡ course (P.verdict_after settings.now) logs.now.plan pass.core }
    requires unsent { verdicts.count ≡ 0 }
    ensures core { IfOk result (λ it. it.core ≡ pass.core) }
    ensures counts { IfOk result (λ it. it.counts ≡ plan_counts logs.now.plan pass.core) }
    ensures flows { IfOk result (λ it. it.flows ≡ entries (P.count_after settings.now) logs.now.plan) }
    ensures same_course { IfOk result (λ it. it.verdicts.about ≡ verdicts.about) }
    ensures all_sent { IfOk result (λ it. it.verdicts.count ≡ length verdicts.about) }
    ensures stop { IfErr result (StopTells pass) }
{
    let out = Returning::nowhere(verdicts);
    run_core_home::<P, G, R>(rt, alloc, settings, lane, pass, logs, gate, out)
}
