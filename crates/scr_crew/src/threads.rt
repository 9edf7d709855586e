ghost use Rattle.std.specs.Prelude.{◌≡◌, ◌≤◌, map, IfOk};
ghost use Rattle.std.specs.List.{range_with_len};
ghost use Rattle.scr_plan.specs.Counts.{plan_counts};
ghost use Rattle.scr_log.specs.Layout.{most_slots};
ghost use Rattle.scr_replica.specs.OneCore.{verdicts, entries};

use crate::crew::run_taken;
use crate::joining::Tallies;
use crate::run_stop::RunStop;
use scr_base::OutOfMemory;
use scr_plan::{Given, RunPlan};
use scr_program::Program;
use scr_replica::{Gate, Gathered};
use std::alloc::Global;
use std::sync::Wait;
use std::thread::Threads;

/// A run of all cores, each in a thread of its own, with so many slots in the log of each core. The caller feeds their
/// lanes. Where a thread can't be started, or there is one core alone, the run goes by phases on the calling thread.
pub fn run_threads<P: Program, G: Gate + Sync, R: Threads + Wait + Sync>(
    rt: &R,
    alloc: Global,
    settings: &P::Settings,
    plan: &RunPlan,
    ring: u32,
    gate: &G,
) -> Result<Gathered, OutOfMemory>
    requires some_slots { 1 ≤ ring }
    requires few_slots { ring ≤ most_slots }
    ensures verdicts { IfOk result (λ it. it.verdicts ≡ verdicts (P.verdict_after settings.now) plan.now) }
    ensures cores { IfOk result (λ it. it.cores ≡ map (plan_counts plan.now) (range_with_len 0 plan.now.cores)) }
    ensures flows { IfOk result (λ it. it.flows ≡ entries (P.count_after settings.now) plan.now) }
{
    match run_taken::<P, G, Vec<Given>, (), R>(
        rt,
        alloc,
        settings,
        plan,
        ring,
        gate,
        Vec::new(alloc),
        &mut (),
    ) {
        Ok((Tallies { cores, flows }, verdicts)) => Ok(Gathered {
            verdicts,
            cores,
            flows,
        }),
        Err(RunStop::OutOfMemory(want)) => Err(want),
        Err(RunStop::WriteFault) => unreachable!(),
    }
}
