ghost use Rattle.std.specs.Prelude.{◌≡◌, ◌≤◌, map, length, IfOk};
ghost use Rattle.std.specs.List.{range_with_len};
ghost use Rattle.scr_plan.specs.Counts.{plan_counts};
ghost use Rattle.scr_replica.specs.OneCore.{verdicts, entries};
ghost use Rattle.scr_replica.specs.Told.{AllFinal};
ghost use Rattle.scr_replica.specs.Answers.{core_answers};

use crate::filling::filled;
use crate::gathered::{CoreResult, Gathered};
use crate::listener::Listener;
use crate::merging::gather;
use crate::replay::replay;
use scr_base::OutOfMemory;
use scr_plan::RunPlan;
use scr_program::Program;
use std::alloc::Global;

// What each core makes of the run.
fn results_of<P: Program>(
    alloc: Global,
    settings: &P::Settings,
    plan: &RunPlan,
    cores: &[Listener],
) -> Result<Vec<CoreResult>, OutOfMemory>
    requires { AllFinal plan.now cores.now }
    ensures answers { IfOk result (λ results. results.items ≡ core_answers (P.verdict_after settings.now) (P.count_after settings.now) plan.now) }
    ensures count { IfOk result (λ results. length results.items ≡ plan.now.cores) }
    ensures some { IfOk result (λ results. 1 ≤ length results.items) }
{
    let mut results = Vec::new(alloc);
    for core in 0..plan.cores() {
        results.push(replay::<P>(alloc, settings, plan, cores, core)?)?;
    }
    Ok(results)
}

/// A run of all cores on the calling thread: first each is told its lane, and then each takes the packets in order.
pub fn run_phases<P: Program>(
    alloc: Global,
    settings: &P::Settings,
    plan: &RunPlan,
) -> Result<Gathered, OutOfMemory>
    ensures verdicts { IfOk result (λ it. it.verdicts ≡ verdicts (P.verdict_after settings.now) plan.now) }
    ensures cores { IfOk result (λ it. it.cores ≡ map (plan_counts plan.now) (range_with_len 0 plan.now.cores)) }
    ensures flows { IfOk result (λ it. it.flows ≡ entries (P.count_after settings.now) plan.now) }
{
    let cores = filled(alloc, plan)?;
    let results = results_of::<P>(alloc, settings, plan, &cores)?;
    gather(alloc, plan, &results)
}
