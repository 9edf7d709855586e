ghost use Rattle.std.specs.Prelude.{◌≡◌, ◌≤◌, ℕ, List, map, length, IfOk, IfSome};
ghost use Rattle.std.specs.List.{range_with_len};
ghost use Rattle.scr_base.specs.declared.row.Row.{Row};
ghost use Rattle.scr_plan.specs.Counts.{plan_counts};
ghost use Rattle.scr_plan.specs.Plan.{Plan};
ghost use Rattle.scr_replica.specs.OneCore.{entries};
ghost use Rattle.scr_crew.specs.Cores.{OfCores};
ghost use Rattle.scr_crew.specs.Threads.{IsThread};
ghost use Rattle.scr_crew.specs.Answers.{IsAnswer};

use crate::core_out::CoreTotals;
use crate::work::Started;
use scr_base::OutOfMemory;
use scr_plan::{CoreCounts, RunPlan};
use scr_program::Program;
use scr_replica::{CoreCause, CoreStop};
use std::alloc::Global;
use std::thread::{Threads, join_promised};

/// What the cores of a run make of it, beside their verdicts.
#[derive(Debug, Drop)]
pub struct Tallies {
    /// What each core did, from core 0 on.
    pub cores: Vec<CoreCounts>,
    /// The entries of the last state, on which all cores agree.
    pub flows: u64,
}

/// Joins the threads of the first cores. At `Err` they run to their end all the same.
pub fn join_all<P: Program, R: Threads>(
    rt: &R,
    settings: &P::Settings,
    plan: &RunPlan,
    started: Vec<Started<P>>,
) -> Result<Vec<Result<CoreTotals<P>, CoreStop>>, OutOfMemory>
    requires { OfCores (IsThread settings.now plan.now) (length started.items) started.items }
    ensures { IfOk result (λ answers. OfCores (IsAnswer (P.count_after settings.now) plan.now) (length started.items) answers.items) }
{
    Ok(join_promised(rt, started)?)
}

/// What the cores made of the run. None where one of them was halted, and none had no memory.
pub fn tallies_of<P: Program>(
    alloc: Global,
    answers: Vec<Result<CoreTotals<P>, CoreStop>>,
) -> Result<Option<Tallies>, OutOfMemory>
    ensures { (count_after : List Row → ℕ) (plan : Plan) → 1 ≤ plan.cores → OfCores (IsAnswer count_after plan) plan.cores answers.items
        → IfOk result (λ all. IfSome all (λ it. (it.cores.items ≡ map (plan_counts plan) (range_with_len 0 plan.cores)) × (it.flows ≡ entries count_after plan))) }
{
    let mut cores = Vec::with_capacity(alloc, answers.len())?;
    let mut flows = 0;
    let mut halted = false;
    for answer in answers {
        match answer {
            Ok(totals) => {
                flows = totals.flows;
                cores.push(totals.counts)?;
            }
            Err(stop) => match stop.cause {
                CoreCause::Halted => halted = true,
                CoreCause::OutOfMemory(error) => return Err(error),
            },
        }
    }
    if halted {
        return Ok(None);
    }
    Ok(Some(Tallies { cores, flows }))
}
