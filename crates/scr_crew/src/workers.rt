ghost use Rattle.std.specs.Prelude.{◌≡◌, ◌+◌, ◌≤◌, length, IfOk, IfSome};
ghost use Rattle.scr_plan.specs.Limits.{most_cores};
ghost use Rattle.scr_crew.specs.Cores.{OfCores};
ghost use Rattle.scr_crew.specs.Verdicts.{IsNewVerdictEnd};
ghost use Rattle.scr_crew.specs.Workers.{IsNewEnd, IsWorker};

use crate::returning::Returning;
use crate::verdict_lane::{VerdictLane, VerdictReceive, VerdictSend};
use rtrb::Consumer;
use scr_base::OutOfMemory;
use scr_lane::ReceiveEnd;
use scr_log::{CorePass, FreePass, Logs};
use scr_plan::RunPlan;
use scr_program::Program;
use scr_wire::Packet;
use std::alloc::Global;

// How many verdicts may wait in a lane.
const CAPACITY: u32 = 1_024;

/// What a core begins with: the end of its lane, its pass, and where its verdicts and its spent packets go.
#[derive(Drop)]
pub struct Worker<P: Program> {
    pub lane: ReceiveEnd,
    pub pass: CorePass,
    pub out: Returning<VerdictSend<P>>,
}

/// What the cores of a run begin with, and the ends that their caller keeps.
#[derive(Drop)]
pub struct Crew<P: Program> {
    pub workers: Vec<Worker<P>>,
    /// The ends by which the verdicts of each core come.
    pub verdicts: Vec<VerdictReceive<P>>,
    /// The ends by which the packets come home that a core needs no more.
    pub spent: Vec<Consumer<Packet>>,
}

/// Claims this core for a part of the pass. None where another core was drawn, or none.
pub fn claim(logs: &Logs, free: &mut FreePass, core: u32) -> Option<CorePass>
    requires of_these { free.old.logs ≡ logs.now }
    requires stock { 2 ≤ free.old.stock }
    ensures logs { IfSome result (λ pass. pass.logs ≡ logs.now) }
    ensures core { IfSome result (λ pass. pass.core ≡ core) }
    ensures unpublished { IfSome result (λ pass. pass.published ≡ 0) }
    ensures unfinished { IfSome result (λ pass. pass.finished ≡ 0) }
    ensures free { free.new.logs ≡ logs.now }
    ensures stock { free.old.stock ≡ free.new.stock + 1 }
{
    let pass = logs.claim(free.split(logs)).ok()?;
    if pass.core() == core {
        Some(pass)
    } else {
        None
    }
}

/// Claims every core, in order, for the ends of their lanes, and makes their verdict lanes and the ways home of their packets.
/// None where a core was drawn before.
pub fn claim_all<P: Program>(
    alloc: Global,
    settings: &P::Settings,
    plan: &RunPlan,
    logs: &Logs,
    free: &mut FreePass,
    ends: Vec<ReceiveEnd>,
) -> Result<Option<Crew<P>>, OutOfMemory>
    requires plan { logs.now.plan ≡ plan.now }
    requires of_these { free.old.logs ≡ logs.now }
    requires stock { most_cores + 1 ≤ free.old.stock }
    requires ends { OfCores (IsNewEnd plan.now) plan.now.cores ends.items }
    ensures workers { IfOk result (λ all. IfSome all (λ crew. OfCores (IsWorker (P.verdict_after settings.now) logs.now) (length crew.workers.items) crew.workers.items)) }
    ensures all { IfOk result (λ all. IfSome all (λ crew. length crew.workers.items ≡ plan.now.cores)) }
    ensures verdicts { IfOk result (λ all. IfSome all (λ crew. OfCores (IsNewVerdictEnd (P.verdict_after settings.now) plan.now) plan.now.cores crew.verdicts.items)) }
    ensures spent { IfOk result (λ all. IfSome all (λ crew. length crew.spent.items ≡ plan.now.cores)) }
    ensures free { free.new.logs ≡ logs.now }
{
    let cores = plan.cores() as usize;
    let mut workers = Vec::with_capacity(alloc, cores)?;
    let mut verdicts = Vec::with_capacity(alloc, cores)?;
    let mut spent = Vec::with_capacity(alloc, cores)?;
    let mut core = 0;
    for lane in ends {
        let Some(pass) = claim(logs, free, core) else {
            return Ok(None);
        };
        let (send, receive) = VerdictLane::make::<P>(alloc, settings, plan, core, CAPACITY)?;
        let (out, home) = Returning::home(alloc, send)?;
        workers.push(Worker { lane, pass, out })?;
        verdicts.push(receive)?;
        spent.push(home)?;
        core += 1;
    }
    Ok(Some(Crew {
        workers,
        verdicts,
        spent,
    }))
}
