ghost use Rattle.std.specs.Prelude.{◌≡◌, length, IfOk, IfSome};
ghost use Rattle.scr_replica.specs.Replicas.{Begin};
ghost use Rattle.scr_crew.specs.Cores.{OfCores};
ghost use Rattle.scr_crew.specs.Verdicts.{IsNewVerdictEnd};
ghost use Rattle.scr_crew.specs.Workers.{IsWorker};
ghost use Rattle.scr_crew.specs.Threads.{IsThread};
ghost use Rattle.scr_crew.specs.Answers.{IsAnswer};

use crate::core_out::{CoreTotals, run_core_home};
use crate::workers::Worker;
use scr_base::OutOfMemory;
use scr_log::Logs;
use scr_plan::RunPlan;
use scr_program::Program;
use scr_replica::{CoreStop, Gate};
use std::alloc::Global;
use std::snapshot::Snapshot;
use std::sync::Wait;
use std::thread::{Promise, PromisedHandle, Scope};

/// What the thread of a core promises: what the core answers, where it comes to its end.
#[derive(Drop)]
pub struct Work<P: Program> {
    settings: Snapshot<P::Settings>,
    plan: Snapshot<RunPlan>,
    core: u32,
}

impl<P: Program> Promise<Result<CoreTotals<P>, CoreStop>> for Work<P> {
    ghost use Rattle.scr_crew.specs.Answers.{IsAnswer};

    ghost kept_by = { λ work answer. IsAnswer (P.count_after work.settings.value) work.plan.value work.core answer };
}

/// The thread of a core.
pub type Started<P> = PromisedHandle<Result<CoreTotals<P>, CoreStop>, Work<P>>;

// Starts the thread of a core. None where no thread can be started.
fn start_worker<'s, E, P: Program + 's, G: Gate + Sync + 's, R: Wait + Sync + 's>(
    scope: &Scope<'s, E>,
    rt: &'s R,
    alloc: Global,
    settings: &'s P::Settings,
    plan: &RunPlan,
    logs: &'s Logs,
    gate: &'s G,
    worker: Worker<P>,
) -> Option<Started<P>>
    requires plan { logs.now.plan ≡ plan.now }
    requires worker { IsWorker (P.verdict_after settings.now) logs.now worker.pass.core worker }
    ensures { IfSome result (λ thread. IsThread settings.now plan.now worker.pass.core thread) }
{
    let core = worker.pass.core();
    let work = Work {
        settings: Snapshot::of(settings),
        plan: Snapshot::of(plan),
        core,
    };
    let Worker { lane, pass, out } = worker;
    scope
        .spawn_with(
            work,
            move || -> Result<CoreTotals<P>, CoreStop>
                requires of_these { pass.logs ≡ logs.now }
                requires begin { Begin lane pass }
                requires verdicts { IsNewVerdictEnd (P.verdict_after settings.now) logs.now.plan pass.core out.outlet }
                ensures { IsAnswer (P.count_after settings.entry.now) logs.entry.now.plan pass.core result }
            { run_core_home::<P, G, R>(rt, alloc, settings, lane, pass, logs, gate, out) },
        )
        .ok()
}

/// Starts the threads of the cores, in order, and stops at the first that can't be started. It takes no memory of its own
/// once the first has started.
pub fn start_all<'s, E, P: Program + 's, G: Gate + Sync + 's, R: Wait + Sync + 's>(
    scope: &Scope<'s, E>,
    rt: &'s R,
    alloc: Global,
    settings: &'s P::Settings,
    plan: &RunPlan,
    logs: &'s Logs,
    gate: &'s G,
    workers: Vec<Worker<P>>,
) -> Result<Vec<Started<P>>, OutOfMemory>
    requires plan { logs.now.plan ≡ plan.now }
    requires workers { OfCores (IsWorker (P.verdict_after settings.now) logs.now) (length workers.items) workers.items }
    ensures { IfOk result (λ started. OfCores (IsThread settings.now plan.now) (length started.items) started.items) }
{
    let mut started = Vec::with_capacity(alloc, workers.len())?;
    for worker in workers {
        let thread = start_worker::<E, P, G, R>(
            scope, rt, alloc, settings, plan, logs, gate, worker,
        );
        let Some(thread) = thread else {
            break;
        };
        if started.push(thread).is_err() {
            break;
        }
    }
    Ok(started)
}
