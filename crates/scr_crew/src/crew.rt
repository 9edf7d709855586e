//! A run whose verdicts a taker is given while it goes on.
ghost use Rattle.std.specs.Prelude.{◌≡◌, ◌≤◌, List, [], true, length, IfOk, IfSome, OnSome, MatchResult};
ghost use Rattle.scr_base.specs.declared.row.Row.{Row};
ghost use Rattle.scr_base.specs.declared.row.Verdict.{Verdict};
ghost use Rattle.scr_plan.specs.declared.given.Given.{Given};
ghost use Rattle.scr_log.specs.Layout.{most_slots};
ghost use Rattle.scr_replica.specs.OneCore.{verdicts};
ghost use Rattle.scr_crew.specs.Cores.{OfCores};
ghost use Rattle.scr_crew.specs.Workers.{IsWorker};
ghost use Rattle.scr_crew.specs.Threads.{IsThread};
ghost use Rattle.scr_crew.specs.Takers.{IsTaking, HandsOn, IsTally};

use crate::feeding::{Caller, feed_and_take};
use crate::joining::{Tallies, join_all, tallies_of};
use crate::run_stop::RunStop;
use crate::taker::Taker;
use crate::taking::Taking;
use crate::work::{Started, start_all};
use crate::workers::{Crew, Worker, claim_all};
use scr_feed::Feed;
use scr_log::Logs;
use scr_plan::{Given, RunPlan};
use scr_program::Program;
use scr_replica::{Gate, Gathered, run_phases};
use std::alloc::Global;
use std::sync::Wait;
use std::thread;
use std::thread::{Scope, Threads};

// How many messages may wait in a lane.
const CAPACITY: u32 = 1_024;

// The caller's part until all verdicts are taken, and given out. False where a core has no thread, or the run was halted.
fn take_all<P: Program, T: Taker<O>, O, R: Wait>(
    rt: &R,
    plan: &RunPlan,
    logs: &Logs,
    caller: &mut Caller<'_, P>,
    started: usize,
    taker: &mut T,
    out: &mut O,
) -> Result<bool, RunStop>
    requires logs { caller.old.free.logs ≡ logs.now }
    requires taking { (verdict_after : List Row → Row → Verdict) × (before : O) × IsTaking T.IsToTake verdict_after plan.now before out.old caller.old.taking taker.old }
    ensures logs { caller.new.free.logs ≡ logs.now }
    ensures started { IfOk result (λ through. through ≡ true → (started ≡ plan.now.cores) × (1 ≤ plan.now.cores)) }
    ensures taken { (verdict_after : List Row → Row → Verdict) (before : O) → IsTaking T.IsToTake verdict_after plan.now before out.old caller.old.taking taker.old
        → HandsOn T.IsToTake T.Stopped (verdicts verdict_after plan.now) before out.new (λ _. taker.new) (λ through rest. through ≡ true → (rest ≡ []) × T.IsOut taker.new) result }
{
    if started != plan.cores() as usize {
        return Ok(false);
    }
    if !feed_and_take::<P, T, O, R>(rt, plan, logs, caller, taker, out)? {
        return Ok(false);
    }
    taker.flush(out)?;
    Ok(true)
}

// The caller's part of a run, once the threads are started: it feeds the lanes, gives the verdicts to the taker, and joins the
// threads. Unless all verdicts are taken by then, it halts the run before it joins.
fn lead<P: Program, T: Taker<O> + Drop, O, R: Threads + Wait>(
    rt: &R,
    alloc: Global,
    settings: &P::Settings,
    plan: &RunPlan,
    logs: &Logs,
    mut caller: Caller<'_, P>,
    started: Vec<Started<P>>,
    mut taker: T,
    out: &mut O,
) -> Result<(Option<Tallies>, T), RunStop>
    requires logs { caller.free.logs ≡ logs.now }
    requires started { OfCores (IsThread settings.now plan.now) (length started.items) started.items }
    requires taking { IsTaking T.IsToTake (P.verdict_after settings.now) plan.now out.old out.old caller.taking taker }
    ensures tally { IfOk result (λ it. IfSome it.0 (IsTally (P.count_after settings.now) plan.now)) }
    ensures taken { HandsOn T.IsToTake T.Stopped (verdicts (P.verdict_after settings.now) plan.now) out.old out.new (λ it. it.1) (λ it rest. OnSome it.0 ((rest ≡ []) × T.IsOut it.1)) result }
{
    let taken = take_all::<P, T, O, R>(rt, plan, logs, &mut caller, started.len(), &mut taker, out);
    if taken != Ok(true) {
        logs.halt_by_main(&mut caller.free);
    }
    let answers = join_all::<P, R>(rt, settings, plan, started);
    // Why the taker stopped is told before that there was no memory to join.
    let through = taken?;
    let answers = answers?;
    let tallies = tallies_of::<P>(alloc, answers)?;
    if through {
        Ok((tallies, taker))
    } else {
        Ok((None, taker))
    }
}

// The first cores in threads of a scope, and what all make of the run.
fn lead_crew<
    's,
    E,
    P: Program + 's,
    G: Gate + Sync + 's,
    T: Taker<O> + Drop,
    O,
    R: Threads + Wait + Sync + 's,
>(
    scope: &Scope<'s, E>,
    rt: &'s R,
    alloc: Global,
    settings: &'s P::Settings,
    plan: &RunPlan,
    logs: &'s Logs,
    gate: &'s G,
    caller: Caller<'_, P>,
    workers: Vec<Worker<P>>,
    taker: T,
    out: &mut O,
) -> Result<(Option<Tallies>, T), RunStop>
    requires plan { logs.now.plan ≡ plan.now }
    requires logs { caller.free.logs ≡ logs.now }
    requires workers { OfCores (IsWorker (P.verdict_after settings.now) logs.now) (length workers.items) workers.items }
    requires taking { IsTaking T.IsToTake (P.verdict_after settings.now) plan.now out.old out.old caller.taking taker }
    ensures tally { IfOk result (λ it. IfSome it.0 (IsTally (P.count_after settings.now) plan.now)) }
    ensures taken { HandsOn T.IsToTake T.Stopped (verdicts (P.verdict_after settings.now) plan.now) out.old out.new (λ it. it.1) (λ it rest. OnSome it.0 ((rest ≡ []) × T.IsOut it.1)) result }
{
    let started = start_all::<E, P, G, R>(scope, rt, alloc, settings, plan, logs, gate, workers)?;
    lead::<P, T, O, R>(rt, alloc, settings, plan, logs, caller, started, taker, out)
}

/// The first cores in threads, and what all make of the run. None where a core has no thread, or was halted.
pub fn run_crew<P: Program, G: Gate + Sync, T: Taker<O> + Drop, O, R: Threads + Wait + Sync>(
    rt: &R,
    alloc: Global,
    settings: &P::Settings,
    plan: &RunPlan,
    logs: &Logs,
    gate: &G,
    caller: Caller<'_, P>,
    workers: Vec<Worker<P>>,
    taker: T,
    out: &mut O,
) -> Result<(Option<Tallies>, T), RunStop>
    requires plan { logs.now.plan ≡ plan.now }
    requires logs { caller.free.logs ≡ logs.now }
    requires workers { OfCores (IsWorker (P.verdict_after settings.now) logs.now) (length workers.items) workers.items }
    requires taking { IsTaking T.IsToTake (P.verdict_after settings.now) plan.now out.old out.old caller.taking taker }
    ensures tally { IfOk result (λ it. IfSome it.0 (IsTally (P.count_after settings.now) plan.now)) }
    ensures taken { HandsOn T.IsToTake T.Stopped (verdicts (P.verdict_after settings.now) plan.now) out.old out.new (λ it. it.1) (λ it rest. OnSome it.0 ((rest ≡ []) × T.IsOut it.1)) result }
{
    // The closure gives the reference back, so that what it wrote is known behind the scope.
    let (result, _out) = thread::scope(
        thread::scope_env(),
        rt,
        move |scope| -> (Result<(Option<Tallies>, T), RunStop>, &mut O)
            requires plan { logs.now.plan ≡ plan.now }
            requires logs { caller.free.logs ≡ logs.now }
            requires workers { OfCores (IsWorker (P.verdict_after settings.now) logs.now) (length workers.items) workers.items }
            requires taking { IsTaking T.IsToTake (P.verdict_after settings.now) plan.now out.now out.now caller.taking taker }
            ensures tally { IfOk result.0 (λ it. IfSome it.0 (IsTally (P.count_after settings.entry.now) plan.entry.now)) }
            ensures taken { HandsOn T.IsToTake T.Stopped (verdicts (P.verdict_after settings.entry.now) plan.entry.now) out.entry.now result.1.now (λ it. it.1) (λ it rest. OnSome it.0 ((rest ≡ []) × T.IsOut it.1)) result.0 }
            ensures same { result.1.ghost_name ≡ out.entry.ghost_name }
        {
            let result = lead_crew::<_, P, G, T, O, R>(
                scope, rt, alloc, settings, plan, logs, gate, caller, workers, taker, out,
            );
            (result, out)
        },
    );
    result
}

// What all cores make of the run in threads. None where a core could not be claimed, has no thread, or was halted.
fn run_claimed<P: Program, G: Gate + Sync, T: Taker<O> + Drop, O, R: Threads + Wait + Sync>(
    rt: &R,
    alloc: Global,
    settings: &P::Settings,
    plan: &RunPlan,
    ring: u32,
    gate: &G,
    taker: T,
    out: &mut O,
) -> Result<(Option<Tallies>, T), RunStop>
    requires some_slots { 1 ≤ ring }
    requires few_slots { ring ≤ most_slots }
    requires begin { T.IsToTake taker out.old out.old (verdicts (P.verdict_after settings.now) plan.now) (verdicts (P.verdict_after settings.now) plan.now) }
    ensures tally { IfOk result (λ it. IfSome it.0 (IsTally (P.count_after settings.now) plan.now)) }
    ensures taken { HandsOn T.IsToTake T.Stopped (verdicts (P.verdict_after settings.now) plan.now) out.old out.new (λ it. it.1) (λ it rest. OnSome it.0 ((rest ≡ []) × T.IsOut it.1)) result }
{
    let (logs, mut free) = Logs::make(alloc, plan, ring)?;
    let (feed, ends) = Feed::make(alloc, plan, CAPACITY)?;
    let crew = claim_all::<P>(alloc, settings, plan, &logs, &mut free, ends)?;
    let Some(
        Crew {
            workers,
            verdicts,
            spent,
        },
    ) = crew
    else {
        return Ok((None, taker));
    };
    let taking = Taking::by(alloc, verdicts)?;
    let caller = Caller {
        free,
        feed,
        taking,
        spent,
    };
    run_crew::<P, G, T, O, R>(
        rt, alloc, settings, plan, &logs, gate, caller, workers, taker, out,
    )
}

// Gives a taker those of these verdicts that it hasn't taken yet.
fn give_rest<T: Taker<O>, O>(verdicts: &[Given], taker: &mut T, out: &mut O) -> Result<(), RunStop>
    requires { (before : O) × (rest : List Given) × T.IsToTake taker.old before out.old verdicts.now rest }
    ensures { (before : O) (rest : List Given) → T.IsToTake taker.old before out.old verdicts.now rest
        → MatchResult result (λ _. T.IsToTake taker.new before out.new verdicts.now [] × T.IsOut taker.new) (λ stop. T.Stopped stop before out.new verdicts.now) }
{
    for given in &verdicts[taker.taken()..] {
        taker.take(out, *given)?;
    }
    taker.flush(out)
}

// A run by phases, for a taker that may have taken some of the verdicts.
fn run_on_by_phases<P: Program, T: Taker<O> + Drop, O>(
    alloc: Global,
    settings: &P::Settings,
    plan: &RunPlan,
    mut taker: T,
    out: &mut O,
) -> Result<(Tallies, T), RunStop>
    requires { (before : O) × (rest : List Given) × T.IsToTake taker before out.old (verdicts (P.verdict_after settings.now) plan.now) rest }
    ensures tally { IfOk result (λ it. IsTally (P.count_after settings.now) plan.now it.0) }
    ensures taken { (before : O) (rest : List Given) → T.IsToTake taker before out.old (verdicts (P.verdict_after settings.now) plan.now) rest
        → HandsOn T.IsToTake T.Stopped (verdicts (P.verdict_after settings.now) plan.now) before out.new (λ it. it.1) (λ it rest. (rest ≡ []) × T.IsOut it.1) result }
{
    let Gathered {
        verdicts,
        cores,
        flows,
    } = run_phases::<P>(alloc, settings, plan)?;
    give_rest(&verdicts, &mut taker, out)?;
    Ok((Tallies { cores, flows }, taker))
}

/// A run of all cores, each in a thread of its own, which gives its verdicts to a taker in the order of the frames while it
/// goes on. Where it can't come to its end so, it goes on by phases on the calling thread. A core alone goes by phases at once,
/// since it has nobody to run beside.
pub fn run_taken<P: Program, G: Gate + Sync, T: Taker<O> + Drop, O, R: Threads + Wait + Sync>(
    rt: &R,
    alloc: Global,
    settings: &P::Settings,
    plan: &RunPlan,
    ring: u32,
    gate: &G,
    taker: T,
    out: &mut O,
) -> Result<(Tallies, T), RunStop>
    requires some_slots { 1 ≤ ring }
    requires few_slots { ring ≤ most_slots }
    requires begin { T.IsToTake taker out.old out.old (verdicts (P.verdict_after settings.now) plan.now) (verdicts (P.verdict_after settings.now) plan.now) }
    ensures tally { IfOk result (λ it. IsTally (P.count_after settings.now) plan.now it.0) }
    ensures taken { HandsOn T.IsToTake T.Stopped (verdicts (P.verdict_after settings.now) plan.now) out.old out.new (λ it. it.1) (λ it rest. (rest ≡ []) × T.IsOut it.1) result }
{
    if plan.cores() == 1 {
        return run_on_by_phases::<P, T, O>(alloc, settings, plan, taker, out);
    }
    let (tallies, taker) = run_claimed::<P, G, T, O, R>(
        rt, alloc, settings, plan, ring, gate, taker, out,
    )?;
    match tallies {
        Some(tallies) => Ok((tallies, taker)),
        None => run_on_by_phases::<P, T, O>(alloc, settings, plan, taker, out),
    }
}
