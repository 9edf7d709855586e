//! Rows through the logs of some cores, each in a thread.
ghost use Rattle.std.specs.Prelude.{◌≡◌, ◌≢◌, ◌≤◌, ◌<◌, ◌+◌, length, true, None, MatchOption};
ghost use Rattle.scr_plan.specs.FinalEntry.{final_entry};
ghost use Rattle.scr_log.specs.Passes.{IsNext, IsCurrent};

use crate::measure::Shared;
use crate::rows::plan_of;
use crate::stop::Stop;
use scr_base::{OutOfMemory, Row};
use scr_log::{CorePass, FreePass, Logs, Look, Room};
use scr_plan::RunPlan;
use std::alloc::Global;
use std::sync::Wait;
use std::thread;
use std::thread::{JoinHandle, Scope, Threads};

const SLOTS: u32 = 1_024;

/// A checksum of the rows that all cores together found in the logs of others.
pub fn rows_found<R: Threads + Wait + Sync>(
    rt: &R,
    alloc: Global,
    shared: Shared,
) -> Result<u64, Stop> {
    let plan = plan_of(alloc, shared.cores.count(), shared.rows)?;
    let found = found_over(rt, alloc, &plan);
    drop(plan);
    found?.ok_or(Stop::NoThread)
}

// None where a thread can't be started.
fn found_over<R: Threads + Wait + Sync>(
    rt: &R,
    alloc: Global,
    plan: &RunPlan,
) -> Result<Option<u64>, OutOfMemory>
    requires few { length plan.now.rows ≤ 1000000 }
{
    let (logs, first) = Logs::make(alloc, plan, SLOTS)?;
    found_in(rt, alloc, &logs, plan, first)
}

fn found_in<R: Threads + Wait + Sync>(
    rt: &R,
    alloc: Global,
    logs: &Logs,
    plan: &RunPlan,
    first: FreePass,
) -> Result<Option<u64>, OutOfMemory>
    requires of_these { first.logs ≡ logs.now }
    requires plan { logs.now.plan ≡ plan.now }
    requires stock { plan.now.cores ≤ first.stock }
    requires few { length plan.now.rows ≤ 1000000 }
{
    thread::scope(
        thread::scope_env(),
        rt,
        |scope|
            requires of_these { first.logs ≡ logs.now }
            requires plan { logs.now.plan ≡ plan.now }
            requires stock { plan.now.cores ≤ first.stock }
            requires few { length plan.now.rows ≤ 1000000 }
        { by_all(scope, rt, alloc, logs, plan, first) },
    )
}

// All cores, of which this thread is the last. Where another can't be started, those that run are told to end.
fn by_all<'s, E, R: Threads + Wait + Sync + 's>(
    scope: &Scope<'s, E>,
    rt: &'s R,
    alloc: Global,
    logs: &'s Logs,
    plan: &'s RunPlan,
    mut first: FreePass,
) -> Result<Option<u64>, OutOfMemory>
    requires of_these { first.logs ≡ logs.now }
    requires plan { logs.now.plan ≡ plan.now }
    requires stock { plan.now.cores ≤ first.stock }
    requires few { length plan.now.rows ≤ 1000000 }
{
    let mut others = Vec::with_capacity(alloc, plan.cores() as usize)?;
    if !start_others(scope, rt, logs, plan, &mut first, &mut others) {
        logs.halt_by_main(&mut first);
        drop(others);
        return Ok(None);
    }
    let mine = by_core(rt, logs, plan, first);
    Ok(Some(joined(rt, mine, others)))
}

// Starts the threads of all cores but one, which keeps this pass, and tells whether all run.
fn start_others<'s, E, R: Wait + Sync + 's>(
    scope: &Scope<'s, E>,
    rt: &'s R,
    logs: &'s Logs,
    plan: &'s RunPlan,
    first: &mut FreePass,
    started: &mut Vec<JoinHandle<u64>>,
) -> bool
    requires of_these { first.old.logs ≡ logs.now }
    requires plan { logs.now.plan ≡ plan.now }
    requires stock { plan.now.cores ≤ first.old.stock }
    requires few { length plan.now.rows ≤ 1000000 }
    ensures of_these { first.new.logs ≡ logs.now }
    ensures stock { 1 ≤ first.new.stock }
{
    for _ in 1..plan.cores() {
        let pass = first.split(logs);
        let Some(thread) = start(scope, rt, logs, plan, pass) else {
            return false;
        };
        if started.push(thread).is_err() {
            return false;
        }
    }
    true
}

fn start<'s, E, R: Wait + Sync + 's>(
    scope: &Scope<'s, E>,
    rt: &'s R,
    logs: &'s Logs,
    plan: &'s RunPlan,
    pass: FreePass,
) -> Option<JoinHandle<u64>>
    requires of_these { pass.logs ≡ logs.now }
    requires plan { logs.now.plan ≡ plan.now }
    requires stock { 1 ≤ pass.stock }
    requires few { length plan.now.rows ≤ 1000000 }
{
    scope
        .spawn(
            move ||
                requires of_these { pass.logs ≡ logs.now }
                requires plan { logs.now.plan ≡ plan.now }
                requires stock { 1 ≤ pass.stock }
                requires few { length plan.now.rows ≤ 1000000 }
            { by_core(rt, logs, plan, pass) },
        )
        .ok()
}

fn joined<R: Threads>(rt: &R, mine: u64, others: Vec<JoinHandle<u64>>) -> u64 {
    let mut sum = mine;
    for other in others {
        sum = sum.wrapping_add(other.join(rt));
    }
    sum
}

// A core goes through all packets. It looks at the others for those that are lost to it.
fn by_core<R: Wait>(rt: &R, logs: &Logs, plan: &RunPlan, free: FreePass) -> u64
    requires of_these { free.logs ≡ logs.now }
    requires plan { logs.now.plan ≡ plan.now }
    requires stock { 1 ≤ free.stock }
    requires few { length plan.now.rows ≤ 1000000 }
{
    let Ok(mut pass) = logs.claim(free) else {
        return 0;
    };
    let mut sum = 0u64;
    for i in 0..plan.rows().len() as u32 {
        let p = i + 1;
        let own = plan.final_entry(pass.core(), p);
        if !publish_when_free(rt, logs, &mut pass, p, own.as_ref()) {
            break;
        }
        if own.is_none() {
            sum = sum.wrapping_add(found(rt, logs, &mut pass, p));
        }
        logs.finish(&mut pass, p);
    }
    sum
}

// Pauses, and tells whether the run goes on.
fn goes_on(logs: &Logs, pass: &mut CorePass) -> bool
    requires { pass.old.logs ≡ logs.now }
    ensures { pass.new ≡ record pass.old { looks = pass.new.looks } }
{
    thread::yield_now();
    !logs.halted(pass)
}

// Publishes the final entry for packet p when the slot is free, unless the run is over before.
fn publish_when_free<R: Wait>(
    rt: &R,
    logs: &Logs,
    pass: &mut CorePass,
    p: u32,
    entry: Option<&Row>,
) -> bool
    requires next { IsNext logs.now pass.old p }
    requires entry { MatchOption entry (final_entry logs.now.plan pass.old.core p ≡ None) (λ row. final_entry logs.now.plan pass.old.core p ≡ Some row.now) }
    ensures published { result ≡ true → IsCurrent logs.now pass.new p }
    ensures core { pass.new.core ≡ pass.old.core }
{
    for _ in rt.forever() {
        if logs.publish(pass, p, entry) == Room::Free {
            return true;
        }
        if !goes_on(logs, pass) {
            return false;
        }
    }
    unreachable!()
}

// The row of packet p in the log of another core, or none where it is lost there, or the run is over.
fn entry_of<R: Wait>(rt: &R, logs: &Logs, pass: &mut CorePass, core: u32, p: u32) -> Option<Row>
    requires core { core < logs.now.plan.cores }
    requires other { core ≢ pass.old.core }
    requires current { IsCurrent logs.now pass.old p }
    ensures current { IsCurrent logs.now pass.new p }
    ensures core { pass.new.core ≡ pass.old.core }
{
    for _ in rt.forever() {
        match logs.look(pass, core, p) {
            Look::Row(row) => return Some(row),
            Look::Lost => return None,
            Look::NotYet { .. } => {
                if !goes_on(logs, pass) {
                    return None;
                }
            }
        }
    }
    unreachable!()
}

// A checksum of the row of packet p, which another core has, or 0 where none has it.
fn found<R: Wait>(rt: &R, logs: &Logs, pass: &mut CorePass, p: u32) -> u64
    requires { IsCurrent logs.now pass.old p }
    ensures current { IsCurrent logs.now pass.new p }
    ensures core { pass.new.core ≡ pass.old.core }
{
    let own = pass.core();
    for core in 0..logs.cores() {
        if core != own
            && let Some(row) = entry_of(rt, logs, pass, core, p)
        {
            return row.w5.wrapping_mul(31).wrapping_add(row.w1);
        }
    }
    0
}
