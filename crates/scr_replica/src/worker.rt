ghost use Rattle.std.specs.Prelude.{◌≡◌, ◌∷◌, [], List, IfOk, IfErr, OnOk, OnErr};
ghost use Rattle.scr_plan.specs.declared.given.Given.{Given};
ghost use Rattle.scr_log.specs.declared.view.Noted.TheVariants.{Halt};
ghost use Rattle.scr_log.specs.Passes.{OfCore};
ghost use Rattle.scr_log.specs.Answers.{EndsWith};
ghost use Rattle.scr_replica.specs.declared.standing.Standing.TheVariants as standing;
ghost use Rattle.scr_replica.specs.OneCore.{course};
ghost use Rattle.scr_replica.specs.Answers.{core_answer, core_tally};
ghost use Rattle.scr_replica.specs.Replicas.{Begin, Stands};
ghost use Rattle.scr_replica.specs.declared.worker.CoreCause.TheVariants as causes;
ghost use Rattle.scr_replica.specs.Stops.{StopTells};
ghost use Rattle.scr_replica.specs.Ways.{stopped_by, HasWatched, CameFrom, IsOnItsWay, Leads};

use crate::gate::Gate;
use crate::gathered::{CoreResult, CoreTally};
use crate::outlet::Outlet;
use crate::replica::Replica;
use crate::turn::Turn;
use crossbeam_utils::Backoff;
use scr_base::OutOfMemory;
use scr_lane::ReceiveEnd;
use scr_log::{CorePass, Logs};
use scr_plan::Given;
use scr_program::Program;
use std::alloc::Global;
use std::marker::Model;
use std::sync::Wait;

/// Why a core stopped before its end.
#[derive(Clone, Copy, Debug, PartialEq, Eq)]
pub enum CoreCause {
    /// The halt word was set by another.
    Halted,
    /// There was no memory. The core has set the halt word.
    OutOfMemory(OutOfMemory),
}

/// A core that stopped before its end, with its pass.
#[derive(Drop)]
pub struct CoreStop {
    pub pass: CorePass,
    pub cause: CoreCause,
}

impl Model for CoreStop {
    ghost use Rattle.scr_replica.specs.Stops.{Stop};

    ghost Value = { Stop };

    ghost view = { λ it. record { pass = it.pass; cause = it.cause } };
}

// What a turn, whose verdict is given out, leads to.
#[derive(Clone, Copy)]
enum Advance {
    On,
    Waits,
    Through,
    Stops(CoreCause),
}

// Gives a verdict out. Where there is no room for it, it pauses and tries again, unless the run was halted.
fn give_out<P: Program, O: Outlet, R: Wait>(
    rt: &R,
    replica: &mut Replica<P>,
    logs: &Logs,
    outlet: &mut O,
    given: Given,
) -> Result<(), CoreCause>
    requires of_these { replica.old.pass.logs ≡ logs.now }
    requires awaited { (whole : List Given) × (rest : List Given) × O.Awaits outlet.old whole (given ∷ rest) }
    ensures watched { HasWatched replica.old replica.new }
    ensures given { (whole rest : List Given) → O.Awaits outlet.old whole (given ∷ rest) → OnOk result (O.Awaits outlet.new whole rest) }
    ensures halted { IfErr result (λ cause. cause ≡ causes.Halted → EndsWith replica.old.pass replica.new.pass (Halt 1)) }
{
    let pause = Backoff::new();
    for _ in rt.forever() {
        match outlet.give(rt, given) {
            Ok(true) => return Ok(()),
            Ok(false) if replica.halted(logs) => return Err(CoreCause::Halted),
            Ok(false) => pause.snooze(),
            Err(error) => return Err(CoreCause::OutOfMemory(error)),
        }
    }
    unreachable!()
}

// Gives a packet back that the core needs no more, where there is one.
#[inline]
fn give_back<P: Program, O: Outlet>(replica: &mut Replica<P>, outlet: &mut O)
    ensures same { replica.new ≡ replica.old }
    ensures awaits { (whole rest : List Given) → O.Awaits outlet.old whole rest → O.Awaits outlet.new whole rest }
{
    if let Some(packet) = replica.spent() {
        outlet.take_back(packet);
    }
}

// A turn, whose verdict is given out. Behind one that took a message the packet before goes back.
#[inline]
fn take_turn<P: Program, O: Outlet, R: Wait>(
    rt: &R,
    settings: &P::Settings,
    replica: &mut Replica<P>,
    logs: &Logs,
    outlet: &mut O,
) -> Advance
    requires of_these { replica.old.pass.logs ≡ logs.now }
    requires stands { Stands (P.StandsFor settings.now) replica.old }
    requires running { replica.old.standing ≡ standing.Running }
    requires way { (start : OfCore) × IsOnItsWay (P.StandsFor settings.now) (P.verdict_after settings.now) (O.Awaits outlet.old) start replica.old }
    ensures { (start : OfCore) → IsOnItsWay (P.StandsFor settings.now) (P.verdict_after settings.now) (O.Awaits outlet.old) start replica.old → Leads (P.StandsFor settings.now) (P.verdict_after settings.now) (O.Awaits outlet.new) start replica.new result }
{
    match replica.turn(rt, settings, logs) {
        Turn::Moved => {
            give_back(replica, outlet);
            Advance::On
        }
        Turn::Verdict { number, verdict } => {
            match give_out(rt, replica, logs, outlet, Given { number, verdict }) {
                Ok(()) => Advance::On,
                Err(cause) => Advance::Stops(cause),
            }
        }
        Turn::Waiting(_) => Advance::Waits,
        Turn::Ended => Advance::Through,
        Turn::Halted => Advance::Stops(CoreCause::Halted),
        Turn::OutOfMemory(error) => Advance::Stops(CoreCause::OutOfMemory(error)),
    }
}

// Turns until the end, or until the core has to stop. It pauses where it waits.
fn go_through<P: Program, O: Outlet, R: Wait>(
    rt: &R,
    settings: &P::Settings,
    replica: &mut Replica<P>,
    logs: &Logs,
    outlet: &mut O,
) -> Result<(), CoreCause>
    requires of_these { replica.old.pass.logs ≡ logs.now }
    requires running { replica.old.standing ≡ standing.Running }
    requires begin { IsOnItsWay (P.StandsFor settings.now) (P.verdict_after settings.now) (O.Awaits outlet.old) replica.old.pass replica.old }
    ensures ended { OnOk result (replica.new.standing ≡ standing.Ended) }
    ensures way { OnOk result (IsOnItsWay (P.StandsFor settings.now) (P.verdict_after settings.now) (O.Awaits outlet.new) replica.old.pass replica.new) }
    ensures stopped { OnErr result (CameFrom (P.StandsFor settings.now) replica.old.pass replica.new) }
    ensures halted { IfErr result (λ cause. cause ≡ causes.Halted → EndsWith replica.old.pass replica.new.pass (Halt 1)) }
{
    let mut pause = Backoff::new();
    for _ in rt.forever() {
        match take_turn(rt, settings, replica, logs, outlet) {
            Advance::On => pause = Backoff::new(),
            Advance::Waits => pause.snooze(),
            Advance::Through => return Ok(()),
            Advance::Stops(cause) => return Err(cause),
        }
    }
    unreachable!()
}

// A core that stops. Without memory it sets the halt word.
#[cold]
#[inline(never)]
fn stopped(logs: &Logs, mut pass: CorePass, cause: CoreCause) -> CoreStop
    requires { pass.logs ≡ logs.now }
    ensures pass { result.pass ≡ stopped_by cause pass }
    ensures cause { result.cause ≡ cause }
{
    if matches!(cause, CoreCause::OutOfMemory(_)) {
        logs.halt(&mut pass);
    }
    CoreStop { pass, cause }
}

/// A core in the calling thread, from its begin to its end: it takes its lane, gives its verdicts out one by one, and goes
/// through the gate once in and once out.
pub fn run_core_into<P: Program, G: Gate, O: Outlet, R: Wait>(
    rt: &R,
    alloc: Global,
    settings: &P::Settings,
    lane: ReceiveEnd,
    pass: CorePass,
    logs: &Logs,
    gate: &G,
    outlet: &mut O,
) -> Result<CoreTally, CoreStop>
    requires of_these { pass.logs ≡ logs.now }
    requires begin { Begin lane pass }
    requires awaits { O.Awaits outlet.old (course (P.verdict_after settings.now) logs.now.plan pass.core) (course (P.verdict_after settings.now) logs.now.plan pass.core) }
    ensures tally { IfOk result (λ it. it ≡ core_tally (P.count_after settings.now) logs.now.plan pass.core) }
    ensures given { OnOk result (O.Awaits outlet.new (course (P.verdict_after settings.now) logs.now.plan pass.core) []) }
    ensures stop { IfErr result (StopTells pass) }
{
    gate.enter(rt, &pass);
    let mut replica = match Replica::<P>::make(alloc, settings, lane, pass, logs) {
        Ok(replica) => replica,
        Err(stop) => return Err(stopped(logs, stop.pass, stop.cause)),
    };
    match go_through(rt, settings, &mut replica, logs, outlet) {
        Ok(()) => {
            gate.leave(rt, replica.pass());
            let (pass, counts, flows) = replica.take_apart(settings);
            Ok(CoreTally {
                core: pass.core(),
                counts,
                flows,
            })
        }
        Err(cause) => {
            let (pass, _, _) = replica.take_apart(settings);
            Err(stopped(logs, pass, cause))
        }
    }
}

/// A core in the calling thread, from its begin to its end, which keeps its verdicts in a list.
pub fn run_core<P: Program, G: Gate, R: Wait>(
    rt: &R,
    alloc: Global,
    settings: &P::Settings,
    lane: ReceiveEnd,
    pass: CorePass,
    logs: &Logs,
    gate: &G,
) -> Result<CoreResult, CoreStop>
    requires of_these { pass.logs ≡ logs.now }
    requires begin { Begin lane pass }
    ensures answer { IfOk result (λ it. it ≡ core_answer (P.verdict_after settings.now) (P.count_after settings.now) logs.now.plan pass.core) }
    ensures stop { IfErr result (StopTells pass) }
{
    let mut verdicts = Vec::new(alloc);
    let tally = run_core_into::<P, G, Vec<Given>, R>(
        rt,
        alloc,
        settings,
        lane,
        pass,
        logs,
        gate,
        &mut verdicts,
    )?;
    Ok(CoreResult {
        core: tally.core,
        verdicts,
        counts: tally.counts,
        flows: tally.flows,
    })
}
