//! The caller's part of a run: it feeds the lanes, and takes the verdicts.
ghost use Rattle.std.specs.Prelude.{◌≡◌, List, [], true};
ghost use Rattle.scr_base.specs.declared.row.Row.{Row};
ghost use Rattle.scr_base.specs.declared.row.Verdict.{Verdict};
ghost use Rattle.scr_replica.specs.OneCore.{verdicts};
ghost use Rattle.scr_crew.specs.Takers.{IsTaking, HandsOn};
ghost use Rattle.scr_crew.specs.Trying.{HasTried};

use crate::returning::take_home;
use crate::run_stop::RunStop;
use crate::taker::Taker;
use crate::taking::{Ready, Taking};
use crossbeam_utils::Backoff;
use rtrb::Consumer;
use scr_base::OutOfMemory;
use scr_feed::{Feed, Step};
use scr_log::{FreePass, Logs};
use scr_plan::RunPlan;
use scr_program::Program;
use scr_wire::Packet;
use std::sync::Wait;

// So many steps of the feed, or verdicts, at most before the other has its turn.
const TURN: u32 = 64;

/// What the caller of a run in threads works with.
#[derive(Drop)]
pub struct Caller<'a, P: Program> {
    /// The pass that it looks at the halt word by.
    pub free: FreePass,
    /// What gives the lanes of the cores their messages.
    pub feed: Feed<'a>,
    /// What takes the verdicts of the cores.
    pub taking: Taking<P>,
    /// The ends by which spent packets come home, core by core.
    pub spent: Vec<Consumer<Packet>>,
}

// What a try to feed, or to take verdicts, has come to.
#[derive(Clone, Copy)]
enum Tried {
    // It got on.
    Moved,
    // A lane is full, or a verdict isn't there yet.
    Waits,
    // Nothing is left.
    Done,
}

// Feeds the lanes for a turn, or until a lane is full, or all is fed.
fn feed_turn<R: Wait>(rt: &R, feed: &mut Feed<'_>) -> Result<Tried, OutOfMemory> {
    let mut tried = Tried::Waits;
    for _ in 0..TURN {
        match feed.step(rt)? {
            Step::Taken | Step::Sent { .. } => tried = Tried::Moved,
            Step::Full { .. } => return Ok(tried),
            Step::Done => return Ok(Tried::Done),
        }
    }
    Ok(tried)
}

// Gives the taker the next verdict, where it is there.
#[inline]
fn take_once<P: Program, T: Taker<O>, O, R: Wait>(
    rt: &R,
    plan: &RunPlan,
    taking: &mut Taking<P>,
    taker: &mut T,
    out: &mut O,
) -> Result<Tried, RunStop>
    requires { (verdict_after : List Row → Row → Verdict) × (before : O) × IsTaking T.IsToTake verdict_after plan.now before out.old taking.old taker.old }
    ensures { (verdict_after : List Row → Row → Verdict) (before : O) → IsTaking T.IsToTake verdict_after plan.now before out.old taking.old taker.old
        → HasTried T.IsToTake T.Stopped verdict_after plan.now before out.new taking.new taker.new result }
{
    match taking.take_next(rt, plan) {
        Ready::Given(given) => {
            taker.take(out, given)?;
            Ok(Tried::Moved)
        }
        Ready::Passed => Ok(Tried::Moved),
        Ready::NotYet => Ok(Tried::Waits),
        Ready::All => Ok(Tried::Done),
    }
}

// Gives the taker verdicts for a turn, or until the next isn't there, or all are taken.
fn take_turn<P: Program, T: Taker<O>, O, R: Wait>(
    rt: &R,
    plan: &RunPlan,
    taking: &mut Taking<P>,
    taker: &mut T,
    out: &mut O,
) -> Result<Tried, RunStop>
    requires { (verdict_after : List Row → Row → Verdict) × (before : O) × IsTaking T.IsToTake verdict_after plan.now before out.old taking.old taker.old }
    ensures { (verdict_after : List Row → Row → Verdict) (before : O) → IsTaking T.IsToTake verdict_after plan.now before out.old taking.old taker.old
        → HasTried T.IsToTake T.Stopped verdict_after plan.now before out.new taking.new taker.new result }
{
    let mut tried = Tried::Waits;
    for _ in 0..TURN {
        match take_once::<P, T, O, R>(rt, plan, taking, taker, out)? {
            Tried::Moved => tried = Tried::Moved,
            Tried::Waits => return Ok(tried),
            Tried::Done => return Ok(Tried::Done),
        }
    }
    Ok(tried)
}

/// Feeds the lanes and gives the verdicts to a taker, by turns, until all is fed and all are taken. False where the run was
/// halted before. It pauses where a lane is full and the next verdict isn't there yet. Spent packets come home behind each turn.
pub fn feed_and_take<P: Program, T: Taker<O>, O, R: Wait>(
    rt: &R,
    plan: &RunPlan,
    logs: &Logs,
    caller: &mut Caller<'_, P>,
    taker: &mut T,
    out: &mut O,
) -> Result<bool, RunStop>
    requires logs { caller.old.free.logs ≡ logs.now }
    requires taking { (verdict_after : List Row → Row → Verdict) × (before : O) × IsTaking T.IsToTake verdict_after plan.now before out.old caller.old.taking taker.old }
    ensures logs { caller.new.free.logs ≡ logs.now }
    ensures taken { (verdict_after : List Row → Row → Verdict) (before : O) → IsTaking T.IsToTake verdict_after plan.now before out.old caller.old.taking taker.old
        → HandsOn T.IsToTake T.Stopped (verdicts verdict_after plan.now) before out.new (λ _. taker.new) (λ through rest. through ≡ true → rest ≡ []) result }
{
    let pause = Backoff::new();
    for _ in rt.forever() {
        let fed = feed_turn(rt, &mut caller.feed)?;
        let took = take_turn::<P, T, O, R>(rt, plan, &mut caller.taking, taker, out)?;
        take_home(&mut caller.spent);
        match (fed, took) {
            (Tried::Done, Tried::Done) => return Ok(true),
            (Tried::Moved, _) | (_, Tried::Moved) => pause.reset(),
            _ if logs.halted_by_main(&mut caller.free) => return Ok(false),
            _ => pause.snooze(),
        }
    }
    unreachable!()
}
