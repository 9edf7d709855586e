//! Verdicts that leave by a lane, and packets that go home.
ghost use Rattle.std.specs.Prelude.{◌≡◌, IfOk};
ghost use Rattle.scr_replica.specs.OneCore.{course};

use super::{Case, FOUR, plan_of, settings};
use crate::returning::{Returning, take_home};
use crate::workers::claim;
use crate::{OpenGate, VerdictLane};
use scr_ddos::Ddos;
use scr_feed::{Feed, Step};
use scr_log::Logs;
use scr_plan::{Given, RunPlan};
use scr_program::{PASS, Program};
use scr_replica::{Outlet, run_core};
use scr_wire::{Message, encode};
use std::alloc::Global;
use std::sync::Wait;
use std::test::Fail;

// Four packets on one core, over a link that does nothing.
const ALONE: Case = Case {
    cores: 1,
    drops: b"",
    ..FOUR
};

fn pass_at(number: u32) -> Given {
    Given {
        number,
        verdict: PASS,
    }
}

// Feeds the lanes until a lane is full or all is fed.
fn feed_all<R: Wait>(rt: &R, feed: &mut Feed<'_>) -> Result<(), Fail> {
    for _ in 0..10_000 {
        match feed.step(rt)? {
            Step::Taken | Step::Sent { .. } => {}
            Step::Full { .. } | Step::Done => return Ok(()),
        }
    }
    Err("more steps than a short run has".into())
}

// The verdicts of the one core of a short run, as a core that keeps them makes them.
fn verdicts_of<P: Program, R: Wait>(
    rt: &R,
    alloc: Global,
    settings: &P::Settings,
    plan: &RunPlan,
) -> Result<Vec<Given>, Fail>
    ensures { IfOk result (λ it. it.items ≡ course (P.verdict_after settings.now) plan.now 0) }
{
    let (logs, mut free) = Logs::make(alloc, plan, 1_024)?;
    let (mut feed, ends) = Feed::make(alloc, plan, 1_024)?;
    feed_all(rt, &mut feed)?;
    let Some(lane) = ends.into_iter().next() else {
        return Err("a lane".into());
    };
    let Some(pass) = claim(&logs, &mut free, 0) else {
        return Err("a pass".into());
    };
    match run_core::<P, OpenGate, R>(rt, alloc, settings, lane, pass, &logs, &OpenGate) {
        Ok(kept) => Ok(kept.verdicts),
        Err(_) => Err("a core that is not halted".into()),
    }
}

#[test]
fn a_full_verdict_lane_gives_the_verdict_back(rt: HostRuntime) -> Result<(), Fail> {
    let plan = plan_of(rt.alloc(), &ALONE)?;
    let settings = settings();
    let verdicts = verdicts_of::<Ddos, _>(&rt, rt.alloc(), &settings, &plan)?;
    let first = *verdicts.get(0).ok_or("a verdict")?;
    let second = *verdicts.get(1).ok_or("a second")?;
    let (mut send, mut receive) = VerdictLane::make::<Ddos>(rt.alloc(), &settings, &plan, 0, 1)?;
    assert_eq!(rt; first, pass_at(1));
    assert_eq!(rt; second, pass_at(2));
    assert_eq!(rt; send.push(&rt, first), Ok(()));
    assert_eq!(rt; send.push(&rt, second), Err(second));
    assert_eq!(rt; receive.pop(&rt), Some(first));
    assert_eq!(rt; receive.pop(&rt), None);
    Ok(())
}

#[test]
fn packets_go_home(rt: HostRuntime) -> Result<(), Fail> {
    let alloc = rt.alloc();
    let (mut out, mut spent) = Returning::home(alloc, Vec::<Given>::new(alloc))?;
    for number in 1..=1_025u32 {
        out.take_back(encode(alloc, &Message::Beacon { number })?);
    }
    for number in 1..=1_024u32 {
        let packet = spent.pop().ok().ok_or("a packet")?;
        assert!(rt; packet.bytes() == encode(alloc, &Message::Beacon { number })?.bytes());
    }
    assert!(rt; spent.pop().is_err(), "one that found no room is not there");
    Ok(())
}

#[test]
fn all_that_came_home_is_taken(rt: HostRuntime) -> Result<(), Fail> {
    let alloc = rt.alloc();
    let (mut first, home) = Returning::home(alloc, Vec::<Given>::new(alloc))?;
    let (mut second, other) = Returning::home(alloc, Vec::<Given>::new(alloc))?;
    for number in 1..=1_024u32 {
        first.take_back(encode(alloc, &Message::Beacon { number })?);
    }
    second.take_back(encode(alloc, &Message::Beacon { number: 1 })?);
    let mut spent = [home, other];
    take_home(&mut spent);
    for home in &mut spent {
        assert!(rt; home.pop().is_err(), "none is left");
    }
    Ok(())
}
