//! Runs in threads beside the same runs by phases, and gates that see the threads beside each other.
ghost use Rattle.std.specs.Prelude.{◌≤◌};
ghost use Rattle.scr_log.specs.Layout.{most_slots};

use crate::{OpenGate, run_threads};
use scr_base::Row;
use scr_ddos::{Ddos, DdosSettings};
use scr_plan::{Delays, Drops, Link, RunPlan};
use scr_program::ZERO_ROW;
use scr_replica::{Gate, Gathered, run_phases};
use std::alloc::Global;
use std::process::Abort;
use std::sync::Wait;
use std::test::Fail;
use std::thread::Threads;

mod early;
mod leaving;
mod meeting;
mod refusing;
mod streaming;

use meeting::Meeting;
use refusing::without_the_last;

// A datagram from 10.0.0.1.
const A: Row = Row {
    w1: 0x0A00_0001,
    w4: 3,
    ..ZERO_ROW
};

// A run of so many packets `A`, and the link that it goes over.
#[derive(Clone, Copy)]
struct Case<'a> {
    frames: u32,
    cores: u32,
    history: u32,
    drops: &'a [u8],
    repeats: &'a [u8],
    delays: &'a [u8],
}

// Four packets on two cores, of which the second is dropped and carried by no other frame.
const FOUR: Case = Case {
    frames: 4,
    cores: 2,
    history: 0,
    drops: b"2",
    repeats: b"",
    delays: b"",
};

const CASES: [Case; 8] = [
    FOUR,
    Case { history: 1, ..FOUR },
    Case { cores: 1, ..FOUR },
    Case {
        frames: 0,
        cores: 16,
        history: 15,
        ..FOUR
    },
    Case {
        frames: 600,
        drops: b"2-600/2",
        ..FOUR
    },
    Case {
        frames: 1000,
        cores: 4,
        history: 3,
        drops: b"3-1000/3",
        ..FOUR
    },
    Case {
        frames: 600,
        cores: 3,
        history: 1,
        drops: b"7-600/7",
        repeats: b"1-600/5",
        delays: b"1:3,256:1,598:1000",
    },
    Case {
        frames: 3000,
        cores: 2,
        repeats: b"1-3000",
        delays: b"3000:9",
        ..FOUR
    },
];

// A plan of these rows, where the numbers are in range.
fn plan_of(alloc: Global, case: &Case) -> Result<RunPlan, Fail> {
    let rows = vec![in alloc; A; case.frames as usize]?;
    let drops = Drops::read(alloc, case.drops)?;
    let repeats = Drops::read(alloc, case.repeats)?;
    let delays = Delays::read(alloc, case.delays)?;
    if rows.len() > 1_000_000 || case.cores < 1 || case.cores > 16 || case.history > 64 {
        return Err("a plan".into());
    }
    let link = Link::make(alloc, drops, repeats, delays);
    Ok(RunPlan::make(rows, case.cores, case.history, link))
}

fn settings() -> DdosSettings {
    let mut settings = DdosSettings::new(4096);
    let _set = settings.set(b"threshold", b"2");
    settings
}

fn assert_same(rt: &impl Abort, one: &Gathered, other: &Gathered) {
    assert_eq!(rt; one.verdicts.as_slice(), other.verdicts.as_slice());
    assert_eq!(rt; one.cores.as_slice(), other.cores.as_slice());
    assert_eq!(rt; one.flows, other.flows);
}

// Runs a case in threads, and compares with the run by phases.
fn assert_case<G: Gate + Sync, R: Threads + Wait + Abort + Sync>(
    rt: &R,
    alloc: Global,
    case: &Case,
    ring: u32,
    gate: &G,
) -> Result<(), Fail>
    requires some_slots { 1 ≤ ring }
    requires few_slots { ring ≤ most_slots }
{
    let plan = plan_of(alloc, case)?;
    let settings = settings();
    let by_phases = run_phases::<Ddos>(alloc, &settings, &plan)?;
    let in_threads = run_threads::<Ddos, G, R>(rt, alloc, &settings, &plan, ring, gate)?;
    assert_same(rt, &in_threads, &by_phases);
    Ok(())
}

#[test]
fn threads_give_what_phases_give(rt: HostRuntime) -> Result<(), Fail> {
    for case in CASES {
        assert_case(&rt, rt.alloc(), &case, 1_024, &OpenGate)?;
        assert_case(&rt, rt.alloc(), &case, 1, &OpenGate)?;
    }
    Ok(())
}

#[test]
fn two_cores_are_inside_at_once(rt: HostRuntime) -> Result<(), Fail> {
    let gate = Meeting::new();
    assert_case(&rt, rt.alloc(), &FOUR, 1_024, &gate)?;
    assert!(rt; gate.all_met());
    assert_eq!(rt; gate.entered(), [1, 1, 0]);
    assert_eq!(rt; gate.left(), [1, 1, 0]);
    assert_eq!(rt; gate.published(), 8, "four by each core");
    Ok(())
}

#[test]
fn one_core_gets_no_thread(rt: HostRuntime) -> Result<(), Fail> {
    let gate = Meeting::new();
    assert_case(&rt, rt.alloc(), &Case { cores: 1, ..FOUR }, 1, &gate)?;
    assert_eq!(rt; gate.entered(), [0, 0, 0]);
    assert_eq!(rt; gate.left(), [0, 0, 0]);
    Ok(())
}

#[test]
fn a_core_without_a_thread_halts_the_others(rt: HostRuntime) -> Result<(), Fail> {
    for case in [FOUR, Case { cores: 1, ..FOUR }, Case { cores: 4, ..FOUR }] {
        let plan = plan_of(rt.alloc(), &case)?;
        let gathered = without_the_last::<Ddos, _>(&rt, rt.alloc(), &settings(), &plan)?;
        assert!(rt; gathered.is_none(), "it goes by phases");
    }
    Ok(())
}
