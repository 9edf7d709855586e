//! Runs that write the lines of their verdicts, beside runs by phases.
ghost use Rattle.std.specs.Prelude.{◌≤◌};
ghost use Rattle.scr_log.specs.Layout.{most_slots};

use super::{CASES, Case, FOUR, plan_of, settings};
use crate::{OpenGate, RunStop, Streamed, run_streamed};
use scr_base::{MemSink, SureSink};
use scr_ddos::Ddos;
use scr_plan::Given;
use scr_program::Program;
use scr_replica::{Gathered, run_phases};
use scr_report::write_line;
use std::alloc::Global;
use std::process::Abort;
use std::sync::Wait;
use std::test::Fail;
use std::thread::Threads;

// The lines of these verdicts.
fn lines_of(alloc: Global, verdicts: &[Given]) -> Result<SureSink, Fail> {
    let mut lines = SureSink::new(alloc, usize::MAX);
    for given in verdicts {
        let name = Ddos::name_of(given.verdict).ok_or("a name")?;
        write_line(name, given.number, &mut lines)?;
    }
    Ok(lines)
}

// A run beside the run by phases.
fn assert_found(
    rt: &impl Abort,
    alloc: Global,
    streamed: &Streamed,
    by_phases: &Gathered,
) -> Result<(), Fail> {
    assert_eq!(rt; streamed.delivered as usize, by_phases.verdicts.len());
    assert_eq!(rt; streamed.cores.as_slice(), by_phases.cores.as_slice());
    assert_eq!(rt; streamed.flows, by_phases.flows);
    let mut totals = vec![in alloc; 0u64; streamed.totals.len()]?;
    for given in &by_phases.verdicts {
        if let Some(total) = totals.get_mut(usize::from(given.verdict.0)) {
            *total = total.saturating_add(1);
        }
    }
    assert_eq!(rt; streamed.totals.as_slice(), totals.as_slice());
    Ok(())
}

// Runs a case with its lines, and compares with the run by phases.
fn assert_lines<R: Threads + Wait + Abort + Sync>(
    rt: &R,
    alloc: Global,
    case: &Case,
    ring: u32,
) -> Result<(), Fail>
    requires some_slots { 1 ≤ ring }
    requires few_slots { ring ≤ most_slots }
{
    let plan = plan_of(alloc, case)?;
    let settings = settings();
    let by_phases = run_phases::<Ddos>(alloc, &settings, &plan)?;
    let mut out = SureSink::new(alloc, 7);
    let streamed = run_streamed::<Ddos, OpenGate, SureSink, R>(
        rt, alloc, &settings, &plan, ring, &OpenGate, &mut out,
    );
    match streamed {
        Ok(streamed) => assert_found(rt, alloc, &streamed, &by_phases)?,
        Err(_) => return Err("a run".into()),
    }
    assert_eq!(rt;
        out.written(),
        lines_of(alloc, &by_phases.verdicts)?.written()
    );
    Ok(())
}

#[test]
fn lines_come_in_the_order_of_the_frames(rt: HostRuntime) -> Result<(), Fail> {
    for case in CASES {
        assert_lines(&rt, rt.alloc(), &case, 1_024)?;
        assert_lines(&rt, rt.alloc(), &case, 1)?;
    }
    Ok(())
}

// Runs a case over a sink whose call of this number fails. True where the run was done before that call.
fn assert_stops<R: Threads + Wait + Abort + Sync>(
    rt: &R,
    alloc: Global,
    case: &Case,
    ring: u32,
    limit: usize,
    failing: u64,
) -> Result<bool, Fail>
    requires limit { 1 ≤ limit }
    requires some_slots { 1 ≤ ring }
    requires few_slots { ring ≤ most_slots }
{
    let plan = plan_of(alloc, case)?;
    let settings = settings();
    let by_phases = run_phases::<Ddos>(alloc, &settings, &plan)?;
    let lines = lines_of(alloc, &by_phases.verdicts)?;
    let mut out = MemSink::new(alloc, limit, vec![in alloc; failing; 1]?);
    let streamed = run_streamed::<Ddos, OpenGate, MemSink, R>(
        rt, alloc, &settings, &plan, ring, &OpenGate, &mut out,
    );
    match streamed {
        Ok(_) => {
            assert_eq!(rt; out.written(), lines.written());
            Ok(true)
        }
        Err(stop) => {
            assert_eq!(rt; stop, RunStop::WriteFault);
            assert!(rt; lines.written().starts_with(out.written()));
            assert!(rt; out.written().len() < lines.written().len());
            Ok(false)
        }
    }
}

// How many times a run writes: it is done where a later call of its sink would fail.
fn writes_of<R: Threads + Wait + Abort + Sync>(
    rt: &R,
    alloc: Global,
    case: &Case,
    ring: u32,
    limit: usize,
) -> Result<u64, Fail>
    requires limit { 1 ≤ limit }
    requires some_slots { 1 ≤ ring }
    requires few_slots { ring ≤ most_slots }
{
    for failing in 1..100 {
        if assert_stops(rt, alloc, case, ring, limit, failing)? {
            return Ok(failing - 1);
        }
    }
    Err("a run that is done".into())
}

#[test]
fn a_failed_write_stops_the_run(rt: HostRuntime) -> Result<(), Fail> {
    // The lines of the second case fill a batch, so that the first writes come while the run goes on.
    let long = Case {
        frames: 7_000,
        ..FOUR
    };
    assert_eq!(rt; writes_of(&rt, rt.alloc(), &FOUR, 1, 7)?, 3);
    assert_eq!(rt; writes_of(&rt, rt.alloc(), &long, 1_024, 40_000)?, 3);
    Ok(())
}
