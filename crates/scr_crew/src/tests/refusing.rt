//! A run whose last core gets no thread.
use crate::crew::run_crew;
use crate::feeding::Caller;
use crate::joining::Tallies;
use crate::taking::Taking;
use crate::workers::{Crew, claim_all};
use crate::{OpenGate, RunStop};
use scr_feed::Feed;
use scr_log::Logs;
use scr_plan::{Given, RunPlan};
use scr_program::Program;
use std::alloc::Global;
use std::sync::Wait;
use std::thread::Threads;

/// All cores but the last in threads, as where the last thread can't be started.
pub fn without_the_last<P: Program, R: Threads + Wait + Sync>(
    rt: &R,
    alloc: Global,
    settings: &P::Settings,
    plan: &RunPlan,
) -> Result<Option<Tallies>, RunStop> {
    let (logs, mut free) = Logs::make(alloc, plan, 1)?;
    let (feed, ends) = Feed::make(alloc, plan, 1_024)?;
    let crew = claim_all::<P>(alloc, settings, plan, &logs, &mut free, ends)?;
    let Some(
        Crew {
            mut workers,
            verdicts,
            spent,
        },
    ) = crew
    else {
        return Ok(None);
    };
    let last = workers.len().saturating_sub(1);
    workers.truncate(last);
    let taking = Taking::by(alloc, verdicts)?;
    let caller = Caller {
        free,
        feed,
        taking,
        spent,
    };
    let (tallies, _verdicts) = run_crew::<P, OpenGate, Vec<Given>, (), R>(
        rt,
        alloc,
        settings,
        plan,
        &logs,
        &OpenGate,
        caller,
        workers,
        Vec::new(alloc),
        &mut (),
    )?;
    Ok(tallies)
}
