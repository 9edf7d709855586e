ghost use Rattle.std.specs.Prelude.{◌≡◌, ◌≤◌, length, map, IfOk};
ghost use Rattle.std.specs.List.{range_with_len};
ghost use Rattle.scr_log.specs.Layout.{most_slots};
ghost use Rattle.scr_plan.specs.Counts.{delivered_count, kept_count, plan_counts};
ghost use Rattle.scr_plan.specs.Plan.{frame_count};
ghost use Rattle.scr_replica.specs.OneCore.{verdicts, entries};
ghost use Rattle.scr_report.specs.Outcome.{report_of};
ghost use Rattle.scr_run.specs.Rules.{ruled_by};
ghost use Rattle.scr_run.specs.RunReport.{plan_text};
ghost use Rattle.scr_run.specs.Ends.{Ends, IsText, ended};

use crate::found::write_found;
use crate::host::Host;
use crate::names::names_of;
use crate::status::Status;
use crate::streaming::write_streamed;
use scr_base::{OutOfMemory, Sink};
use scr_crew::run_threads;
use scr_plan::{CoreCounts, RunPlan};
use scr_program::Program;
use scr_replica::{Gate, Gathered, run_phases};
use scr_report::{FrameCounts, Report};
use std::alloc::Global;
use std::sync::Wait;
use std::thread::Threads;

/// How the cores of a plan take it, and what is told of them.
#[derive(Clone, Copy)]
pub(crate) struct Manner {
    /// How many slots the log of a core has.
    pub(crate) ring: u32,
    /// Whether each core has a thread of its own.
    pub(crate) threads: bool,
    /// Whether the report has the lines of the verdicts.
    pub(crate) with_verdicts: bool,
    ghost some_slots: { 1 ≤ ring },
    ghost few_slots: { ring ≤ most_slots },
}

/// Lets the cores of a plan take it, and writes the report of what they gathered. It may wait for threads.
pub(crate) fn write_plan<P: Program, O: Sink, G: Gate + Sync, R: Threads + Wait + Sync>(
    host: &Host<'_, R, G>,
    settings: &P::Settings,
    plan: &RunPlan,
    manner: Manner,
    out: &mut O,
) -> Result<(), Status>
    ensures ends { Ends (IsText (plan_text (ruled_by (P.row_of settings.now) (P.verdict_after settings.now) (P.count_after settings.now) P.verdict_names) manner.with_verdicts plan.now))
        ⊥ (Unit {0}) O.written 0 0 O.faults O.wants out.old out.new (ended result) }
{
    let Manner {
        ring,
        threads,
        with_verdicts,
    } = manner;
    if threads && with_verdicts {
        return write_streamed::<P, O, G, R>(host, settings, plan, ring, out);
    }
    let gathered = gathered_by::<P, G, R>(host, settings, plan, ring, threads)?;
    let report = report_on::<P>(host.alloc, plan, gathered)?;
    write_found::<P, O>(host.alloc, &report, with_verdicts, out)
}

// What the cores gather, in threads or in turns.
fn gathered_by<P: Program, G: Gate + Sync, R: Threads + Wait + Sync>(
    host: &Host<'_, R, G>,
    settings: &P::Settings,
    plan: &RunPlan,
    ring: u32,
    threads: bool,
) -> Result<Gathered, OutOfMemory>
    requires some_slots { 1 ≤ ring }
    requires few_slots { ring ≤ most_slots }
    ensures verdicts { IfOk result (λ it. it.verdicts ≡ verdicts (P.verdict_after settings.now) plan.now) }
    ensures cores { IfOk result (λ it. it.cores ≡ map (plan_counts plan.now) (range_with_len 0 plan.now.cores)) }
    ensures flows { IfOk result (λ it. it.flows ≡ entries (P.count_after settings.now) plan.now) }
{
    if threads {
        run_threads::<P, G, R>(host.rt, host.alloc, settings, plan, ring, host.gate)
    } else {
        run_phases::<P>(host.alloc, settings, plan)
    }
}

// What the cores gathered, as a report.
fn report_on<P: Program>(
    alloc: Global,
    plan: &RunPlan,
    gathered: Gathered,
) -> Result<Report, OutOfMemory>
    requires cores { gathered.cores ≡ map (plan_counts plan.now) (range_with_len 0 plan.now.cores) }
    requires delivered { length gathered.verdicts ≡ delivered_count plan.now }
    ensures { IfOk result (λ report. report ≡ report_of P.verdict_names gathered.verdicts
        (frame_count plan.now)
        (delivered_count plan.now) (kept_count plan.now)
        gathered.cores gathered.flows) }
{
    let names = names_of::<P>(alloc)?;
    let kept = kept_of(plan, &gathered.cores);
    let Gathered {
        verdicts,
        cores,
        flows,
    } = gathered;
    let counts = FrameCounts {
        frames: plan.rows().len() as u32,
        delivered: verdicts.len() as u32,
        kept,
    };
    Report::of(alloc, &names, verdicts, counts, cores, flows)
}

// How many packets are kept: all but those that a core skipped.
pub(crate) fn kept_of(plan: &RunPlan, cores: &[CoreCounts]) -> u32
    requires cores { cores.now ≡ map (plan_counts plan.now) (range_with_len 0 plan.now.cores) }
    ensures { result ≡ kept_count plan.now }
{
    let frames = plan.rows().len() as u32;
    frames - cores[0].skipped
}
