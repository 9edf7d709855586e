ghost use Rattle.std.specs.Prelude.{◌≡◌, ◌≤◌, [], true, map};
ghost use Rattle.std.specs.List.{range_with_len};
ghost use Rattle.scr_log.specs.Layout.{most_slots};
ghost use Rattle.scr_plan.specs.Counts.{kept_count, plan_counts};
ghost use Rattle.scr_plan.specs.Plan.{frame_count};
ghost use Rattle.scr_report.specs.Outcome.{report_text};
ghost use Rattle.scr_run.specs.Rules.{ruled_by};
ghost use Rattle.scr_run.specs.RunReport.{outcome_of};
ghost use Rattle.scr_run.specs.Ends.{Ends, IsText, ended};

use crate::host::Host;
use crate::names::names_of;
use crate::planned::kept_of;
use crate::status::Status;
use scr_base::Sink;
use scr_crew::{Streamed, run_streamed};
use scr_plan::RunPlan;
use scr_program::Program;
use scr_replica::Gate;
use scr_report::{Report, write_report};
use std::alloc::Global;
use std::sync::Wait;
use std::thread::Threads;

// What a run found whose verdicts have left, as a report without them.
fn rest_on(alloc: Global, plan: &RunPlan, streamed: Streamed) -> Report
    requires { streamed.cores.items ≡ map (plan_counts plan.now) (range_with_len 0 plan.now.cores) }
    ensures { result ≡ record {
      verdicts = [];
      frames = frame_count plan.now;
      delivered = streamed.delivered;
      kept = kept_count plan.now;
      cores = streamed.cores.items;
      flows = streamed.flows;
      totals = streamed.totals.items;
    } }
{
    let kept = kept_of(plan, &streamed.cores);
    Report {
        verdicts: Vec::new(alloc),
        frames: plan.rows().len() as u32,
        delivered: streamed.delivered,
        kept,
        cores: streamed.cores,
        flows: streamed.flows,
        totals: streamed.totals,
    }
}

/// The cores of a plan in threads, whose verdicts leave as lines while they run. The rest of the report comes behind them.
pub(crate) fn write_streamed<P: Program, O: Sink, G: Gate + Sync, R: Threads + Wait + Sync>(
    host: &Host<'_, R, G>,
    settings: &P::Settings,
    plan: &RunPlan,
    ring: u32,
    out: &mut O,
) -> Result<(), Status>
    requires some_slots { 1 ≤ ring }
    requires few_slots { ring ≤ most_slots }
    ensures ends { Ends (IsText (report_text P.verdict_names (outcome_of (ruled_by (P.row_of settings.now) (P.verdict_after settings.now) (P.count_after settings.now) P.verdict_names) plan.now) true))
        ⊥ (Unit {0}) O.written 0 0 O.faults O.wants out.old out.new (ended result) }
{
    let names = names_of::<P>(host.alloc)?;
    let streamed = run_streamed::<P, G, O, R>(
        host.rt, host.alloc, settings, plan, ring, host.gate, out,
    )?;
    let report = rest_on(host.alloc, plan, streamed);
    write_report(&names, &report, false, out)?;
    Ok(())
}
