ghost use Rattle.std.specs.Prelude.{◌≡◌, ◌≤◌, map, length, IfOk};
ghost use Rattle.std.specs.List.{range_with_len};
ghost use Rattle.scr_plan.specs.Counts.{plan_counts};
ghost use Rattle.scr_log.specs.Layout.{most_slots};
ghost use Rattle.scr_replica.specs.OneCore.{verdicts, entries};
ghost use Rattle.scr_report.specs.Outcome.{totals_of};
ghost use Rattle.scr_crew.specs.Streamed.{StreamsText, CountsStop, lines_of};

use crate::crew::run_taken;
use crate::joining::Tallies;
use crate::lines::Lines;
use crate::run_stop::RunStop;
use scr_base::Sink;
use scr_plan::{CoreCounts, RunPlan};
use scr_program::Program;
use scr_replica::Gate;
use std::alloc::Global;
use std::sync::Wait;
use std::thread::Threads;

/// What a run found whose verdicts have left.
#[derive(Debug, Drop)]
pub struct Streamed {
    /// How many frames were delivered: as many lines were written.
    pub delivered: u32,
    /// How often each name was given, in the order of the names.
    pub totals: Vec<u64>,
    /// What each core did, from core 0 on.
    pub cores: Vec<CoreCounts>,
    /// The entries of the last state, on which all cores agree.
    pub flows: u64,
}

/// A run as [`run_threads`](crate::run_threads) makes it, which writes the lines of its verdicts in the order of the frames
/// while it goes on, or behind it where it goes by phases. At every moment `out` has gained a front of these lines, and all of
/// them at `Ok`.
///
/// # Errors
/// Where a write failed, or there was no memory. `out` has gained a front of the lines then.
pub fn run_streamed<P: Program, G: Gate + Sync, O: Sink, R: Threads + Wait + Sync>(
    rt: &R,
    alloc: Global,
    settings: &P::Settings,
    plan: &RunPlan,
    ring: u32,
    gate: &G,
    out: &mut O,
) -> Result<Streamed, RunStop>
    requires some_slots { 1 ≤ ring }
    requires few_slots { ring ≤ most_slots }
    ensures delivered { IfOk result (λ it. it.delivered ≡ length (verdicts (P.verdict_after settings.now) plan.now)) }
    ensures totals { IfOk result (λ it. it.totals.items ≡ totals_of P.verdict_names (verdicts (P.verdict_after settings.now) plan.now)) }
    ensures cores { IfOk result (λ it. it.cores.items ≡ map (plan_counts plan.now) (range_with_len 0 plan.now.cores)) }
    ensures flows { IfOk result (λ it. it.flows ≡ entries (P.count_after settings.now) plan.now) }
    ensures text { StreamsText (O.written out.old) (O.written out.new) result (lines_of P.verdict_names (verdicts (P.verdict_after settings.now) plan.now)) }
    ensures cause { CountsStop O.faults O.wants out.old out.new result }
{
    // A plan has few rows, so there are few lines.
    let _rows = plan.rows();
    let lines = Lines::<P>::new(alloc)?;
    let (Tallies { cores, flows }, lines) = run_taken::<P, G, Lines<P>, O, R>(
        rt, alloc, settings, plan, ring, gate, lines, out,
    )?;
    let (delivered, totals) = lines.into_counts();
    Ok(Streamed {
        delivered,
        totals,
        cores,
        flows,
    })
}
