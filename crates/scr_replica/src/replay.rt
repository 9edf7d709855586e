ghost use Rattle.std.specs.Prelude.{◌≡◌, ◌+◌, ◌<◌, ℕ, length, IfSome, IfNone, IfOk, Some, slice_index_or};
ghost use Rattle.std.specs.Option.{option_copied};
ghost use Rattle.scr_replica.specs.OneCore.{kept_row};
ghost use Rattle.scr_replica.specs.Entries.{row_in};
ghost use Rattle.scr_replica.specs.Told.{untold, AllFinal, row_at};
ghost use Rattle.scr_replica.specs.Answers.{core_answer};

use crate::applying::{NONE, apply, count, keep};
use crate::entry::Entry;
use crate::gathered::CoreResult;
use crate::listener::Listener;
use scr_base::{OutOfMemory, Row};
use scr_plan::{RunPlan, core_of};
use scr_program::Program;
use std::alloc::Global;

// The row of the packet at this place that one of these cores knows.
fn first_row(cores: &[Listener], place: usize) -> Option<&Row>
    requires { (core : ℕ) → core < length cores.now → place < length (slice_index_or cores.now core untold).known }
    ensures some { IfSome result (λ row. (core : ℕ) × (core < length cores.now) × (row_at cores.now core place ≡ Some row.now)) }
    ensures none { IfNone result ((core : ℕ) → core < length cores.now → row_at cores.now core place ≡ None) }
{
    for core in cores {
        if let Some(row) = core.entries()[place].row() {
            return Some(row);
        }
    }
    None
}

// The row of the packet at this place that any core knows. The core whose turn it was is asked first: it mostly knows.
fn any_row<'a>(plan: &RunPlan, cores: &'a [Listener], place: usize) -> Option<&'a Row>
    requires known { AllFinal plan.now cores.now }
    requires of_the_run { place < length plan.now.rows }
    ensures { option_copied result ≡ kept_row plan.now (place + 1) }
{
    let count = plan.cores();
    let turn = core_of(place as u32 + 1, count) as usize;
    match first_row(&cores[turn..], place) {
        Some(row) => Some(row),
        None => first_row(&cores[..turn], place),
    }
}

// The row of the packet at this place, where it is kept: the core's own entry has it, or a peer knows it.
fn resolved<'a>(
    plan: &RunPlan,
    cores: &'a [Listener],
    entry: &'a Entry,
    place: usize,
) -> Option<&'a Row>
    requires known { AllFinal plan.now cores.now }
    requires of_the_run { place < length plan.now.rows }
    requires entry { IfSome (row_in entry.now) (λ row. kept_row plan.now (place + 1) ≡ Some row) }
    ensures { option_copied result ≡ kept_row plan.now (place + 1) }
{
    match entry.row() {
        Some(row) => Some(row),
        None => any_row(plan, cores, place),
    }
}

/// One core's way through the packets: it applies the row of each that it or a peer knows, once and in order.
pub(crate) fn replay<P: Program>(
    alloc: Global,
    settings: &P::Settings,
    plan: &RunPlan,
    cores: &[Listener],
    core: u32,
) -> Result<CoreResult, OutOfMemory>
    requires known { AllFinal plan.now cores.now }
    requires of_the_run { core < plan.now.cores }
    ensures { IfOk result (λ it. it ≡ core_answer (P.verdict_after settings.now) (P.count_after settings.now) plan.now core) }
{
    let mut state = P::fresh(alloc, settings)?;
    let most = plan.rows().len() / plan.cores() as usize + 1;
    let mut verdicts = Vec::with_capacity(alloc, most)?;
    let mut counts = NONE;
    for (place, entry) in cores[core as usize].entries().iter().enumerate() {
        let row = resolved(plan, cores, entry, place);
        let own = entry.is_delivered();
        count(&mut counts, own, entry.row().is_some(), row.is_some());
        let number = place as u32 + 1;
        let given = apply::<P>(settings, &mut state, number, row, own)?;
        keep(&mut verdicts, given)?;
    }
    let flows = P::flows(settings, &state);
    Ok(CoreResult {
        core,
        verdicts,
        counts,
        flows,
    })
}
