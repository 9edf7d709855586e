ghost use Rattle.std.specs.Prelude.{◌≡◌, ◌≢◌, ◌≤◌, ℕ, List, length, map, MatchOption, IfOk, IfSome, IfNone, Some, slice_get};
ghost use Rattle.scr_base.specs.declared.row.Row.{Row};
ghost use Rattle.scr_base.specs.declared.row.Verdict.{Verdict};
ghost use Rattle.scr_replica.specs.OneCore.{verdicts};
ghost use Rattle.scr_replica.specs.Answers.{courses, core_answers, answer};

use crate::gathered::{CoreResult, Gathered};
use scr_base::OutOfMemory;
use scr_plan::{CoreCounts, Given, RunPlan, core_of};
use std::alloc::Global;

// The verdicts of a core.
fn verdicts_of(it: &CoreResult) -> &[Given]
    ensures { result.now ≡ it.now.verdicts }
{
    &it.verdicts
}

// The verdict at a place, where it is that of frame n.
fn verdict_at(own: &[Given], place: usize, n: u32) -> Option<Given>
    ensures some { IfSome result (λ given. (slice_get own.now place ≡ Some given) × (given.number ≡ n)) }
    ensures none { IfNone result (MatchOption (slice_get own.now place) (Unit {0}) (λ given. given.number ≢ n)) }
{
    match own.get(place) {
        Some(given) if given.number == n => Some(*given),
        _ => None,
    }
}

// The verdicts of all cores in the order of the frames: frame n's is the next one of its core.
fn merged(alloc: Global, plan: &RunPlan, results: &[CoreResult]) -> Result<Vec<Given>, OutOfMemory>
    requires { length results.now ≡ plan.now.cores }
    ensures { (verdict_after : List Row → Row → Verdict) → map (λ it. it.verdicts) results.now ≡ courses verdict_after plan.now → IfOk result (λ merged. merged.items ≡ verdicts verdict_after plan.now) }
{
    let mut places = vec![in alloc; 0usize; results.len()]?;
    let mut merged = Vec::new(alloc);
    for n in 1..plan.rows().len() as u32 + 1 {
        let core = core_of(n, plan.cores()) as usize;
        let own = verdicts_of(&results[core]);
        if let Some(given) = verdict_at(own, places[core], n) {
            merged.push(given)?;
            places[core] += 1;
        }
    }
    Ok(merged)
}

// The counts of all cores.
fn counts_of_all(alloc: Global, results: &[CoreResult]) -> Result<Vec<CoreCounts>, OutOfMemory>
    ensures { IfOk result (λ counts. counts.items ≡ map (λ it. it.counts) results.now) }
{
    let mut counts = Vec::new(alloc);
    for result in results {
        counts.push(result.counts)?;
    }
    Ok(counts)
}

/// What all cores make of a run, from what each of them makes of it.
pub fn gather(
    alloc: Global,
    plan: &RunPlan,
    results: &[CoreResult],
) -> Result<Gathered, OutOfMemory>
    requires count { length results.now ≡ plan.now.cores }
    requires some { 1 ≤ length results.now }
    ensures { (verdict_after : List Row → Row → Verdict) (count_after : List Row → ℕ) → results.now ≡ core_answers verdict_after count_after plan.now → IfOk result (λ it. it ≡ answer verdict_after count_after plan.now) }
{
    let verdicts = merged(alloc, plan, results)?;
    let cores = counts_of_all(alloc, results)?;
    let first = &results[0];
    Ok(Gathered {
        verdicts,
        cores,
        flows: first.flows,
    })
}
