ghost use Rattle.std.specs.Prelude.{◌≡◌, ◌≢◌, ℕ, ◌<◌, ◌≤◌, ◌^◌, ◌++◌, List, All, true, false, IsTrue, MatchBool, length, ◌==◌};
ghost use Rattle.std.specs.List.{list_any, concat};
ghost use Rattle.scr_plan.specs.declared.given.Given.{Given};
ghost use Rattle.scr_report.specs.Text.{name_at};
ghost use Rattle.scr_report.specs.Outcome.{Outcome, verdict_lines, report_text};
ghost use Rattle.scr_report.specs.Grammar.{SpellsReport, AreCounts};
ghost use Rattle.scr_report.specs.ReadBack.{ArePlain, Grow, IsPlain};

use crate::names::Names;
use crate::reading::MOST_CORES;
use crate::report::Report;
use scr_plan::{CoreCounts, Given};

/// Whether a report fits these names, and is read back as itself once it was written with its verdicts: the names
/// differ and hold no line feed, there are at most 16 cores, and the frames are numbered from 1 on in growing order.
pub fn is_plain(names: &Names, report: &Report) -> bool
    ensures answer { MatchBool result (IsPlain names.now report.now) (IsPlain names.now report.now → ⊥) }
    ensures read_back { IsTrue result → SpellsReport names.now (report_text names.now report.now true) report.now }
{
    let count = names.len();
    if report.totals.len() != count || report.cores.len() > MOST_CORES {
        return false;
    }
    tell_bounds(
        report.frames,
        report.delivered,
        report.kept,
        report.flows,
        &report.totals,
    );
    tell_counts(&report.cores);
    are_named(&report.verdicts, count) && grow(&report.verdicts) && are_plain(names)
}

// Whether each verdict is below the count of names.
fn are_named(verdicts: &[Given], count: usize) -> bool
    ensures { MatchBool result (All (λ given. given.verdict.0 < count) verdicts.now)
        (All (λ given. given.verdict.0 < count) verdicts.now → ⊥) }
{
    for given in verdicts {
        if usize::from(given.verdict.0) >= count {
            return false;
        }
    }
    true
}

// Whether frames are numbered from 1 on, in growing order.
fn grow(verdicts: &[Given]) -> bool
    ensures answer { MatchBool result (Grow 0 verdicts.now) (Grow 0 verdicts.now → ⊥) }
    ensures fit { IsTrue result → All (λ given. given.number < 2 ^ 32) verdicts.now }
{
    let mut last = 0;
    for given in verdicts {
        if given.number <= last {
            return false;
        }
        last = given.number;
    }
    true
}

// Whether the names differ and hold no line feed.
fn are_plain(names: &Names) -> bool
    ensures { MatchBool result (ArePlain names.now) (ArePlain names.now → ⊥) }
{
    for later in 0..names.len() {
        if has_feed(names.get(later)) || has_before(names, later) {
            return false;
        }
    }
    true
}

fn has_feed(name: &str) -> bool
    ensures { result ≡ list_any (λ byte. byte == 10) name.now }
{
    name.as_bytes().iter().any(|byte| *byte == b'\n')
}

// Whether the name at a place stands at an earlier one too.
fn has_before(names: &Names, later: usize) -> bool
    requires { later < length names.now }
    ensures { MatchBool result ((k : ℕ) × (k < later) × (name_at names.now k ≡ name_at names.now later))
        ((k : ℕ) → k < later → name_at names.now k ≢ name_at names.now later) }
{
    for earlier in 0..later {
        if names.get(earlier) == names.get(later) {
            return true;
        }
    }
    false
}

// Each number is within its type, which a contract that sees it as a number doesn't know by itself.
fn tell_bounds(frames: u32, delivered: u32, kept: u32, flows: u64, totals: &[u64])
    ensures frames { frames < 2 ^ 32 }
    ensures delivered { delivered < 2 ^ 32 }
    ensures kept { kept < 2 ^ 32 }
    ensures flows { flows < 2 ^ 64 }
    ensures totals { All (λ total. total < 2 ^ 64) totals.now }
{}

fn tell_counts(cores: &[CoreCounts])
    ensures { All AreCounts cores.now }
{
    for counts in cores {
        tell_count(*counts);
    }
}

fn tell_count(counts: CoreCounts)
    ensures { AreCounts counts }
{
    let _first = (counts.delivered, counts.carried);
    let _last = (counts.recovered, counts.skipped);
}

/// A report with the lines of its verdicts is these lines, and then the report without them.
pub fn verdicts_then_rest()
    ensures { (names : List (List ℕ)) (outcome : Outcome)
        → report_text names outcome true ≡ concat (verdict_lines names outcome) ++ report_text names outcome false }
{}
