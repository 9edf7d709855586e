ghost use Rattle.std.specs.Prelude.{◌≡◌, ℕ, ◌<◌, ◌^◌, length, Result, IfErr, MatchResult};
ghost use Rattle.scr_report.specs.declared.report.ReportError.{ReportError};
ghost use Rattle.scr_report.specs.Outcome.{Outcome};
ghost use Rattle.scr_report.specs.Grammar.{ReadsAs};
ghost use Rattle.scr_report.specs.Memory.{IsOfMemory, IsOfText};
ghost use Rattle.scr_report.specs.Parts.{ReadsVerdicts, ReadsFrames, LacksFrames, ReadsCores, ReadsFlows, LacksFlows, ReadsTotals, LacksTotal};

use crate::line::{core_in, flows_in, frames_in, total_in, verdict_in};
use crate::lines::Lines;
use crate::names::Names;
use crate::report::{FrameCounts, Report, ReportError};
use scr_plan::{CoreCounts, Given};
use std::alloc::Global;

/// How many cores a report may have.
pub(crate) const MOST_CORES: usize = 16;

/// The report that some bytes spell. Otherwise `Line` with the first line that no report has behind the lines before it,
/// or that has no line feed, or `Ended` with the line that is missing where the bytes end behind allowed lines.
pub fn read_report(alloc: Global, names: &Names, bytes: &[u8]) -> Result<Report, ReportError>
    requires { length bytes.now < 2 ^ 32 }
    ensures answer { ReadsAs names.now bytes.now result }
    ensures only { IfErr result IsOfText → (other : Result Outcome ReportError) → IfErr other IsOfText
        → ReadsAs names.now bytes.now other → other ≡ result }
{
    let mut lines = Lines::of(bytes);
    let verdicts = read_verdicts(alloc, names, &mut lines)?;
    let counts = read_frames(&mut lines)?;
    let cores = read_cores(alloc, &mut lines)?;
    let flows = read_flows(&mut lines)?;
    let totals = read_totals(alloc, names, &mut lines)?;
    if !lines.is_at_end() {
        return Err(lines.refusal());
    }
    Ok(Report {
        verdicts,
        frames: counts.frames,
        delivered: counts.delivered,
        kept: counts.kept,
        cores,
        flows,
        totals,
    })
}

// The verdict lines, as many as there are.
fn read_verdicts(alloc: Global, names: &Names, lines: &mut Lines) -> Result<Vec<Given>, ReportError>
    ensures { MatchResult result (λ verdicts. ReadsVerdicts names.now lines.old lines.new verdicts.items)
        IsOfMemory }
{
    let mut verdicts = Vec::new(alloc);
    let mut last = 0;
    while let Some(given) = verdict_in(names, last, lines.line()) {
        lines.pass();
        verdicts.push(given)?;
        last = given.number;
    }
    Ok(verdicts)
}

fn read_frames(lines: &mut Lines) -> Result<FrameCounts, ReportError>
    ensures { MatchResult result (λ counts. ReadsFrames lines.old lines.new counts.frames counts.delivered counts.kept)
        (λ error. LacksFrames lines.old error) }
{
    let Some(counts) = frames_in(lines.line()) else {
        return Err(lines.refusal());
    };
    lines.pass();
    Ok(counts)
}

// The core lines, as many as there are.
fn read_cores(alloc: Global, lines: &mut Lines) -> Result<Vec<CoreCounts>, ReportError>
    ensures { MatchResult result (λ cores. ReadsCores lines.old lines.new cores.items)
        IsOfMemory }
{
    let mut cores = Vec::new(alloc);
    for core in 0..MOST_CORES {
        let Some(counts) = core_in(core as u32, lines.line()) else {
            break;
        };
        lines.pass();
        cores.push(counts)?;
    }
    Ok(cores)
}

fn read_flows(lines: &mut Lines) -> Result<u64, ReportError>
    ensures { MatchResult result (λ flows. ReadsFlows lines.old lines.new flows) (λ error. LacksFlows lines.old error) }
{
    let Some(flows) = flows_in(lines.line()) else {
        return Err(lines.refusal());
    };
    lines.pass();
    Ok(flows)
}

// The line of each name.
fn read_totals(alloc: Global, names: &Names, lines: &mut Lines) -> Result<Vec<u64>, ReportError>
    ensures { MatchResult result
        (λ totals. ReadsTotals names.now lines.old lines.new totals.items × (length totals.items ≡ length names.now))
        (λ error. IsOfText error → LacksTotal names.now lines.old lines.new error) }
{
    let mut totals = Vec::new(alloc);
    for place in 0..names.len() {
        let Some(total) = total_in(names.get(place), lines.line()) else {
            return Err(lines.refusal());
        };
        lines.pass();
        totals.push(total)?;
    }
    Ok(totals)
}
