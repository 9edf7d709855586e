ghost use Rattle.std.specs.Prelude.{◌≡◌, ◌≢◌, ℕ, ◌<◌, ◌^◌, ◌∷◌, [], MatchOption, MatchBool};
ghost use Rattle.scr_plan.specs.declared.given.Given.{Given};
ghost use Rattle.scr_plan.specs.declared.counting.CoreCounts.{CoreCounts};
ghost use Rattle.scr_report.specs.Text.{verdict_line, frames_line, core_line, flows_line, total_line};
ghost use Rattle.scr_report.specs.Grammar.{MayFollow, AreCounts};

use crate::names::Names;
use crate::number::{before_feed, behind, number_behind};
use crate::report::FrameCounts;
use scr_plan::{CoreCounts, Given};

// Whether a line ends here.
fn ends(rest: &[u8]) -> bool
    ensures { MatchBool result (rest.now ≡ 10 ∷ []) (rest.now ≢ 10 ∷ []) }
{
    rest == b"\n".as_slice()
}

// The verdict of a line that may stand behind verdicts up to a frame.
pub fn verdict_in(names: &Names, last: u32, line: &[u8]) -> Option<Given>
    ensures { MatchOption result
        ((given : Given) → MayFollow names.now last given → line.now ≢ verdict_line names.now given)
        (λ given. MayFollow names.now last given × (line.now ≡ verdict_line names.now given)) }
{
    let (number, rest) = number_behind(b"", u32::MAX.into(), line)?;
    let verdict = names.verdict(before_feed(behind(b" ", rest)?)?)?;
    let number = number as u32;
    if number <= last {
        return None;
    }
    Some(Given { number, verdict })
}

// The counts of a frames line.
pub fn frames_in(line: &[u8]) -> Option<FrameCounts>
    ensures { MatchOption result
        ((frames delivered kept : ℕ) → frames < 2 ^ 32 → delivered < 2 ^ 32 → kept < 2 ^ 32
        → line.now ≢ frames_line frames delivered kept)
        (λ counts. line.now ≡ frames_line counts.frames counts.delivered counts.kept) }
{
    let most = u32::MAX.into();
    let (frames, rest) = number_behind(b"frames ", most, line)?;
    let (delivered, rest) = number_behind(b" delivered ", most, rest)?;
    let (kept, rest) = number_behind(b" kept ", most, rest)?;
    if !ends(rest) {
        return None;
    }
    Some(FrameCounts {
        frames: frames as u32,
        delivered: delivered as u32,
        kept: kept as u32,
    })
}

// The counts of the line of this core.
pub fn core_in(core: u32, line: &[u8]) -> Option<CoreCounts>
    ensures { MatchOption result
        ((counts : CoreCounts) → AreCounts counts → line.now ≢ core_line (core, counts))
        (λ counts. line.now ≡ core_line (core, counts)) }
{
    let most = u32::MAX.into();
    let (number, rest) = number_behind(b"core ", most, line)?;
    let (delivered, rest) = number_behind(b" delivered ", most, rest)?;
    let (carried, rest) = number_behind(b" carried ", most, rest)?;
    let (recovered, rest) = number_behind(b" recovered ", most, rest)?;
    let (skipped, rest) = number_behind(b" skipped ", most, rest)?;
    if !ends(rest) || number != u64::from(core) {
        return None;
    }
    Some(CoreCounts {
        delivered: delivered as u32,
        carried: carried as u32,
        recovered: recovered as u32,
        skipped: skipped as u32,
    })
}

// The flows of a flows line.
pub fn flows_in(line: &[u8]) -> Option<u64>
    ensures { MatchOption result
        ((flows : ℕ) → flows < 2 ^ 64 → line.now ≢ flows_line flows)
        (λ flows. line.now ≡ flows_line flows) }
{
    let (flows, rest) = number_behind(b"flows ", u64::MAX, line)?;
    if !ends(rest) {
        return None;
    }
    Some(flows)
}

// The total of the line of this name.
pub fn total_in(name: &str, line: &[u8]) -> Option<u64>
    ensures { MatchOption result
        ((total : ℕ) → total < 2 ^ 64 → line.now ≢ total_line (name.now, total))
        (λ total. line.now ≡ total_line (name.now, total)) }
{
    let rest = behind(name.as_bytes(), behind(b"verdict ", line)?)?;
    let (total, rest) = number_behind(b" ", u64::MAX, rest)?;
    if !ends(rest) {
        return None;
    }
    Some(total)
}
