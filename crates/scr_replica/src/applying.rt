ghost use Rattle.std.specs.Prelude.{◌≡◌, ◌+◌, ◌<◌, ◌^◌, ◌++◌, List, [], ◌&&◌, not, true, option_to_list, is_some, OnOk, OnErr, IfOk, if◌then◌else◌};
ghost use Rattle.std.specs.Option.{option_copied, option_map};
ghost use Rattle.scr_base.specs.declared.row.Row.{Row};

use scr_base::{OutOfMemory, Row};
use scr_plan::{CoreCounts, Given};
use scr_program::Program;

/// No packets yet.
pub(crate) const NONE: CoreCounts = CoreCounts {
    delivered: 0,
    carried: 0,
    recovered: 0,
    skipped: 0,
};

/// Counts one packet more: whether its own frame was delivered to the core, whether the core knows it, and whether it is
/// kept.
#[inline]
pub(crate) fn count(counts: &mut CoreCounts, own: bool, known: bool, kept: bool)
    requires few_delivered { counts.old.delivered + 1 < 2 ^ 32 }
    requires few_carried { counts.old.carried + 1 < 2 ^ 32 }
    requires few_recovered { counts.old.recovered + 1 < 2 ^ 32 }
    requires few_skipped { counts.old.skipped + 1 < 2 ^ 32 }
    ensures delivered { counts.new.delivered ≡ counts.old.delivered + (if own then 1 else 0) }
    ensures carried { counts.new.carried ≡ counts.old.carried + (if known then 1 else 0) }
    ensures recovered { counts.new.recovered ≡ counts.old.recovered + (if kept && not known then 1 else 0) }
    ensures skipped { counts.new.skipped ≡ counts.old.skipped + (if not kept then 1 else 0) }
{
    counts.delivered += u32::from(own);
    counts.carried += u32::from(known);
    counts.recovered += u32::from(kept && !known);
    counts.skipped += u32::from(!kept);
}

/// Applies the row of a packet, where there is one, and gives its verdict, where the packet's own frame was delivered.
#[inline]
pub(crate) fn apply<P: Program>(
    settings: &P::Settings,
    state: &mut P::State,
    number: u32,
    row: Option<&Row>,
    own: bool,
) -> Result<Option<Given>, OutOfMemory>
    ensures state { (rows : List Row) → P.StandsFor settings.now state.old rows → OnOk result (P.StandsFor settings.now state.new (rows ++ option_to_list (option_copied row.entry))) }
    ensures given { (rows : List Row) → P.StandsFor settings.now state.old rows → IfOk result (λ given. option_to_list given ≡ (if own then option_to_list (option_map (λ row. record { number = number; verdict = P.verdict_after settings.now rows row }) (option_copied row.entry)) else [])) }
    ensures err { (rows : List Row) → P.StandsFor settings.now state.old rows → OnErr result (P.StandsFor settings.now state.new rows) }
{
    let Some(row) = row else {
        return Ok(None);
    };
    let verdict = P::step(settings, state, row)?;
    if own {
        Ok(Some(Given { number, verdict }))
    } else {
        Ok(None)
    }
}

/// Keeps a verdict, where there is one.
#[inline]
pub(crate) fn keep(verdicts: &mut Vec<Given>, given: Option<Given>) -> Result<(), OutOfMemory>
    ensures { OnOk result (verdicts.new.items ≡ verdicts.old.items ++ option_to_list given) }
{
    if let Some(given) = given {
        verdicts.push(given)?;
    }
    Ok(())
}
