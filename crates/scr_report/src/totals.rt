ghost use Rattle.std.specs.Prelude.{◌≡◌, IfOk};
ghost use Rattle.scr_report.specs.Outcome.{totals_of};

use crate::names::Names;
use scr_base::OutOfMemory;
use scr_plan::Given;
use std::alloc::Global;

// How often each name was given, in the order of the names. A verdict beyond the names is counted for none.
pub(crate) fn totals_of(
    alloc: Global,
    names: &Names,
    verdicts: &[Given],
) -> Result<Vec<u64>, OutOfMemory>
    ensures { IfOk result (λ totals. totals.items ≡ totals_of names.now verdicts.now) }
{
    let mut totals = vec![in alloc; 0u64; names.len()]?;
    for given in verdicts {
        let place = usize::from(given.verdict.0);
        if place < totals.len() {
            totals[place] += 1;
        }
    }
    Ok(totals)
}
