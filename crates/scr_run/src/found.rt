ghost use Rattle.std.specs.Prelude.{◌≡◌, ◌<◌, All, length};
ghost use Rattle.scr_report.specs.Outcome.{report_text, totals_of};
ghost use Rattle.scr_run.specs.Ends.{Ends, IsText, ended};

use crate::names::names_of;
use crate::status::Status;
use scr_base::Sink;
use scr_program::Program;
use scr_report::{Report, write_report};
use std::alloc::Global;

/// Writes what a run found, behind a capture that was read to its end.
pub(crate) fn write_found<P: Program, O: Sink>(
    alloc: Global,
    report: &Report,
    with_verdicts: bool,
    out: &mut O,
) -> Result<(), Status>
    requires named { All (λ given. given.verdict.0 < length P.verdict_names) report.now.verdicts }
    requires counted { report.now.totals ≡ totals_of P.verdict_names report.now.verdicts }
    ensures ends { Ends (IsText (report_text P.verdict_names report.now with_verdicts)) ⊥ (Unit {0}) O.written 0 0 O.faults O.wants out.old out.new (ended result) }
{
    let names = names_of::<P>(alloc)?;
    write_report(&names, report, with_verdicts, out)?;
    Ok(())
}
