ghost use Rattle.std.specs.Prelude.{◌<◌};
ghost use Rattle.std.specs.Io.KnownBytes.{IsAtEnd};
ghost use Rattle.scr_run.specs.Rules.{ruled_by};
ghost use Rattle.scr_run.specs.RunReport.{sprayed_text};
ghost use Rattle.scr_run.specs.Asked.{IsOfCapture};
ghost use Rattle.scr_run.specs.Ends.{Ends, ended};

use crate::engine::rows_read;
use crate::status::Status;
use scr_base::{Sink, Source};
use scr_plan::RunPlan;
use scr_program::Program;
use scr_stream::write_stream;
use scr_words::Shape;
use std::alloc::Global;

/// Reads a capture whole, and writes what the cores of a shape are delivered of it, as the stream of the program with this
/// number. It waits for nothing.
pub(crate) fn run_spray<P: Program, S: Source, O: Sink>(
    alloc: Global,
    code: u8,
    settings: &P::Settings,
    shape: Shape,
    capture: &mut S,
    out: &mut O,
) -> Result<(), Status>
    requires { code < 5 }
    ensures ends { Ends (IsOfCapture (sprayed_text code (ruled_by (P.row_of settings.now) (P.verdict_after settings.now) (P.count_after settings.now) P.verdict_names) shape) (S.left capture.old))
        (Unit {0}) (IsAtEnd (S.left capture.new)) O.written (S.faults capture.old) (S.faults capture.new) O.faults O.wants out.old out.new (ended result) }
{
    let rows = rows_read::<P, S>(alloc, settings, capture)?;
    let plan = RunPlan::make(rows, shape.cores, shape.history, shape.link);
    write_stream(alloc, code, &plan, out)?;
    Ok(())
}
