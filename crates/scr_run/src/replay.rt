ghost use Rattle.std.specs.Prelude.{true};
ghost use Rattle.std.specs.Io.KnownBytes.{IsAtEnd};
ghost use Rattle.scr_run.specs.Rules.{ruled_by};
ghost use Rattle.scr_run.specs.RunReport.{plan_text};
ghost use Rattle.scr_run.specs.Asked.{IsOfStream};
ghost use Rattle.scr_run.specs.Ends.{Ends, ended};

use crate::host::Host;
use crate::planned::{Manner, write_plan};
use crate::status::Status;
use scr_base::{Sink, Source};
use scr_program::Program;
use scr_replica::Gate;
use scr_stream::read_stream;
use scr_words::Shape;
use std::sync::Wait;
use std::thread::Threads;

/// Reads a stream of the program with this number to its end, and lets the cores that it names take it; how long their logs
/// are, and whether they are threads, is of the shape. It may wait for threads.
pub(crate) fn run_replay<P: Program, S: Source, O: Sink, G: Gate + Sync, R: Threads + Wait + Sync>(
    host: &Host<'_, R, G>,
    code: u8,
    settings: &P::Settings,
    shape: &Shape,
    stream: &mut S,
    out: &mut O,
) -> Result<(), Status>
    ensures ends { Ends (IsOfStream code (plan_text (ruled_by (P.row_of settings.now) (P.verdict_after settings.now) (P.count_after settings.now) P.verdict_names) true) (S.left stream.old))
        (Unit {0}) (IsAtEnd (S.left stream.new)) O.written (S.faults stream.old) (S.faults stream.new) O.faults O.wants out.old out.new (ended result) }
{
    let plan = read_stream(host.alloc, code, stream)?;
    let manner = Manner {
        ring: shape.ring,
        threads: shape.threads,
        with_verdicts: true,
    };
    write_plan::<P, O, G, R>(host, settings, &plan, manner, out)
}
