ghost use Rattle.std.specs.Prelude.{◌≡◌, ◌≤◌, ◌<◌, ◌+◌, ℕ, length, slice_index_or};
ghost use Rattle.scr_base.specs.Causes.{CountsError};
ghost use Rattle.scr_base.specs.Streams.{WritesText};
ghost use Rattle.scr_plan.specs.Link.{fate_of};
ghost use Rattle.scr_plan.specs.declared.link.Fate.{Fate};
ghost use Rattle.scr_plan.specs.Plan.{frame_count};
ghost use Rattle.scr_stream.specs.Streamed.{streamed};
ghost use Rattle.scr_stream.specs.Causes.{CountsErrorOrNothing};

use crate::format::{message_header, stream_header};
use crate::put::put_frames;
use scr_base::{Batch, Sink, SinkError};
use scr_plan::{Fate, RunPlan};
use scr_wire::MessageKind;
use std::alloc::Global;

/// Appends the stream of a plan: a header, the messages of the frames that are delivered, and the end. At `Err` a front of
/// it was appended, and not all. It takes memory for what becomes of each frame, before it writes anything.
pub fn write_stream<O: Sink>(
    alloc: Global,
    program: u8,
    plan: &RunPlan,
    out: &mut O,
) -> Result<(), SinkError>
    requires { program < 5 }
    ensures text { WritesText (O.written out.old) (O.written out.new) result (streamed program plan.now) }
    ensures cause { CountsErrorOrNothing O.faults O.wants out.old out.new result }
{
    match plan.fates(alloc) {
        Ok(fates) => put_stream(program, plan, &fates, out),
        Err(want) => Err(SinkError::OutOfMemory(want)),
    }
}

// The same, by what becomes of each frame.
fn put_stream<O: Sink>(
    program: u8,
    plan: &RunPlan,
    fates: &[Fate],
    out: &mut O,
) -> Result<(), SinkError>
    requires count { length fates.now ≡ frame_count plan.now }
    requires fates { (k : ℕ) (d : Fate) → k < frame_count plan.now → slice_index_or fates.now k d ≡ fate_of plan.now.link (k + 1) }
    ensures text { WritesText (O.written out.old) (O.written out.new) result (streamed program plan.now) }
    ensures cause { CountsError O.faults O.wants out.old out.new result }
{
    let mut batch = Batch::new();
    let header = stream_header(program, plan.cores() as u8, plan.history() as u8);
    batch.put(out, &header)?;
    put_frames(&mut batch, out, plan, fates)?;
    let end = message_header(MessageKind::End, plan.rows().len() as u32, 0);
    batch.put(out, &end)?;
    batch.finish(out)
}
