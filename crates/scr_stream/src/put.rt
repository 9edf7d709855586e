//! The messages of a stream, put one after another into a batch.
ghost use Rattle.std.specs.Prelude.{◌≡◌, ◌≤◌, ◌<◌, ◌+◌, ℕ, length, slice_index_or, OnErr};
ghost use Rattle.std.specs.List.{flat_map, range_with_len};
ghost use Rattle.scr_base.specs.Causes.{CountsError};
ghost use Rattle.scr_base.specs.Streams.{BatchesText};
ghost use Rattle.scr_plan.specs.Delays.{greatest_delay};
ghost use Rattle.scr_plan.specs.Link.{fate_of};
ghost use Rattle.scr_plan.specs.declared.link.Fate.{Fate};
ghost use Rattle.scr_plan.specs.Plan.{frame_count};
ghost use Rattle.scr_plan.specs.Delivered.{delivers};
ghost use Rattle.scr_wire.specs.Lane.{frame};
ghost use Rattle.scr_wire.specs.Spelling.{spelling, rows_bytes};
ghost use Rattle.scr_stream.specs.Streamed.{frame_at};

use crate::format::{message_header, row_bytes};
use scr_base::{Batch, Row, Sink, SinkError};
use scr_plan::{Fate, RunPlan, carried_from};
use scr_wire::MessageKind;

// Whether frame n is delivered, by what becomes of it on the link: one that isn't late always is.
pub(crate) fn is_delivered(plan: &RunPlan, n: u32, fate: Fate) -> bool
    requires a_frame { 1 ≤ n }
    requires of_the_run { n ≤ frame_count plan.now }
    requires fate { fate ≡ fate_of plan.now.link n }
    ensures { result ≡ delivers plan.now n }
{
    match fate {
        Fate::Lost => false,
        _ => fate.delay() == 0 || is_in_time(plan, n),
    }
}

// Whether a frame comes in time.
fn is_in_time(plan: &RunPlan, n: u32) -> bool
    requires a_frame { 1 ≤ n }
    requires of_the_run { n ≤ frame_count plan.now }
    ensures { result ≡ delivers plan.now n }
{
    let count = plan.rows().len() as u32;
    plan.link().delivered(plan.cores(), count, n)
}

// Puts rows, one after another.
fn put_rows<O: Sink>(batch: &mut Batch, out: &mut O, rows: &[Row]) -> Result<(), SinkError>
    ensures text { BatchesText (O.written out.old) (O.written out.new) batch.old batch.new result (rows_bytes rows.now) }
    ensures cause { CountsError O.faults O.wants out.old out.new result }
{
    for row in rows {
        batch.put(out, &row_bytes(row))?;
    }
    Ok(())
}

// Puts the message of frame n: its header, and the rows that it carries.
fn put_frame<O: Sink>(
    batch: &mut Batch,
    out: &mut O,
    plan: &RunPlan,
    n: u32,
) -> Result<(), SinkError>
    requires a_frame { 1 ≤ n }
    requires of_the_run { n ≤ frame_count plan.now }
    ensures text { BatchesText (O.written out.old) (O.written out.new) batch.old batch.new result (spelling (frame plan.now n)) }
    ensures cause { CountsError O.faults O.wants out.old out.new result }
{
    let first = carried_from(n, plan.history()) as usize;
    let rows = &plan.rows()[first - 1..n as usize];
    let header = message_header(MessageKind::Frame, n, rows.len() as u16);
    batch.put(out, &header)?;
    put_rows(batch, out, rows)
}

// Puts the messages of the frames that are delivered, by what becomes of each frame on the link.
pub(crate) fn put_frames<O: Sink>(
    batch: &mut Batch,
    out: &mut O,
    plan: &RunPlan,
    fates: &[Fate],
) -> Result<(), SinkError>
    requires count { length fates.now ≡ frame_count plan.now }
    requires fates { (k : ℕ) (d : Fate) → k < frame_count plan.now → slice_index_or fates.now k d ≡ fate_of plan.now.link (k + 1) }
    ensures text { BatchesText (O.written out.old) (O.written out.new) batch.old batch.new result
        (flat_map (frame_at plan.now) (range_with_len 1 (frame_count plan.now))) }
    ensures cause { CountsError O.faults O.wants out.old out.new result }
{
    let count = plan.rows().len() as u32;
    for i in 0..count {
        put_frame_at(batch, out, plan, i + 1, fates[i as usize])?;
    }
    Ok(())
}

// Puts the message of frame n, where it is delivered.
fn put_frame_at<O: Sink>(
    batch: &mut Batch,
    out: &mut O,
    plan: &RunPlan,
    n: u32,
    fate: Fate,
) -> Result<(), SinkError>
    requires a_frame { 1 ≤ n }
    requires of_the_run { n ≤ frame_count plan.now }
    requires fate { fate ≡ fate_of plan.now.link n }
    ensures text { BatchesText (O.written out.old) (O.written out.new) batch.old batch.new result (frame_at plan.now n) }
    ensures cause { CountsError O.faults O.wants out.old out.new result }
{
    if is_delivered(plan, n, fate) {
        put_frame(batch, out, plan, n)
    } else {
        Ok(())
    }
}
