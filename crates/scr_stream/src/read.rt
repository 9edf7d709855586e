ghost use Rattle.std.specs.Prelude.{◌≡◌, ◌≤◌, drop, Option, Some, Ok, Err, IfOk, IfErr, IfSome, OnOk, OnErr};
ghost use Rattle.std.specs.Io.KnownBytes.{IsAtEnd};
ghost use Rattle.scr_pcap.specs.Taken.{GivesAtMost};
ghost use Rattle.scr_plan.specs.Limits.{most_cores, longest_history};
ghost use Rattle.scr_stream.specs.Tests.{shape_of};
ghost use Rattle.scr_stream.specs.Reading.{IsStream, IsReading};
ghost use Rattle.scr_stream.specs.Taken.{IsFound, CountsReadFault, most_bytes};

use crate::error::StreamError;
use crate::format::STREAM_HEADER;
use crate::header::{Shape, shape_of};
use crate::taken::{LONGEST, Taken};
use scr_base::Source;
use scr_pcap::fill;
use scr_plan::{Link, RunPlan};
use std::alloc::Global;

/// Reads a stream of this program to its end, and answers the plan that it stands for: the numbers without a frame are
/// missing, and the row of a packet that no frame carries is zero. At an error the first test that fails, a fault of the
/// source or want of memory.
pub fn read_stream<S: Source>(
    alloc: Global,
    program: u8,
    source: &mut S,
) -> Result<RunPlan, StreamError>
    ensures plan { IfSome (S.left source.old) (λ bytes. IfOk result (λ plan. IsStream program bytes plan)) }
    ensures end { OnOk result (IsAtEnd (S.left source.new)) }
    ensures refused { IfSome (S.left source.old) (λ bytes. IfErr result (λ error. IsFound error → IsReading program bytes (Err error))) }
    ensures few { OnErr result (GivesAtMost most_bytes (S.left source.old) (S.left source.new)) }
    ensures counts { CountsReadFault S.faults source.old source.new result }
{
    let shape = take_shape(program, source)?;
    let history = u32::from(shape.history);
    let mut taken = Taken::new(alloc);
    let mut buffer = [0; LONGEST];
    let mut more = true;
    while more {
        more = taken.take_entry(history, source, &mut buffer)?;
    }
    let link = Link::lost(alloc, taken.missing);
    Ok(RunPlan::make(taken.rows, u32::from(shape.cores), history, link))
}

// Takes the header of a stream.
fn take_shape<S: Source>(program: u8, source: &mut S) -> Result<Shape, StreamError>
    ensures shape { IfSome (S.left source.old) (λ bytes. IfOk result (λ shape.
        (shape_of program bytes ≡ Ok shape) × (S.left source.new ≡ Some (drop 8 bytes)))) }
    ensures ranges { IfOk result (λ shape. (1 ≤ shape.cores) × (shape.cores ≤ most_cores) × (shape.history ≤ longest_history)) }
    ensures refused { IfSome (S.left source.old) (λ bytes. IfErr result (λ error. IsFound error → shape_of program bytes ≡ Err error)) }
    ensures few { GivesAtMost 8 (S.left source.old) (S.left source.new) }
    ensures counts { CountsReadFault S.faults source.old source.new result }
{
    let mut header = [0; STREAM_HEADER];
    let count = fill(source, &mut header)?;
    shape_of(program, &header[..count])
}
