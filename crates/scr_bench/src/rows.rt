//! Made-up rows, and the plans of them.
ghost use Rattle.std.specs.Prelude.{◌≡◌, ◌≤◌, length, IfOk};

use scr_base::{OutOfMemory, Row};
use scr_plan::{Drops, Link, RunPlan};
use std::alloc::Global;

const SOURCES: u32 = 50;

/// Row n of those that are sequenced or shared, counted from 0: fifty sources take turns.
pub fn made_up(n: u32) -> Row {
    Row {
        w0: 0,
        w1: u64::from(n % SOURCES),
        w2: 0,
        w3: 0,
        w4: 3,
        w5: u64::from(n),
        w6: 60,
    }
}

fn rows_of(alloc: Global, count: u32) -> Result<Vec<Row>, OutOfMemory>
    ensures { IfOk result (λ rows. length rows.items ≡ count) }
{
    let mut rows = Vec::with_capacity(alloc, count as usize)?;
    for n in 0..count {
        rows.push(made_up(n))?;
    }
    Ok(rows)
}

/// A plan of so many rows for these cores. A frame carries its own packet alone, and none is dropped.
pub fn plan_of(alloc: Global, cores: u32, count: u32) -> Result<RunPlan, OutOfMemory>
    requires a_core { 1 ≤ cores }
    requires few_cores { cores ≤ 16 }
    requires few_rows { count ≤ 1000000 }
    ensures cores { IfOk result (λ plan. plan.cores ≡ cores) }
    ensures alone { IfOk result (λ plan. plan.history ≡ 0) }
    ensures rows { IfOk result (λ plan. length plan.rows ≡ count) }
{
    let rows = rows_of(alloc, count)?;
    let link = Link::dropping(alloc, Drops::none(alloc));
    Ok(RunPlan::make(rows, cores, 0, link))
}
