//! Tables of few flows followed by hand, and the largest.
ghost use Rattle.std.specs.Prelude.{◌≤◌};
ghost use Rattle.scr_program.specs.declared.table.TheConstants.{MOST_FLOWS};

use super::{DATAGRAM, FIRST, FIRST_V6, SECOND};
use crate::{Address, FiveTuple, FlowTable, MOST_FLOWS, fields_of};
use scr_base::OutOfMemory;
use std::alloc::Global;
use std::process::Abort;
use std::test::Fail;

// What is done with a table, and what must be seen of it.
#[derive(Clone, Copy)]
enum Step {
    Set(Address, u64),
    Prepare(Address),
    // A look finds this entry.
    Look(Address, Option<u64>),
    // An update finds this entry, and adds one to it, or to 10.
    Add(Address, Option<u64>),
    // An update finds the first entry and leaves the second; where that is none, it leaves all as it was.
    Update(Address, Option<u64>, Option<u64>),
    // So many flows have an entry.
    Len(u32),
    // There is room for any key.
    Room,
}

// Takes the steps with a new table of so many flows at most.
fn follow(rt: &impl Abort, alloc: Global, flows: u32, steps: &[Step]) -> Result<(), OutOfMemory>
    requires some { 1 ≤ flows }
    requires few { flows ≤ MOST_FLOWS }
{
    let mut table = FlowTable::make(alloc, flows)?;
    let next = |known: Option<u64>| (known.unwrap_or(10).saturating_add(1), known);
    for step in steps {
        match *step {
            Step::Set(key, entry) => table.set(key, entry)?,
            Step::Prepare(key) => table.prepare(key)?,
            Step::Look(key, entry) => assert_eq!(rt; table.look(&key), entry),
            Step::Add(key, known) => assert_eq!(rt; table.update(&key, next)?, known),
            Step::Update(key, known, entry) => {
                assert_eq!(rt; table.update_where(&key, |known| (entry, known))?, known);
            }
            Step::Len(flows) => assert_eq!(rt; table.len(), flows),
            Step::Room => assert!(rt; table.has_room()),
        }
    }
    Ok(())
}

#[test]
fn families_are_other_keys(rt: HostRuntime) -> Result<(), OutOfMemory> {
    let steps = [
        Step::Set(FIRST, 1),
        Step::Set(FIRST_V6, 2),
        Step::Look(FIRST, Some(1)),
        Step::Look(FIRST_V6, Some(2)),
        Step::Len(2),
    ];
    follow(&rt, rt.alloc(), 4, &steps)
}

#[test]
fn the_least_recent_flow_goes(rt: HostRuntime) -> Result<(), OutOfMemory> {
    let steps = [
        Step::Set(FIRST, 1),
        Step::Set(SECOND, 2),
        Step::Look(FIRST, Some(1)),
        Step::Set(FIRST, 3),
        Step::Look(SECOND, Some(2)),
        Step::Set(FIRST_V6, 4),
        Step::Look(SECOND, None),
        Step::Look(FIRST, Some(3)),
        Step::Look(FIRST_V6, Some(4)),
        Step::Len(2),
    ];
    follow(&rt, rt.alloc(), 2, &steps)
}

#[test]
fn one_flow_at_most(rt: HostRuntime) -> Result<(), OutOfMemory> {
    let steps = [
        Step::Set(FIRST, 1),
        Step::Set(SECOND, 2),
        Step::Look(FIRST, None),
        Step::Look(SECOND, Some(2)),
        Step::Len(1),
    ];
    follow(&rt, rt.alloc(), 1, &steps)
}

#[test]
fn an_update_sees_the_entry(rt: HostRuntime) -> Result<(), OutOfMemory> {
    let steps = [
        Step::Add(FIRST, None),
        Step::Add(FIRST, Some(11)),
        Step::Add(SECOND, None),
        Step::Add(FIRST, Some(12)),
        // FIRST was used last, so SECOND goes where a ready key gets its entry.
        Step::Prepare(FIRST_V6),
        Step::Add(FIRST_V6, None),
        Step::Look(FIRST_V6, Some(11)),
        Step::Look(FIRST, Some(13)),
        Step::Look(SECOND, None),
    ];
    follow(&rt, rt.alloc(), 2, &steps)
}

#[test]
fn a_ready_key_is_set(rt: HostRuntime) -> Result<(), OutOfMemory> {
    let steps = [
        Step::Prepare(FIRST),
        Step::Look(FIRST, None),
        Step::Len(0),
        Step::Set(FIRST, 1),
        Step::Look(FIRST, Some(1)),
        Step::Len(1),
        Step::Prepare(SECOND),
        Step::Prepare(SECOND),
        Step::Look(FIRST, Some(1)),
        Step::Look(SECOND, None),
        Step::Set(SECOND, 2),
        Step::Look(FIRST, None),
        Step::Look(SECOND, Some(2)),
    ];
    follow(&rt, rt.alloc(), 1, &steps)
}

#[test]
fn a_full_table_has_room(rt: HostRuntime) -> Result<(), OutOfMemory> {
    let steps = [
        Step::Room,
        Step::Set(FIRST, 1),
        Step::Set(SECOND, 2),
        Step::Room,
        Step::Prepare(FIRST_V6),
        Step::Set(FIRST_V6, 3),
        Step::Look(FIRST, None),
        Step::Len(2),
    ];
    follow(&rt, rt.alloc(), 2, &steps)
}

#[test]
fn another_key_takes_the_room_back(rt: HostRuntime) -> Result<(), OutOfMemory> {
    let steps = [
        Step::Set(FIRST, 1),
        Step::Prepare(SECOND),
        Step::Prepare(FIRST),
        Step::Prepare(FIRST_V6),
        Step::Set(SECOND, 2),
        Step::Look(FIRST_V6, None),
        Step::Look(FIRST, Some(1)),
        Step::Look(SECOND, Some(2)),
        Step::Len(2),
    ];
    follow(&rt, rt.alloc(), 2, &steps)
}

#[test]
fn a_flow_that_is_made_ready_is_as_before(rt: HostRuntime) -> Result<(), OutOfMemory> {
    let steps = [
        Step::Set(FIRST, 1),
        Step::Set(SECOND, 2),
        Step::Prepare(FIRST),
        Step::Prepare(FIRST),
        Step::Set(FIRST_V6, 3),
        Step::Look(FIRST, None),
        Step::Look(SECOND, Some(2)),
        Step::Prepare(SECOND),
        Step::Update(SECOND, Some(2), Some(2)),
        Step::Set(FIRST, 4),
        Step::Look(FIRST_V6, None),
        Step::Look(SECOND, Some(2)),
        Step::Len(2),
    ];
    follow(&rt, rt.alloc(), 2, &steps)
}

#[test]
fn no_entry_changes_nothing(rt: HostRuntime) -> Result<(), OutOfMemory> {
    let steps = [
        Step::Set(FIRST, 1),
        Step::Set(SECOND, 2),
        Step::Update(FIRST, Some(1), None),
        Step::Update(FIRST_V6, None, None),
        Step::Update(FIRST_V6, None, Some(3)),
        Step::Look(FIRST, None),
        Step::Look(SECOND, Some(2)),
        Step::Update(FIRST_V6, Some(3), Some(4)),
        Step::Look(FIRST_V6, Some(4)),
    ];
    follow(&rt, rt.alloc(), 2, &steps)
}

#[test]
fn five_tuples_are_keys(rt: HostRuntime) -> Result<(), OutOfMemory> {
    let key = FiveTuple::of(&fields_of(&DATAGRAM, 0));
    let back = FiveTuple {
        source: key.destination,
        destination: key.source,
        ..key
    };
    let other_port = FiveTuple {
        destination_port: 54,
        ..key
    };
    let mut table = FlowTable::make(rt.alloc(), 3)?;
    table.set(key, 1u64)?;
    table.set(back, 2)?;
    table.set(other_port, 3)?;
    assert_eq!(rt;
        (table.look(&key), table.look(&back), table.look(&other_port)),
        (Some(1), Some(2), Some(3))
    );
    Ok(())
}

#[test]
fn the_largest_table_takes_another_flow(rt: HostRuntime) -> Result<(), OutOfMemory> {
    let mut table = FlowTable::make(rt.alloc(), MOST_FLOWS)?;
    for number in 0..=65_536u32 {
        let key = Address {
            family: 0,
            value: u128::from(number),
        };
        table.set(key, number)?;
    }
    let first = Address {
        family: 0,
        value: 0,
    };
    assert_eq!(rt; table.len(), 65_536);
    assert_eq!(rt; table.look(&first), None);
    table.prepare(first)?;
    table.set(first, 7)?;
    assert_eq!(rt; (table.look(&first), table.len()), (Some(7), 65_536));
    Ok(())
}
