//! What no clause says: that calls succeed where there is memory, that a flow keeps its place, and that a new one takes that
//! of the one that goes.

use super::*;
use scr_base::OutOfMemory;
use std::alloc::Global;
use std::test::Fail;

#[test]
fn places_stay(rt: HostRuntime) -> Result<(), Fail> {
    let places = places_of_three(rt.alloc());
    assert_eq!(rt; places, Ok([Some(0), Some(1), Some(2)]));
    Ok(())
}

// The places of three flows, of which the first was used last.
fn places_of_three(alloc: Global) -> Result<[Option<usize>; 3], OutOfMemory> {
    let mut flows: Flows<u32, u64> = Flows::make(alloc, 3)?;
    for key in [7, 8, 9] {
        enter(&mut flows, key, 1)?;
    }
    enter(&mut flows, 7, 2)?;
    Ok([flows.place_of(&7), flows.place_of(&8), flows.place_of(&9)])
}

#[test]
fn the_place_of_the_last_is_used_again(rt: HostRuntime) -> Result<(), Fail> {
    let places = places_of_a_fourth(rt.alloc());
    assert_eq!(rt; places, Ok([Some(0), None, Some(1)]));
    Ok(())
}

// The places of the first, of the one that was used longest ago, and of the one that came for it.
fn places_of_a_fourth(alloc: Global) -> Result<[Option<usize>; 3], OutOfMemory> {
    let mut flows: Flows<u32, u64> = Flows::make(alloc, 3)?;
    for key in [7, 8, 9] {
        enter(&mut flows, key, 1)?;
    }
    enter(&mut flows, 7, 2)?;
    enter(&mut flows, 10, 1)?;
    Ok([flows.place_of(&7), flows.place_of(&8), flows.place_of(&10)])
}

#[test]
fn one_flow_at_most(rt: HostRuntime) -> Result<(), Fail> {
    let found = places_of_one(rt.alloc());
    assert_eq!(rt; found, Ok(([None, Some(0)], 1)));
    Ok(())
}

// The places of two flows where there may be one, and how many there are.
fn places_of_one(alloc: Global) -> Result<([Option<usize>; 2], u32), OutOfMemory> {
    let mut flows: Flows<u32, u64> = Flows::make(alloc, 1)?;
    enter(&mut flows, 7, 1)?;
    enter(&mut flows, 8, 1)?;
    Ok(([flows.place_of(&7), flows.place_of(&8)], flows.len()))
}

fn enter(flows: &mut Flows<u32, u64>, key: u32, entry: u64) -> Result<(), OutOfMemory> {
    match flows.find(0, &key) {
        Some(place) => flows.use_at(place, entry),
        None => {
            flows.add(key, entry)?;
        }
    }
    Ok(())
}
