use scr_base::OutOfMemory;
use std::test::Fail;

mod crossing;
mod numbers;

use numbers::{Counting, taken, through_threads};

#[test]
fn a_full_lane_and_an_empty_one(rt: HostRuntime) -> Result<(), OutOfMemory> {
    let (mut counting, mut taker) = Counting::make(rt.alloc(), 2)?;
    assert!(rt; counting.send(&rt) && counting.send(&rt));
    assert!(rt; !counting.send(&rt), "a third is refused");
    assert_eq!(rt; taken(&rt, &mut taker), Some(0));
    assert_eq!(rt; taken(&rt, &mut taker), Some(1));
    assert_eq!(rt; taken(&rt, &mut taker), None);
    assert!(rt; counting.send(&rt) && counting.send(&rt));
    assert_eq!(rt; taken(&rt, &mut taker), Some(2));
    assert_eq!(rt; taken(&rt, &mut taker), Some(3));
    Ok(())
}

#[test]
fn a_whole_lane_between_two_threads(rt: HostRuntime) -> Result<(), Fail> {
    let (counting, taker) = Counting::make(rt.alloc(), 2)?;
    let passed = through_threads(&rt, counting, taker).ok_or("no thread")?;
    assert!(rt; passed);
    Ok(())
}
