use super::link_of;
use std::test::Fail;

// Ranges of one step that overlap, touch, hold one another, go through other remainders, or turn up in no order.
const OVERLAPPING: [&[u8]; 7] = [
    b"",
    b"3-9,5-20,18-18,1-1,40-1000000000",
    b"2-20/2,4-9/2,8-31/2,3-30/2,33-40/2",
    b"1-9/3,10-20/3,7-12/3,2-50/3,5-5/7,5-60/7",
    b"30-60/4,2-90/4,1-3/4,62-70/4",
    b"60-60,60-60,1-1000000000/59,59-64/5,59-61/5",
    b"64-64,65-65,1-2/1000000000",
];

#[test]
fn all_fates_are_those_of_each_frame(rt: HostRuntime) -> Result<(), Fail> {
    for text in OVERLAPPING {
        for (drops, repeats) in [(text, b"4-6".as_slice()), (b"4-6".as_slice(), text)] {
            let link = link_of(rt.alloc(), drops, repeats, b"2:9,64:1,65:2").ok_or("a link")?;
            for count in [0, 1, 64] {
                let fates = link.fates(rt.alloc(), count)?;
                assert_eq!(rt; fates.len(), count, "of {text:?}");
                for (n, fate) in (1..).zip(fates.iter()) {
                    assert_eq!(rt; *fate, link.fate(n), "at {n} of {text:?}");
                }
            }
        }
    }
    Ok(())
}
