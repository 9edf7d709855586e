mod fates;

use crate::{
    CoreCounts, DelayCause, DelayError, Delays, DropCause, DropError, Drops, Fate, Link, RunPlan,
    carried_from, core_of, counts, kept,
};
use scr_base::{OutOfMemory, Row};
use std::alloc::{AllocError, Global};
use std::test::Fail;

const NINES: &[u8] = b"9999999999999999999999999999999999999999";

// The answer of a text: the cause and the place of its refusal, or nothing where it is read.
fn refusal(alloc: Global, text: &[u8]) -> Result<Option<(DropCause, u64)>, OutOfMemory> {
    match Drops::read(alloc, text) {
        Ok(_) => Ok(None),
        Err(DropError::Refused { cause, place }) => Ok(Some((cause, place))),
        Err(DropError::OutOfMemory(want)) => Err(want),
    }
}

// Texts with the cause and the place of their refusal.
const REFUSALS: [(&[u8], DropCause, u64); 27] = [
    (b",", DropCause::Empty, 0),
    (b"1,,2", DropCause::Empty, 2),
    (b"1-2,", DropCause::Empty, 4),
    (b"-", DropCause::Digit, 0),
    (b"1,2x", DropCause::Digit, 2),
    (b" 1", DropCause::Digit, 0),
    (b"1/2", DropCause::Digit, 0),
    (b"1-2-3", DropCause::Digit, 0),
    (b"1-2/", DropCause::Digit, 0),
    (b"1-2/3/4", DropCause::Digit, 0),
    (b"\xff", DropCause::Digit, 0),
    (b"0", DropCause::Zero, 0),
    (b"12,1-2/000", DropCause::Zero, 3),
    (b"1000000001", DropCause::TooLarge, 0),
    (b"1-2/1000000001", DropCause::TooLarge, 0),
    (NINES, DropCause::TooLarge, 0),
    (b"7-3", DropCause::Range, 0),
    // Several causes in one piece.
    (b"0-x", DropCause::Digit, 0),
    (b"x-0", DropCause::Digit, 0),
    (b"0-1000000001", DropCause::Zero, 0),
    (b"1000000001-0", DropCause::Zero, 0),
    (b"7-3/0", DropCause::Zero, 0),
    (b"1000000001-3", DropCause::TooLarge, 0),
    // Several pieces.
    (b"7-3,0", DropCause::Range, 0),
    (b"0,7-3", DropCause::Zero, 0),
    (b"5,7-3,,", DropCause::Range, 2),
    (b"5,,7-3", DropCause::Empty, 2),
];

#[test]
fn refuses_by_cause_and_place(rt: HostRuntime) -> Result<(), OutOfMemory> {
    for (text, cause, place) in REFUSALS {
        assert_eq!(rt;
            refusal(rt.alloc(), text)?,
            Some((cause, place)),
            "at {text:?}"
        );
    }
    Ok(())
}

// So many pieces `7`, and then this one.
fn pieces(alloc: Global, count: u32, last: &[u8]) -> Result<Vec<u8>, AllocError> {
    let mut text = Vec::new(alloc);
    for _ in 0..count {
        text.extend_from_slice(b"7,")?;
    }
    text.extend_from_slice(last)?;
    Ok(text)
}

#[test]
fn takes_no_piece_more(rt: HostRuntime) -> Result<(), OutOfMemory> {
    let cases: [(u32, &[u8], Option<(DropCause, u64)>); 5] = [
        (255, b"7", None),
        (256, b"7", Some((DropCause::Pieces, 512))),
        (256, b"7-3", Some((DropCause::Range, 512))),
        (256, b"", Some((DropCause::Empty, 512))),
        (300, b"x", Some((DropCause::Pieces, 512))),
    ];
    for (count, last, want) in cases {
        let text = pieces(rt.alloc(), count, last)?;
        assert_eq!(rt;
            refusal(rt.alloc(), &text)?,
            want,
            "at {count} and {last:?}"
        );
    }
    Ok(())
}

#[test]
fn has_numbers_in_steps(rt: HostRuntime) -> Result<(), DropError> {
    assert!(rt; !Drops::none(rt.alloc()).has(1));
    assert!(rt; !Drops::read(rt.alloc(), b"")?.has(1));
    let text = b"3-10/3,20,00000000000000000000000000000000000000000030-0031,1000000000";
    let drops = Drops::read(rt.alloc(), text)?;
    for n in 1..40 {
        let want = matches!(n, 3 | 6 | 9 | 20 | 30 | 31);
        assert_eq!(rt; drops.has(n), want, "at {n}");
    }
    assert!(rt; drops.has(1_000_000_000));
    assert!(rt; !drops.has(999_999_999));
    Ok(())
}

#[test]
fn carries_as_far_back_as_the_history(rt: HostRuntime) -> Result<(), DropError> {
    assert_eq!(rt; core_of(1, 16), 0);
    assert_eq!(rt; core_of(16, 16), 15);
    assert_eq!(rt; core_of(17, 16), 0);
    assert_eq!(rt; carried_from(5, 0), 5);
    assert_eq!(rt; carried_from(65, 64), 1);
    assert_eq!(rt; carried_from(66, 64), 2);
    let up_to_64 = Link::dropping(rt.alloc(), Drops::read(rt.alloc(), b"1-64")?);
    let up_to_65 = Link::dropping(rt.alloc(), Drops::read(rt.alloc(), b"1-65")?);
    assert!(rt; kept(&up_to_64, 3, 1, 64, 200));
    assert!(rt; !kept(&up_to_65, 3, 1, 64, 200));
    assert!(rt; kept(&up_to_65, 3, 2, 64, 200));
    assert!(rt; !kept(&up_to_64, 3, 1, 64, 64));
    Ok(())
}

// A run, the frames that it delivers and the packets that it keeps, and the line of each core: delivered, carried,
// recovered, skipped.
#[derive(Clone, Copy)]
struct Run<'a> {
    drops: &'a [u8],
    cores: u32,
    history: u32,
    frames: u32,
    delivered: u32,
    kept: u32,
    lines: &'a [(u32, u32, u32, u32)],
}

// The counts of a core, where the numbers are in range.
fn counts_within(link: &Link, run: &Run, core: u32) -> Option<CoreCounts> {
    let fits = run.cores <= 16 && run.history <= 64 && run.frames <= 1_000_000;
    if !fits || core >= run.cores {
        return None;
    }
    Some(counts(link, run.cores, run.history, run.frames, core))
}

const IDLE: (u32, u32, u32, u32) = (0, 0, 3, 0);

const RUNS: [Run; 9] = [
    Run {
        drops: b"2",
        cores: 2,
        history: 0,
        frames: 4,
        delivered: 3,
        kept: 3,
        lines: &[(2, 2, 1, 1), (1, 1, 2, 1)],
    },
    Run {
        drops: b"2",
        cores: 2,
        history: 1,
        frames: 4,
        delivered: 3,
        kept: 4,
        lines: &[(2, 3, 1, 0), (1, 2, 2, 0)],
    },
    Run {
        drops: b"1-4",
        cores: 2,
        history: 1,
        frames: 4,
        delivered: 0,
        kept: 0,
        lines: &[(0, 0, 0, 4), (0, 0, 0, 4)],
    },
    Run {
        drops: b"",
        cores: 16,
        history: 15,
        frames: 3,
        delivered: 3,
        kept: 3,
        lines: &[
            (1, 1, 2, 0),
            (1, 2, 1, 0),
            (1, 3, 0, 0),
            IDLE,
            IDLE,
            IDLE,
            IDLE,
            IDLE,
            IDLE,
            IDLE,
            IDLE,
            IDLE,
            IDLE,
            IDLE,
            IDLE,
            IDLE,
        ],
    },
    Run {
        drops: b"",
        cores: 2,
        history: 64,
        frames: 5,
        delivered: 5,
        kept: 5,
        lines: &[(3, 5, 0, 0), (2, 4, 1, 0)],
    },
    Run {
        drops: b"2-600/2",
        cores: 2,
        history: 0,
        frames: 600,
        delivered: 300,
        kept: 300,
        lines: &[(300, 300, 0, 300), (0, 0, 300, 300)],
    },
    Run {
        drops: b"3-1000/3",
        cores: 4,
        history: 3,
        frames: 1000,
        delivered: 667,
        kept: 1000,
        lines: &[
            (167, 665, 335, 0),
            (167, 666, 334, 0),
            (166, 664, 336, 0),
            (167, 668, 332, 0),
        ],
    },
    Run {
        drops: b"",
        cores: 3,
        history: 2,
        frames: 10,
        delivered: 10,
        kept: 10,
        lines: &[(4, 10, 0, 0), (3, 8, 2, 0), (3, 9, 1, 0)],
    },
    Run {
        drops: b"",
        cores: 8,
        history: 7,
        frames: 100_000,
        delivered: 100_000,
        kept: 100_000,
        lines: &[
            (12500, 99993, 7, 0),
            (12500, 99994, 6, 0),
            (12500, 99995, 5, 0),
            (12500, 99996, 4, 0),
            (12500, 99997, 3, 0),
            (12500, 99998, 2, 0),
            (12500, 99999, 1, 0),
            (12500, 100000, 0, 0),
        ],
    },
];

#[test]
fn counts_of_runs(rt: HostRuntime) -> Result<(), DropError> {
    for run in RUNS {
        let link = Link::dropping(rt.alloc(), Drops::read(rt.alloc(), run.drops)?);
        let mut frames = 0u32;
        for (core, line) in (0..run.cores).zip(run.lines) {
            let (delivered, carried, recovered, skipped) = *line;
            let want = CoreCounts {
                delivered,
                carried,
                recovered,
                skipped,
            };
            assert_eq!(rt;
                counts_within(&link, &run, core),
                Some(want),
                "at core {core}"
            );
            assert_eq!(rt; carried.wrapping_add(recovered), run.kept);
            frames = frames.wrapping_add(delivered);
        }
        assert_eq!(rt; frames, run.delivered);
    }
    Ok(())
}

#[test]
fn a_plan_has_its_parts(rt: HostRuntime) -> Result<(), DropError> {
    let row = Row {
        w0: 1,
        w1: 2,
        w2: 3,
        w3: 4,
        w4: 5,
        w5: 6,
        w6: 7,
    };
    let rows = vec![in rt.alloc(); row; 4].expect(&rt, "memory");
    let link = Link::dropping(rt.alloc(), Drops::read(rt.alloc(), b"2")?);
    let plan = RunPlan::make(rows, 2, 1, link);
    assert_eq!(rt; plan.rows(), &[row, row, row, row][..]);
    assert_eq!(rt; (plan.cores(), plan.history()), (2, 1));
    assert_eq!(rt; plan.link().fate(2), Fate::Lost);
    assert_eq!(rt; plan.link().fate(3), Fate::Once { delay: 0 });
    for (p, first, second) in [
        (1, true, false),
        (2, true, false),
        (3, true, true),
        (4, false, true),
    ] {
        assert_eq!(rt; plan.final_entry(0, p).is_some(), first, "at {p}");
        assert_eq!(rt; plan.final_entry(1, p).is_some(), second, "at {p}");
    }
    assert_eq!(rt; plan.final_entry(0, 3), Some(row));
    Ok(())
}

// Texts of delays with the cause and the place of their refusal.
const DELAY_REFUSALS: [(&[u8], DelayCause, u64); 17] = [
    (b",", DelayCause::Empty, 0),
    (b"1:2,", DelayCause::Empty, 4),
    (b"1", DelayCause::Digit, 0),
    (b":", DelayCause::Digit, 0),
    (b"1:", DelayCause::Digit, 0),
    (b":1", DelayCause::Digit, 0),
    (b"1:2:3", DelayCause::Digit, 0),
    (b"1-2:3", DelayCause::Digit, 0),
    (b"1:0", DelayCause::Zero, 0),
    (b"3:4,0:1001", DelayCause::Zero, 4),
    (b"0:x", DelayCause::Digit, 0),
    (b"1:1001", DelayCause::TooLarge, 0),
    (b"1000000001:1", DelayCause::TooLarge, 0),
    (b"1:2,1:3", DelayCause::Twice, 4),
    (b"7:1,007:2", DelayCause::Twice, 4),
    (b"7:1,7:1001", DelayCause::TooLarge, 4),
    (b"7:1,8:1,,7:1", DelayCause::Empty, 8),
];

#[test]
fn refuses_delays_by_cause_and_place(rt: HostRuntime) -> Result<(), OutOfMemory> {
    for (text, cause, place) in DELAY_REFUSALS {
        let refused = match Delays::read(rt.alloc(), text) {
            Ok(_) => None,
            Err(DelayError::Refused { cause, place }) => Some((cause, place)),
            Err(DelayError::OutOfMemory(want)) => return Err(want),
        };
        assert_eq!(rt; refused, Some((cause, place)), "at {text:?}");
    }
    Ok(())
}

// The link that these texts spell.
fn link_of(alloc: Global, drops: &[u8], repeats: &[u8], delays: &[u8]) -> Option<Link> {
    let drops = Drops::read(alloc, drops).ok()?;
    let repeats = Drops::read(alloc, repeats).ok()?;
    Some(Link::make(alloc, drops, repeats, Delays::read(alloc, delays).ok()?))
}

#[test]
fn tells_what_becomes_of_a_frame(rt: HostRuntime) -> Result<(), Fail> {
    assert_eq!(rt; Delays::none(rt.alloc()).of(1), 0);
    let link = link_of(rt.alloc(), b"3,5", b"4-6", b"2:9,5:1,6:1000").ok_or("a link")?;
    for (n, fate) in [
        (1, Fate::Once { delay: 0 }),
        (2, Fate::Once { delay: 9 }),
        (3, Fate::Lost),
        (4, Fate::Twice { delay: 0 }),
        (5, Fate::Lost),
        (6, Fate::Twice { delay: 1000 }),
    ] {
        assert_eq!(rt; link.fate(n), fate, "at {n}");
    }
    Ok(())
}

// Delays, the cores, the frames, and which of them are not delivered.
const LATE: [(&[u8], &[u8], u32, u32, &[u32]); 10] = [
    (b"", b"1:3", 2, 4, &[1]),
    (b"", b"1:1", 2, 4, &[]),
    (b"", b"1:2", 2, 4, &[1]),
    (b"3", b"1:3", 2, 4, &[]),
    (b"", b"256:1", 2, 600, &[256]),
    (b"", b"255:1", 2, 600, &[]),
    // The end comes behind what is late, and no beacon has its number.
    (b"", b"256:1000", 2, 256, &[]),
    (b"", b"255:1000", 1, 256, &[255]),
    // Of two late frames of one step the earlier one comes first.
    (b"", b"1:2,2:1", 1, 4, &[1, 2]),
    (b"3", b"1:2,2:1", 1, 4, &[]),
];

// Whether frame n is delivered, of so many frames to so many cores.
fn is_delivered(link: &Link, cores: u32, frames: u32, n: u32) -> bool {
    let within = cores <= 16 && 1 <= n && n <= frames && frames <= 1_000_000;
    1 <= cores && within && link.delivered(cores, frames, n)
}

#[test]
fn late_frames_that_are_overtaken_are_lost(rt: HostRuntime) -> Result<(), Fail> {
    for (drops, delays, cores, frames, lost) in LATE {
        let link = link_of(rt.alloc(), drops, b"", delays).ok_or("a link")?;
        for n in 1..=frames {
            let goes = link.fate(n) != Fate::Lost && !lost.contains(&n);
            assert_eq!(rt;
                is_delivered(&link, cores, frames, n),
                goes,
                "at {n} of {delays:?}"
            );
        }
    }
    Ok(())
}
