//! Runs whose verdicts, counts and entries were worked out by hand.

use crate::{Gathered, run_phases};
use scr_base::{Row, Verdict};
use scr_bucket::{Bucket, BucketSettings};
use scr_ddos::{Ddos, DdosSettings};
use scr_plan::{CoreCounts, Delays, Drops, Given, Link, RunPlan};
use scr_program::ZERO_ROW;
use std::alloc::Global;
use std::process::Abort;
use std::test::Fail;

// A datagram from 10.0.0.1 for a counter of packets, whose first verdicts are PASS (0) and whose later ones DROP (1).
const A: Row = Row {
    w1: 0x0A00_0001,
    w4: 3,
    ..ZERO_ROW
};

// A run of so many packets `A`, the numbers and codes of its first verdicts, how often each code comes, and the line of
// each core: delivered, carried, recovered, skipped.
#[derive(Clone, Copy)]
struct Case<'a> {
    frames: u32,
    threshold: &'a [u8],
    cores: u32,
    history: u32,
    drops: &'a [u8],
    repeats: &'a [u8],
    delays: &'a [u8],
    first: &'a [(u32, u8)],
    totals: (usize, usize),
    lines: &'a [(u32, u32, u32, u32)],
    flows: u64,
}

// Four packets on two cores, each with its own row alone, of which two pass.
const FOUR: Case = Case {
    frames: 4,
    threshold: b"2",
    cores: 2,
    history: 0,
    drops: b"",
    repeats: b"",
    delays: b"",
    first: &[(1, 0), (2, 0), (3, 1), (4, 1)],
    totals: (2, 2),
    lines: &[(2, 2, 2, 0), (2, 2, 2, 0)],
    flows: 1,
};

const NONE: (u32, u32, u32, u32) = (0, 0, 0, 0);

const IDLE: (u32, u32, u32, u32) = (0, 0, 3, 0);

const CASES: [Case; 9] = [
    Case {
        cores: 1,
        lines: &[(4, 4, 0, 0)],
        ..FOUR
    },
    Case {
        drops: b"2",
        first: &[(1, 0), (3, 0), (4, 1)],
        totals: (2, 1),
        lines: &[(2, 2, 1, 1), (1, 1, 2, 1)],
        ..FOUR
    },
    Case {
        history: 1,
        drops: b"2",
        first: &[(1, 0), (3, 1), (4, 1)],
        totals: (1, 2),
        lines: &[(2, 3, 1, 0), (1, 2, 2, 0)],
        ..FOUR
    },
    Case {
        frames: 0,
        cores: 16,
        history: 15,
        first: &[],
        totals: (0, 0),
        lines: &[NONE; 16],
        flows: 0,
        ..FOUR
    },
    Case {
        history: 1,
        drops: b"1-4",
        first: &[],
        totals: (0, 0),
        lines: &[(0, 0, 0, 4), (0, 0, 0, 4)],
        flows: 0,
        ..FOUR
    },
    Case {
        frames: 3,
        cores: 16,
        history: 15,
        first: &[(1, 0), (2, 0), (3, 1)],
        totals: (2, 1),
        lines: &[
            (1, 1, 2, 0),
            (1, 2, 1, 0),
            (1, 3, 0, 0),
            IDLE,
            IDLE,
            IDLE,
            IDLE,
            IDLE,
            IDLE,
            IDLE,
            IDLE,
            IDLE,
            IDLE,
            IDLE,
            IDLE,
            IDLE,
        ],
        ..FOUR
    },
    Case {
        frames: 5,
        history: 64,
        first: &[(1, 0), (2, 0), (3, 1), (4, 1), (5, 1)],
        totals: (2, 3),
        lines: &[(3, 5, 0, 0), (2, 4, 1, 0)],
        ..FOUR
    },
    Case {
        frames: 600,
        threshold: b"100",
        drops: b"2-600/2",
        first: &[(1, 0), (3, 0), (5, 0)],
        totals: (100, 200),
        lines: &[(300, 300, 0, 300), (0, 0, 300, 300)],
        ..FOUR
    },
    Case {
        frames: 1000,
        threshold: b"500",
        cores: 4,
        history: 3,
        drops: b"3-1000/3",
        first: &[(1, 0), (2, 0), (4, 0), (5, 0)],
        totals: (334, 333),
        lines: &[
            (167, 665, 335, 0),
            (167, 666, 334, 0),
            (166, 664, 336, 0),
            (167, 668, 332, 0),
        ],
        ..FOUR
    },
];

// Links that also repeat and delay. Frame 1 comes behind frame 3 of its core, then in time, and each frame twice. Frame
// 256 comes behind the beacon of its number, and frame 255 before it. Last, core 0 is given frames 3, 3, 1 and 5.
const LINKS: [Case; 6] = [
    Case {
        delays: b"1:3",
        first: &[(2, 0), (3, 0), (4, 1)],
        totals: (2, 1),
        lines: &[(1, 1, 2, 1), (2, 2, 1, 1)],
        ..FOUR
    },
    Case {
        delays: b"1:1",
        ..FOUR
    },
    Case {
        repeats: b"1-4",
        ..FOUR
    },
    Case {
        frames: 600,
        delays: b"256:1",
        totals: (2, 597),
        lines: &[(300, 300, 299, 1), (299, 299, 300, 1)],
        ..FOUR
    },
    Case {
        frames: 600,
        delays: b"255:1",
        totals: (2, 598),
        lines: &[(300, 300, 300, 0), (300, 300, 300, 0)],
        ..FOUR
    },
    Case {
        frames: 6,
        history: 1,
        drops: b"2",
        repeats: b"3",
        delays: b"1:2",
        first: &[(3, 0), (4, 1), (5, 1), (6, 1)],
        totals: (1, 3),
        lines: &[(2, 4, 1, 1), (2, 4, 1, 1)],
        ..FOUR
    },
];

// The link that a case is run over.
fn link_of(alloc: Global, case: &Case) -> Result<Link, Fail> {
    let drops = Drops::read(alloc, case.drops)?;
    let repeats = Drops::read(alloc, case.repeats)?;
    let delays = Delays::read(alloc, case.delays)?;
    Ok(Link::make(alloc, drops, repeats, delays))
}

// A plan of these rows, where the numbers are in range.
fn plan_of(rows: Vec<Row>, cores: u32, history: u32, link: Link) -> Result<RunPlan, Fail> {
    if rows.len() > 1_000_000 || cores < 1 || cores > 16 || history > 64 {
        return Err("a plan".into());
    }
    Ok(RunPlan::make(rows, cores, history, link))
}

fn line_of(counts: &CoreCounts) -> (u32, u32, u32, u32) {
    (
        counts.delivered,
        counts.carried,
        counts.recovered,
        counts.skipped,
    )
}

fn assert_lines(rt: &impl Abort, gathered: &Gathered, lines: &[(u32, u32, u32, u32)]) {
    assert_eq!(rt; gathered.cores.len(), lines.len());
    for (counts, line) in gathered.cores.iter().zip(lines) {
        assert_eq!(rt; line_of(counts), *line);
    }
}

fn assert_first(rt: &impl Abort, gathered: &Gathered, first: &[(u32, u8)]) {
    assert!(rt; first.len() <= gathered.verdicts.len());
    for (given, (number, code)) in gathered.verdicts.iter().zip(first) {
        let want = Given {
            number: *number,
            verdict: Verdict(*code),
        };
        assert_eq!(rt; *given, want);
    }
}

// How many verdicts have this code.
fn total(gathered: &Gathered, code: u8) -> usize {
    gathered
        .verdicts
        .iter()
        .filter(|given| given.verdict.0 == code)
        .count()
}

// Runs a case, and compares.
fn assert_case(rt: &impl Abort, alloc: Global, case: &Case) -> Result<(), Fail> {
    let mut rows = Vec::new(alloc);
    for _ in 0..case.frames {
        rows.push(A)?;
    }
    let link = link_of(alloc, case)?;
    let plan = plan_of(rows, case.cores, case.history, link)?;
    let mut settings = DdosSettings::new(4096);
    assert_eq!(rt; settings.set(b"threshold", case.threshold), Ok(()));
    let gathered = run_phases::<Ddos>(alloc, &settings, &plan)?;
    assert_first(rt, &gathered, case.first);
    assert_eq!(rt; total(&gathered, 0), case.totals.0);
    assert_eq!(rt; total(&gathered, 1), case.totals.1);
    assert_eq!(rt;
        case.totals.0.checked_add(case.totals.1),
        Some(gathered.verdicts.len())
    );
    assert_lines(rt, &gathered, case.lines);
    assert_eq!(rt; gathered.flows, case.flows);
    Ok(())
}

#[test]
fn runs_of_a_flood(rt: HostRuntime) -> Result<(), Fail> {
    for case in CASES {
        assert_case(&rt, rt.alloc(), &case)?;
    }
    Ok(())
}

#[test]
fn runs_over_links_that_repeat_and_delay(rt: HostRuntime) -> Result<(), Fail> {
    for case in LINKS {
        assert_case(&rt, rt.alloc(), &case)?;
    }
    Ok(())
}

// When the packets of a token bucket come, in microseconds, and whether each is dropped: eight packets of one flow, at
// one token a second and two at most.
const TIMES: [(u64, u8); 8] = [
    (10_000_000, 0),
    (10_000_000, 0),
    (9_000_000, 1),
    (10_500_000, 1),
    (4_294_977_796_000, 0),
    (4_294_977_796_000, 0),
    (4_294_977_796_000, 1),
    (4_004_294_977_796_000, 0),
];

#[test]
fn a_bucket_on_three_cores(rt: HostRuntime) -> Result<(), Fail> {
    let mut rows = Vec::new(rt.alloc());
    for (time, _) in TIMES {
        rows.push(Row { w5: time, ..A })?;
    }
    let link = link_of(rt.alloc(), &FOUR)?;
    let plan = plan_of(rows, 3, 2, link)?;
    let mut settings = BucketSettings::new(4096);
    assert_eq!(rt; settings.set(b"rate", b"1"), Ok(()));
    assert_eq!(rt; settings.set(b"burst", b"2"), Ok(()));
    let gathered = run_phases::<Bucket>(rt.alloc(), &settings, &plan)?;
    assert_eq!(rt; gathered.verdicts.len(), TIMES.len());
    for (given, (_, code)) in gathered.verdicts.iter().zip(&TIMES) {
        assert_eq!(rt; given.verdict, Verdict(*code), "at {given:?}");
    }
    assert_lines(&rt, &gathered, &[(3, 7, 1, 0), (3, 8, 0, 0), (2, 6, 2, 0)]);
    assert_eq!(rt; gathered.flows, 1);
    Ok(())
}
