//! Command lines, with the settings that each must give, by hand.

mod ranges;
mod refusals;

use super::*;
use scr_base::{OutOfMemory, Word};
use scr_bucket::BucketSettings;
use scr_conn::ConnSettings;
use scr_ddos::DdosSettings;
use scr_heavy::HeavySettings;
use scr_knock::KnockSettings;
use scr_plan::Fate;
use scr_tables::{Decision, Pattern, Rule};
use std::alloc::Global;

/// The words of a line, parted by single spaces. An empty line has none.
fn words_in(alloc: Global, line: &str) -> Result<Vec<Word>, OutOfMemory> {
    let mut words = Vec::new(alloc);
    if !line.is_empty() {
        for word in line.as_bytes().split(|byte| *byte == b' ') {
            words.push(Word::of(alloc, word)?)?;
        }
    }
    Ok(words)
}

fn read(alloc: Global, line: &str) -> Result<RunSettings, WordsError> {
    let words = words_in(alloc, line)?;
    read_words(alloc, &words[..words.len().min(1000)])
}

/// A load of each greatest setting.
const GREATEST: &str =
    "load program=ddos flows=65536 cores=16 history=64 ring=4096 start=18446744073709551615 frames=1000000 hosts=65536 threshold=4294967295";

const SPRAY: &str =
    "spray drop=2 cores=4 program=knock ports=1,2,3 repeat=5 delay=6:1 history=64 flows=9";

const REPLAY: &str = "replay threads=no program=ddos ring=7 threshold=3";

/// The one program that a line chooses.
fn program(alloc: Global, line: &str) -> Option<OneSettings> {
    match read(alloc, line).ok()?.program {
        ProgramSettings::One(settings) => Some(settings),
        _ => None,
    }
}

/// Lines, with the one program that each chooses.
const PROGRAMS: [(&str, OneSettings); 15] = [
    // Each with what is chosen where its operands are left out.
    (
        "run program=ddos",
        OneSettings::Ddos(DdosSettings {
            threshold: 1000,
            flows: 4096,
        }),
    ),
    (
        "plain program=heavy",
        OneSettings::Heavy(HeavySettings {
            bytes: 1_000_000,
            flows: 4096,
        }),
    ),
    (
        "load program=bucket",
        OneSettings::Bucket(BucketSettings {
            rate: 1000,
            burst: 100,
            flows: 4096,
        }),
    ),
    (
        "run program=knock",
        OneSettings::Knock(KnockSettings {
            first: 7000,
            second: 8000,
            third: 9000,
            flows: 4096,
        }),
    ),
    (
        "run program=conn",
        OneSettings::Conn(ConnSettings {
            idle: 60_000_000,
            flows: 4096,
        }),
    ),
    // Each with its operands.
    (
        "run threshold=4294967295 flows=65536 program=ddos",
        OneSettings::Ddos(DdosSettings {
            threshold: 4_294_967_295,
            flows: 65_536,
        }),
    ),
    (
        "run program=heavy bytes=1000000000000 flows=1",
        OneSettings::Heavy(HeavySettings {
            bytes: 1_000_000_000_000,
            flows: 1,
        }),
    ),
    (
        "run burst=1000000000 program=bucket flows=9 rate=0",
        OneSettings::Bucket(BucketSettings {
            rate: 0,
            burst: 1_000_000_000,
            flows: 9,
        }),
    ),
    (
        "run ports=0001,65535,022 program=knock",
        OneSettings::Knock(KnockSettings {
            first: 1,
            second: 65_535,
            third: 22,
            flows: 4096,
        }),
    ),
    (
        "run program=conn idle=10000000000000",
        OneSettings::Conn(ConnSettings {
            idle: 10_000_000_000_000,
            flows: 4096,
        }),
    ),
    (
        GREATEST,
        OneSettings::Ddos(DdosSettings {
            threshold: 4_294_967_295,
            flows: 65_536,
        }),
    ),
    (
        "plain program=bucket rate=1000000000 burst=00001000000000 flows=065536",
        OneSettings::Bucket(BucketSettings {
            rate: 1_000_000_000,
            burst: 1_000_000_000,
            flows: 65_536,
        }),
    ),
    (
        REPLAY,
        OneSettings::Ddos(DdosSettings {
            threshold: 3,
            flows: 4096,
        }),
    ),
    // Whatever is lost.
    (
        "run threshold=2 program=ddos drop=",
        OneSettings::Ddos(DdosSettings {
            threshold: 2,
            flows: 4096,
        }),
    ),
    (
        "run program=ddos threshold=2 drop=9999",
        OneSettings::Ddos(DdosSettings {
            threshold: 2,
            flows: 4096,
        }),
    ),
];

#[test]
fn chooses_one_program(rt: HostRuntime) {
    for (line, settings) in &PROGRAMS {
        assert_eq!(rt; program(rt.alloc(), line), Some(*settings), "at {line}");
    }
}

/// The two programs of the chain that a line chooses.
fn chain(alloc: Global, line: &str) -> Option<(OneSettings, OneSettings)> {
    match read(alloc, line).ok()?.program {
        ProgramSettings::Chain { first, second } => Some((first, second)),
        _ => None,
    }
}

#[test]
fn takes_a_chain(rt: HostRuntime) {
    let line = "run second=heavy threshold=3 program=chain bytes=60 first=ddos flows=9";
    let (threshold, bytes, flows) = (3, 60, 9);
    let ddos = OneSettings::Ddos(DdosSettings { threshold, flows });
    let heavy = OneSettings::Heavy(HeavySettings { bytes, flows });
    assert_eq!(rt; chain(rt.alloc(), line), Some((ddos, heavy)));
}

/// How many sources the table that a line chooses keeps, how many rules it has, and the first of them.
fn table(alloc: Global, line: &str) -> Option<(u32, usize, Rule)> {
    let chosen = read(alloc, line).ok()?;
    let ProgramSettings::Table(settings) = &chosen.program else {
        return None;
    };
    let rules = settings.table.rules();
    Some((settings.flows, rules.len(), *rules.first()?))
}

#[test]
fn takes_a_table(rt: HostRuntime) {
    let line = "load table=0:u>1/D,0:*>0/D,1:*>1/P flows=7 program=table";
    let first = Rule {
        state: 0,
        pattern: Pattern::Udp,
        next: 1,
        verdict: Decision::Drop,
    };
    assert_eq!(rt; table(rt.alloc(), line), Some((7, 3, first)));
}

/// What is chosen beside the program and the link: what to do; how many cores there are, and their history; how many slots,
/// and whether there are threads; the start, the frames and the hosts of the capture that is made up.
type Chosen = (Command, (u32, u32), (u32, bool), (u64, u32, u32));

fn chosen(alloc: Global, line: &str) -> Option<Chosen> {
    let settings = read(alloc, line).ok()?;
    let shape = &settings.shape;
    Some((
        settings.command,
        (shape.cores, shape.history),
        (shape.ring, shape.threads),
        (settings.start, settings.frames, settings.hosts),
    ))
}

/// Lines, with what each chooses.
const CHOSEN: [(&str, Chosen); 6] = [
    (
        "run program=ddos",
        (Command::Run, (1, 0), (1024, true), (0, 1000, 16)),
    ),
    (
        "load threads=no ring=7 drop=3,5-9/2 hosts=65536 program=ddos cores=3 frames=0 start=5",
        (Command::Load, (3, 2), (7, false), (5, 0, 65_536)),
    ),
    (
        "run history=0 program=ddos cores=16",
        (Command::Run, (16, 0), (1024, true), (0, 1000, 16)),
    ),
    (
        SPRAY,
        (Command::Spray, (4, 64), (1024, true), (0, 1000, 16)),
    ),
    (REPLAY, (Command::Replay, (1, 0), (7, false), (0, 1000, 16))),
    (
        GREATEST,
        (
            Command::Load,
            (16, 64),
            (4096, true),
            (u64::MAX, 1_000_000, 65_536),
        ),
    ),
];

#[test]
fn takes_the_shape_of_a_run(rt: HostRuntime) {
    for (line, wanted) in &CHOSEN {
        assert_eq!(rt; chosen(rt.alloc(), line), Some(*wanted), "at {line}");
    }
}

/// What becomes of a frame over the link of a line.
fn fate(alloc: Global, line: &str, number: u32) -> Option<Fate> {
    Some(read(alloc, line).ok()?.shape.link.fate(number))
}

const LINK: &str = "run delay=6:2,0005:1000 program=ddos repeat=4-6/2,5 drop=3,5-9/2";

/// Lines, each with a frame, and with what becomes of it.
const FATES: [(&str, u32, Fate); 11] = [
    ("run program=ddos", 1, Fate::Once { delay: 0 }),
    (SPRAY, 2, Fate::Lost),
    (SPRAY, 5, Fate::Twice { delay: 0 }),
    (LINK, 3, Fate::Lost),
    (LINK, 5, Fate::Lost),
    (LINK, 4, Fate::Twice { delay: 0 }),
    (LINK, 6, Fate::Twice { delay: 2 }),
    (LINK, 8, Fate::Once { delay: 0 }),
    (
        "load repeat= delay=9:1,1000000000:1000 program=ddos",
        9,
        Fate::Once { delay: 1 },
    ),
    // An empty list, and numbers beyond the run.
    (
        "run threshold=2 program=ddos drop=",
        1,
        Fate::Once { delay: 0 },
    ),
    ("run program=ddos threshold=2 drop=9999", 9999, Fate::Lost),
];

#[test]
fn takes_a_link(rt: HostRuntime) {
    for (line, number, wanted) in &FATES {
        assert_eq!(rt; fate(rt.alloc(), line, *number), Some(*wanted), "at {line}");
    }
}
