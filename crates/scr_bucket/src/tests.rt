//! Rows, verdicts and settings with the values that they should have, each call through the trait.

ghost use Rattle.std.specs.Prelude.{◌≤◌};

use super::*;
use scr_base::{OutOfMemory, Row, Verdict};
use scr_frame::{Kind, Parsed};
use scr_program::{Program, SettingError, ZERO_ROW};
use std::alloc::Global;
use std::process::Abort;
use std::test::Fail;

/// 10.0.0.1 port 40000 to 10.0.0.2 port 53, over UDP.
const A: Parsed = Parsed {
    kind: Kind::Udp,
    family: 0,
    source: 0x0A00_0001,
    destination: 0x0A00_0002,
    source_port: 40000,
    destination_port: 53,
    protocol: 17,
    flags: 0,
    length: 28,
};

/// The same to another port.
const A_54: Parsed = Parsed {
    destination_port: 54,
    ..A
};

/// A frame without an IP packet.
const OTHER: Parsed = Parsed {
    kind: Kind::Other,
    source: 0,
    destination: 0,
    source_port: 0,
    destination_port: 0,
    protocol: 0,
    length: 0,
    ..A
};

/// The row of `A` at one second.
const ROW: Row = Row {
    w1: 0x0A00_0001,
    w3: 0x0A00_0002,
    w4: 0x9C40_0035_1100_0003,
    w5: 1_000_000,
    ..ZERO_ROW
};

/// The names of the verdicts on packets that come one after another, and how many flows there are then.
fn run<P: Program>(
    alloc: Global,
    settings: &P::Settings,
    packets: &[(Parsed, u64)],
) -> Result<(Vec<&'static str>, u64), OutOfMemory> {
    let mut state = P::fresh(alloc, settings)?;
    let mut names = Vec::new(alloc);
    for (parsed, time) in packets {
        let row = P::extract(settings, parsed, *time);
        P::prepare(settings, &mut state, &row)?;
        let verdict = P::step(settings, &mut state, &row)?;
        names.push(P::name_of(verdict).unwrap_or("no name"))?;
    }
    Ok((names, P::flows(settings, &state)))
}

/// A bucket of two tokens that gains one in a second.
fn slow(rt: &impl Abort, flows: u32) -> BucketSettings
    requires some { 1 ≤ flows }
    requires few { flows ≤ 65536 }
{
    let mut settings = BucketSettings::new(flows);
    assert_eq!(rt; settings.set(b"rate", b"1"), Ok(()));
    assert_eq!(rt; settings.set(b"burst", b"2"), Ok(()));
    settings
}

#[test]
fn keeps_the_flow_and_the_time(rt: HostRuntime) {
    let settings = BucketSettings::new(4096);
    assert_eq!(rt; Bucket::extract(&settings, &A, 1_000_000), ROW);
    let ipv6 = Parsed { family: 1, ..A };
    let row = Row {
        w4: 0x9C40_0035_1100_0103,
        ..ROW
    };
    assert_eq!(rt; Bucket::extract(&settings, &ipv6, 1_000_000), row);
    assert_eq!(rt; Bucket::extract(&settings, &OTHER, 1_000_000), ZERO_ROW);
}

// The fifth packet comes just 1,000 * 2^32 microseconds after the greatest time before it.
#[test]
fn fills_with_time(rt: HostRuntime) -> Result<(), Fail> {
    let cases = [
        (10_000_000, "PASS"),
        (10_000_000, "PASS"),
        (9_000_000, "DROP"),
        (10_500_000, "DROP"),
        (4_294_977_796_000, "PASS"),
        (4_294_977_796_000, "PASS"),
        (4_294_977_796_000, "DROP"),
        (4_004_294_977_796_000, "PASS"),
    ];
    let settings = slow(&rt, 4096);
    let packets = cases.map(|(time, _)| (A, time));
    let want = cases.map(|(_, name)| name);
    let (names, flows) = run::<Bucket>(rt.alloc(), &settings, &packets)?;
    assert_eq!(rt; names.as_slice(), want.as_slice());
    assert_eq!(rt; flows, 1);
    Ok(())
}

#[test]
fn gives_each_flow_a_bucket(rt: HostRuntime) -> Result<(), Fail> {
    let ping = Parsed { protocol: 1, ..A };
    let packets = [A, A, A, A_54, ping, OTHER, A].map(|parsed| (parsed, 7));
    let cases = [
        (3, ["PASS", "PASS", "DROP", "PASS", "PASS", "OTHER", "DROP"]),
        (1, ["PASS", "PASS", "DROP", "PASS", "PASS", "OTHER", "PASS"]),
    ];
    for (most, want) in cases {
        let settings = slow(&rt, most);
        let (names, flows) = run::<Bucket>(rt.alloc(), &settings, &packets)?;
        assert_eq!(rt; names.as_slice(), want.as_slice(), "at {most}");
        assert_eq!(rt; flows, u64::from(most));
    }
    Ok(())
}

#[test]
fn takes_rows_of_no_known_kind(rt: HostRuntime) -> Result<(), Fail> {
    let settings = BucketSettings::new(1);
    let mut state = Bucket::fresh(rt.alloc(), &settings)?;
    for kind in [0, 4, 255] {
        let row = Row {
            w4: 0x9C40_0035_1100_0000 + kind,
            ..ROW
        };
        Bucket::prepare(&settings, &mut state, &row)?;
        let verdict = Bucket::step(&settings, &mut state, &row)?;
        assert_eq!(rt; verdict, Verdict(2), "at {kind}");
    }
    assert_eq!(rt; Bucket::flows(&settings, &state), 0);
    Ok(())
}

#[test]
fn names_its_verdicts(rt: HostRuntime) {
    assert_eq!(rt; Bucket::names(), 3);
    for (code, name) in [(0, "PASS"), (1, "DROP"), (2, "OTHER")] {
        assert_eq!(rt; Bucket::name_of(Verdict(code)), Some(name));
    }
    assert_eq!(rt; Bucket::name_of(Verdict(3)), None);
}

#[test]
fn takes_settings_in_their_ranges(rt: HostRuntime) {
    let cases: [(&[u8], &[u8], Result<(), SettingError>, (u64, u64)); 11] = [
        (b"rate", b"0", Ok(()), (0, 100)),
        (b"rate", b"1000000000", Ok(()), (1_000_000_000, 100)),
        (
            b"rate",
            b"1000000001",
            Err(SettingError::Range),
            (1000, 100),
        ),
        (b"rate", b"", Err(SettingError::Value), (1000, 100)),
        (b"burst", b"001", Ok(()), (1000, 1)),
        (b"burst", b"1000000000", Ok(()), (1000, 1_000_000_000)),
        (b"burst", b"0", Err(SettingError::Range), (1000, 100)),
        (
            b"burst",
            b"1000000001",
            Err(SettingError::Range),
            (1000, 100),
        ),
        (b"burst", b"1.5", Err(SettingError::Value), (1000, 100)),
        (b"flows", b"1", Err(SettingError::UnknownName), (1000, 100)),
        (
            b"threshold",
            b"x",
            Err(SettingError::UnknownName),
            (1000, 100),
        ),
    ];
    for (name, value, want, numbers) in cases {
        let mut settings = BucketSettings::new(65_536);
        assert_eq!(rt; settings.set(name, value), want, "at {value:?}");
        assert_eq!(rt; (settings.rate, settings.burst), numbers, "at {value:?}");
        assert_eq!(rt; settings.flows, 65_536);
    }
}

#[test]
fn runs_with_the_greatest_settings(rt: HostRuntime) -> Result<(), Fail> {
    let mut settings = BucketSettings::new(65_536);
    assert_eq!(rt; settings.set(b"rate", b"1000000000"), Ok(()));
    assert_eq!(rt; settings.set(b"burst", b"1000000000"), Ok(()));
    let packets = [(A, 0), (A_54, 1), (A, u64::MAX)];
    let (names, flows) = run::<Bucket>(rt.alloc(), &settings, &packets)?;
    assert_eq!(rt; names.as_slice(), ["PASS", "PASS", "PASS"].as_slice());
    assert_eq!(rt; flows, 2);
    Ok(())
}
