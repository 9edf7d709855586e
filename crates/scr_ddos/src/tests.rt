//! Rows, verdicts and settings with the values that they should have, each call through the trait.

use super::*;
use scr_base::{OutOfMemory, Row, Verdict};
use scr_frame::{Kind, Parsed};
use scr_program::{Program, SettingError, ZERO_ROW};
use std::alloc::Global;
use std::test::Fail;

/// 10.0.0.1 port 40000 to 10.0.0.2 port 53, over UDP.
const A: Parsed = Parsed {
    kind: Kind::Udp,
    family: 0,
    source: 0x0A00_0001,
    destination: 0x0A00_0002,
    source_port: 40000,
    destination_port: 53,
    protocol: 17,
    flags: 0,
    length: 28,
};

/// The same from 10.0.0.3.
const B: Parsed = Parsed {
    source: 0x0A00_0003,
    ..A
};

/// The number of the first source in the other family.
const A_V6: Parsed = Parsed { family: 1, ..A };

/// A frame without an IP packet.
const OTHER: Parsed = Parsed {
    kind: Kind::Other,
    source: 0,
    destination: 0,
    source_port: 0,
    destination_port: 0,
    protocol: 0,
    length: 0,
    ..A
};

/// The names of the verdicts on packets that come one after another, and how many flows there are then.
fn run<P: Program>(
    alloc: Global,
    settings: &P::Settings,
    packets: &[Parsed],
) -> Result<(Vec<&'static str>, u64), OutOfMemory> {
    let mut state = P::fresh(alloc, settings)?;
    let mut names = Vec::new(alloc);
    for parsed in packets {
        let row = P::extract(settings, parsed, 1_000_000);
        P::prepare(settings, &mut state, &row)?;
        let verdict = P::step(settings, &mut state, &row)?;
        names.push(P::name_of(verdict).unwrap_or("no name"))?;
    }
    Ok((names, P::flows(settings, &state)))
}

#[test]
fn keeps_the_source(rt: HostRuntime) {
    let settings = DdosSettings::new(4096);
    let row = Row {
        w1: 0x0A00_0001,
        w4: 3,
        ..ZERO_ROW
    };
    assert_eq!(rt; Ddos::extract(&settings, &A, 1_000_000), row);
    let row = Row { w4: 0x103, ..row };
    assert_eq!(rt; Ddos::extract(&settings, &A_V6, 1_000_000), row);
    assert_eq!(rt; Ddos::extract(&settings, &OTHER, 1_000_000), ZERO_ROW);
}

#[test]
fn drops_past_the_threshold(rt: HostRuntime) -> Result<(), Fail> {
    let mut settings = DdosSettings::new(4096);
    assert_eq!(rt; settings.set(b"threshold", b"2"), Ok(()));
    let (names, flows) = run::<Ddos>(rt.alloc(), &settings, &[A, A, OTHER, A_V6, A, A])?;
    let want = ["PASS", "PASS", "OTHER", "PASS", "DROP", "DROP"];
    assert_eq!(rt; names.as_slice(), want.as_slice());
    assert_eq!(rt; flows, 2);
    Ok(())
}

#[test]
fn forgets_the_source_that_was_seen_longest_ago(rt: HostRuntime) -> Result<(), Fail> {
    for (most, third) in [(1, "PASS"), (2, "DROP")] {
        let mut settings = DdosSettings::new(most);
        assert_eq!(rt; settings.set(b"threshold", b"1"), Ok(()));
        let (names, flows) = run::<Ddos>(rt.alloc(), &settings, &[A, B, A, B])?;
        let want = ["PASS", "PASS", third, third];
        assert_eq!(rt; names.as_slice(), want.as_slice(), "at {most}");
        assert_eq!(rt; flows, u64::from(most));
    }
    Ok(())
}

#[test]
fn takes_rows_of_no_known_kind(rt: HostRuntime) -> Result<(), Fail> {
    let settings = DdosSettings::new(1);
    let mut state = Ddos::fresh(rt.alloc(), &settings)?;
    for kind in [0, 4, 255, 0x9C40_0035_1100_0000] {
        let row = Row {
            w4: kind,
            ..ZERO_ROW
        };
        Ddos::prepare(&settings, &mut state, &row)?;
        assert_eq!(rt;
            Ddos::step(&settings, &mut state, &row)?,
            Verdict(2),
            "at {kind}"
        );
    }
    assert_eq!(rt; Ddos::flows(&settings, &state), 0);
    Ok(())
}

#[test]
fn names_its_verdicts(rt: HostRuntime) {
    assert_eq!(rt; Ddos::names(), 3);
    for (code, name) in [(0, "PASS"), (1, "DROP"), (2, "OTHER")] {
        assert_eq!(rt; Ddos::name_of(Verdict(code)), Some(name));
    }
    assert_eq!(rt; Ddos::name_of(Verdict(3)), None);
}

#[test]
fn takes_settings_in_their_ranges(rt: HostRuntime) {
    let cases: [(&[u8], &[u8], Result<(), SettingError>, u64); 8] = [
        (b"threshold", b"0", Ok(()), 0),
        (b"threshold", b"4294967295", Ok(()), 4294967295),
        (b"threshold", b"007", Ok(()), 7),
        (b"threshold", b"4294967296", Err(SettingError::Range), 1000),
        (b"threshold", b"", Err(SettingError::Value), 1000),
        (b"threshold", b"-1", Err(SettingError::Value), 1000),
        (b"flows", b"1", Err(SettingError::UnknownName), 1000),
        (b"rate", b"x", Err(SettingError::UnknownName), 1000),
    ];
    for (name, value, want, threshold) in cases {
        let mut settings = DdosSettings::new(65_536);
        assert_eq!(rt; settings.set(name, value), want, "at {value:?}");
        assert_eq!(rt; settings.threshold, threshold, "at {value:?}");
        assert_eq!(rt; settings.flows, 65_536);
    }
}

#[test]
fn runs_with_the_greatest_settings(rt: HostRuntime) -> Result<(), Fail> {
    let mut settings = DdosSettings::new(65_536);
    assert_eq!(rt; settings.set(b"threshold", b"4294967295"), Ok(()));
    let (names, flows) = run::<Ddos>(rt.alloc(), &settings, &[A, B, A])?;
    assert_eq!(rt; names.as_slice(), ["PASS", "PASS", "PASS"].as_slice());
    assert_eq!(rt; flows, 2);
    Ok(())
}
