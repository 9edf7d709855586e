//! Rows, verdicts and settings with the values that they should have, each call through the trait.

use super::*;
use scr_base::{OutOfMemory, Row, Verdict};
use scr_frame::{Kind, Parsed};
use scr_program::{Program, SettingError, ZERO_ROW};
use std::alloc::Global;
use std::test::Fail;

/// 10.0.0.1 port 40000 to 10.0.0.2 port 53, over UDP.
const A: Parsed = Parsed {
    kind: Kind::Udp,
    family: 0,
    source: 0x0A00_0001,
    destination: 0x0A00_0002,
    source_port: 40000,
    destination_port: 53,
    protocol: 17,
    flags: 0,
    length: 28,
};

/// The same to another port.
const A_54: Parsed = Parsed {
    destination_port: 54,
    ..A
};

/// A frame without an IP packet.
const OTHER: Parsed = Parsed {
    kind: Kind::Other,
    source: 0,
    destination: 0,
    source_port: 0,
    destination_port: 0,
    protocol: 0,
    length: 0,
    ..A
};

/// The row of `A`.
const ROW: Row = Row {
    w1: 0x0A00_0001,
    w3: 0x0A00_0002,
    w4: 0x9C40_0035_1100_0003,
    w6: 28,
    ..ZERO_ROW
};

/// The names of the verdicts on packets that come one after another, and how many flows there are then.
fn run<P: Program>(
    alloc: Global,
    settings: &P::Settings,
    packets: &[Parsed],
) -> Result<(Vec<&'static str>, u64), OutOfMemory> {
    let mut state = P::fresh(alloc, settings)?;
    let mut names = Vec::new(alloc);
    for parsed in packets {
        let row = P::extract(settings, parsed, 1_000_000);
        P::prepare(settings, &mut state, &row)?;
        let verdict = P::step(settings, &mut state, &row)?;
        names.push(P::name_of(verdict).unwrap_or("no name"))?;
    }
    Ok((names, P::flows(settings, &state)))
}

#[test]
fn keeps_the_flow_and_the_length(rt: HostRuntime) {
    let settings = HeavySettings::new(4096);
    assert_eq!(rt; Heavy::extract(&settings, &A, 1_000_000), ROW);
    let ipv6 = Parsed { family: 1, ..A };
    let row = Row {
        w4: 0x9C40_0035_1100_0103,
        ..ROW
    };
    assert_eq!(rt; Heavy::extract(&settings, &ipv6, 1_000_000), row);
    assert_eq!(rt; Heavy::extract(&settings, &OTHER, 1_000_000), ZERO_ROW);
}

#[test]
fn tells_a_flow_with_as_many_bytes(rt: HostRuntime) -> Result<(), Fail> {
    let cases: [(&[u8], &str); 4] = [
        (b"56", "HEAVY"),
        (b"57", "PASS"),
        (b"60", "PASS"),
        (b"1", "HEAVY"),
    ];
    for (bytes, second) in cases {
        let mut settings = HeavySettings::new(4096);
        assert_eq!(rt; settings.set(b"bytes", bytes), Ok(()));
        let (names, flows) = run::<Heavy>(rt.alloc(), &settings, &[A, A, A])?;
        let first = if bytes == b"1".as_slice() {
            "HEAVY"
        } else {
            "PASS"
        };
        let want = [first, second, "HEAVY"];
        assert_eq!(rt; names.as_slice(), want.as_slice(), "at {bytes:?}");
        assert_eq!(rt; flows, 1);
    }
    Ok(())
}

#[test]
fn sums_each_flow(rt: HostRuntime) -> Result<(), Fail> {
    let ping = Parsed { protocol: 1, ..A };
    let cases = [
        (3, ["PASS", "PASS", "PASS", "OTHER", "HEAVY"]),
        (1, ["PASS", "PASS", "PASS", "OTHER", "PASS"]),
    ];
    for (most, want) in cases {
        let mut settings = HeavySettings::new(most);
        assert_eq!(rt; settings.set(b"bytes", b"56"), Ok(()));
        let (names, flows) = run::<Heavy>(rt.alloc(), &settings, &[A, A_54, ping, OTHER, A])?;
        assert_eq!(rt; names.as_slice(), want.as_slice(), "at {most}");
        assert_eq!(rt; flows, u64::from(most));
    }
    Ok(())
}

#[test]
fn takes_rows_of_no_known_kind(rt: HostRuntime) -> Result<(), Fail> {
    let settings = HeavySettings::new(1);
    let mut state = Heavy::fresh(rt.alloc(), &settings)?;
    for kind in [0, 4, 255] {
        let row = Row {
            w4: 0x9C40_0035_1100_0000 + kind,
            ..ROW
        };
        Heavy::prepare(&settings, &mut state, &row)?;
        let verdict = Heavy::step(&settings, &mut state, &row)?;
        assert_eq!(rt; verdict, Verdict(2), "at {kind}");
    }
    assert_eq!(rt; Heavy::flows(&settings, &state), 0);
    Ok(())
}

#[test]
fn names_its_verdicts(rt: HostRuntime) {
    assert_eq!(rt; Heavy::names(), 3);
    for (code, name) in [(0, "PASS"), (1, "HEAVY"), (2, "OTHER")] {
        assert_eq!(rt; Heavy::name_of(Verdict(code)), Some(name));
    }
    assert_eq!(rt; Heavy::name_of(Verdict(3)), None);
}

#[test]
fn takes_settings_in_their_ranges(rt: HostRuntime) {
    let cases: [(&[u8], &[u8], Result<(), SettingError>, u64); 8] = [
        (b"bytes", b"1", Ok(()), 1),
        (b"bytes", b"1000000000000", Ok(()), 1_000_000_000_000),
        (b"bytes", b"007", Ok(()), 7),
        (b"bytes", b"0", Err(SettingError::Range), 1_000_000),
        (
            b"bytes",
            b"1000000000001",
            Err(SettingError::Range),
            1_000_000,
        ),
        (b"bytes", b"1k", Err(SettingError::Value), 1_000_000),
        (b"flows", b"1", Err(SettingError::UnknownName), 1_000_000),
        (b"byte", b"x", Err(SettingError::UnknownName), 1_000_000),
    ];
    for (name, value, want, bytes) in cases {
        let mut settings = HeavySettings::new(65_536);
        assert_eq!(rt; settings.set(name, value), want, "at {value:?}");
        assert_eq!(rt; settings.bytes, bytes, "at {value:?}");
        assert_eq!(rt; settings.flows, 65_536);
    }
}

#[test]
fn runs_with_the_greatest_settings(rt: HostRuntime) -> Result<(), Fail> {
    let mut settings = HeavySettings::new(65_536);
    assert_eq!(rt; settings.set(b"bytes", b"1000000000000"), Ok(()));
    let (names, flows) = run::<Heavy>(rt.alloc(), &settings, &[A, A_54, A])?;
    assert_eq!(rt; names.as_slice(), ["PASS", "PASS", "PASS"].as_slice());
    assert_eq!(rt; flows, 2);
    Ok(())
}
