//! Knocks followed by hand, with the verdicts that they should have, each call through the trait.

use super::*;
use scr_base::{OutOfMemory, Row, Verdict};
use scr_frame::{Kind, Parsed};
use scr_program::{Program, SettingError, ZERO_ROW};
use std::alloc::Global;
use std::test::Fail;

/// 10.0.0.1 port 40000 to 10.0.0.2 port 53, over UDP.
const DATAGRAM: Parsed = Parsed {
    kind: Kind::Udp,
    family: 0,
    source: 0x0A00_0001,
    destination: 0x0A00_0002,
    source_port: 40000,
    destination_port: 53,
    protocol: 17,
    flags: 0,
    length: 28,
};

/// A packet without ports.
const BARE: Parsed = Parsed {
    kind: Kind::Bare,
    source_port: 0,
    destination_port: 0,
    ..DATAGRAM
};

/// The datagram to this port.
fn to(port: u16) -> Parsed {
    Parsed {
        destination_port: port,
        ..DATAGRAM
    }
}

/// The names of the verdicts on packets that come one after another, and how many flows there are then.
fn run<P: Program>(
    alloc: Global,
    settings: &P::Settings,
    packets: &[Parsed],
) -> Result<(Vec<&'static str>, u64), OutOfMemory> {
    let mut state = P::fresh(alloc, settings)?;
    let mut names = Vec::new(alloc);
    for parsed in packets {
        let row = P::extract(settings, parsed, 1_000_000);
        P::prepare(settings, &mut state, &row)?;
        let verdict = P::step(settings, &mut state, &row)?;
        names.push(P::name_of(verdict).unwrap_or("no name"))?;
    }
    Ok((names, P::flows(settings, &state)))
}

#[test]
fn keeps_the_source_and_the_port(rt: HostRuntime) {
    let settings = KnockSettings::new(4096);
    let row = Row {
        w1: 0x0A00_0001,
        w4: 0x0000_0035_0000_0003,
        ..ZERO_ROW
    };
    assert_eq!(rt; Knock::extract(&settings, &DATAGRAM, 1_000_000), row);
    let segment = Parsed {
        kind: Kind::Tcp,
        family: 1,
        source: 1 << 64,
        protocol: 6,
        flags: 0xFF,
        ..DATAGRAM
    };
    let row = Row {
        w0: 1,
        w4: 0x0000_0035_0000_0102,
        ..ZERO_ROW
    };
    assert_eq!(rt; Knock::extract(&settings, &segment, 1_000_000), row);
    assert_eq!(rt; Knock::extract(&settings, &BARE, 1_000_000), ZERO_ROW);
}

#[test]
fn opens_to_three_knocks_in_turn(rt: HostRuntime) -> Result<(), Fail> {
    let cases = [
        ([7000, 7000, 8000, 9000, 22], "PASS"),
        ([7000, 9000, 8000, 9000, 22], "DROP"),
        ([7000, 8000, 7000, 8000, 9000], "DROP"),
        ([7000, 8000, 22, 9000, 22], "DROP"),
        ([7000, 8000, 8000, 9000, 22], "DROP"),
        ([22, 7000, 8000, 9000, 7000], "PASS"),
    ];
    for (ports, last) in cases {
        let packets = ports.map(to);
        let (names, flows) = run::<Knock>(rt.alloc(), &KnockSettings::new(4096), &packets)?;
        let want = ["DROP", "DROP", "DROP", "DROP", last];
        assert_eq!(rt; names.as_slice(), want.as_slice(), "at {ports:?}");
        assert_eq!(rt; flows, 1);
    }
    Ok(())
}

#[test]
fn begins_anew_at_the_first_port(rt: HostRuntime) -> Result<(), Fail> {
    let packets = [7000, 8000, 7000, 8000, 9000, 1, 7000].map(to);
    let (names, _) = run::<Knock>(rt.alloc(), &KnockSettings::new(4096), &packets)?;
    let want = ["DROP", "DROP", "DROP", "DROP", "DROP", "PASS", "PASS"];
    assert_eq!(rt; names.as_slice(), want.as_slice());
    Ok(())
}

#[test]
fn one_port_may_stand_for_all_three(rt: HostRuntime) -> Result<(), Fail> {
    let mut settings = KnockSettings::new(4096);
    assert_eq!(rt; settings.set(b"ports", b"5,5,5"), Ok(()));
    let packets = [5, 5, 5, 6].map(to);
    let (names, _) = run::<Knock>(rt.alloc(), &settings, &packets)?;
    let want = ["DROP", "DROP", "DROP", "PASS"];
    assert_eq!(rt; names.as_slice(), want.as_slice());
    Ok(())
}

#[test]
fn each_source_knocks_for_itself(rt: HostRuntime) -> Result<(), Fail> {
    let other_family = |port| Parsed {
        family: 1,
        ..to(port)
    };
    let packets = [
        to(7000),
        other_family(8000),
        to(8000),
        BARE,
        to(9000),
        other_family(22),
        to(22),
    ];
    let want = ["DROP", "DROP", "DROP", "OTHER", "DROP", "DROP", "PASS"];
    let (names, flows) = run::<Knock>(rt.alloc(), &KnockSettings::new(2), &packets)?;
    assert_eq!(rt; names.as_slice(), want.as_slice());
    assert_eq!(rt; flows, 2);
    let (names, flows) = run::<Knock>(rt.alloc(), &KnockSettings::new(1), &packets)?;
    assert_eq!(rt; (names.last(), flows), (Some(&"DROP"), 1));
    Ok(())
}

#[test]
fn a_full_table_takes_a_prepared_row(rt: HostRuntime) -> Result<(), Fail> {
    let settings = KnockSettings::new(1);
    let mut state = Knock::fresh(rt.alloc(), &settings)?;
    for (source, before) in [(1, 0), (2, 1), (2, 1), (3, 1)] {
        let parsed = Parsed { source, ..to(7000) };
        let row = Knock::extract(&settings, &parsed, 1);
        Knock::prepare(&settings, &mut state, &row)?;
        assert_eq!(rt; Knock::flows(&settings, &state), before, "at {source}");
        assert_eq!(rt;
            Knock::step(&settings, &mut state, &row)?,
            Verdict(1),
            "at {source}"
        );
    }
    assert_eq!(rt; Knock::flows(&settings, &state), 1);
    Ok(())
}

#[test]
fn names_its_verdicts(rt: HostRuntime) {
    assert_eq!(rt; Knock::names(), 3);
    for (code, name) in [
        (0, Some("PASS")),
        (1, Some("DROP")),
        (2, Some("OTHER")),
        (3, None),
        (255, None),
    ] {
        assert_eq!(rt; Knock::name_of(Verdict(code)), name, "at {code}");
    }
}

#[test]
fn refuses_settings(rt: HostRuntime) {
    let new = KnockSettings::new(7);
    assert_eq!(rt;
        (new.first, new.second, new.third, new.flows),
        (7000, 8000, 9000, 7)
    );
    let cases: [(&str, &str, Result<(u16, u16, u16), SettingError>); 18] = [
        ("ports", "1,2,3", Ok((1, 2, 3))),
        ("ports", "65535,65535,65535", Ok((65535, 65535, 65535))),
        ("ports", "00001,0000000000000000000000002,03", Ok((1, 2, 3))),
        ("ports", "0,1,2", Err(SettingError::Range)),
        ("ports", "1,2,0", Err(SettingError::Range)),
        ("ports", "1,65536,2", Err(SettingError::Range)),
        (
            "ports",
            "1,2,99999999999999999999999",
            Err(SettingError::Range),
        ),
        ("ports", "1,2", Err(SettingError::Value)),
        ("ports", "0,x,1", Err(SettingError::Value)),
        ("ports", "0,1,x", Err(SettingError::Value)),
        ("ports", "1,2,3,", Err(SettingError::Value)),
        ("ports", "1,2,3,4", Err(SettingError::Value)),
        ("ports", ",1,2,3", Err(SettingError::Value)),
        ("ports", "1,,3", Err(SettingError::Value)),
        ("ports", "", Err(SettingError::Value)),
        ("ports", "1, 2,3", Err(SettingError::Value)),
        ("flows", "5", Err(SettingError::UnknownName)),
        ("port", "x", Err(SettingError::UnknownName)),
    ];
    for (name, value, want) in cases {
        let mut settings = new;
        let answer = settings.set(name.as_bytes(), value.as_bytes());
        let (ports, is) = match want {
            Ok(ports) => (ports, Ok(())),
            Err(refusal) => ((7000, 8000, 9000), Err(refusal)),
        };
        assert_eq!(rt; answer, is, "at {name}={value}");
        let now = (settings.first, settings.second, settings.third);
        assert_eq!(rt; (now, settings.flows), (ports, 7), "at {name}={value}");
    }
}

#[test]
fn runs_with_the_greatest_settings(rt: HostRuntime) -> Result<(), Fail> {
    let mut settings = KnockSettings::new(65_536);
    assert_eq!(rt; settings.set(b"ports", b"65535,65535,65535"), Ok(()));
    let packets = [65_535, 65_535, 65_535, 1].map(to);
    let (names, flows) = run::<Knock>(rt.alloc(), &settings, &packets)?;
    let want = ["DROP", "DROP", "DROP", "PASS"];
    assert_eq!(rt; names.as_slice(), want.as_slice());
    assert_eq!(rt; flows, 1);
    Ok(())
}
