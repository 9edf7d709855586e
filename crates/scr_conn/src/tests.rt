//! Connections followed by hand, with the verdicts that they should have, each call through the trait.

use super::*;
use scr_base::{OutOfMemory, Row, Verdict};
use scr_frame::{Kind, Parsed};
use scr_program::{Address, Program, SettingError, ZERO_ROW};
use std::alloc::Global;
use std::test::Fail;

mod cells;

const FIN: u8 = 1;

const SYN: u8 = 2;

const RST: u8 = 4;

const PSH: u8 = 8;

const ACK: u8 = 16;

/// A segment of 10.0.0.1 port 40000 to 10.0.0.2 port 80, without flags.
const FORTH: Parsed = Parsed {
    kind: Kind::Tcp,
    family: 0,
    source: 0x0A00_0001,
    destination: 0x0A00_0002,
    source_port: 40000,
    destination_port: 80,
    protocol: 6,
    flags: 0,
    length: 40,
};

/// One of the other direction.
const BACK: Parsed = Parsed {
    source: FORTH.destination,
    destination: FORTH.source,
    source_port: FORTH.destination_port,
    destination_port: FORTH.source_port,
    ..FORTH
};

/// A datagram of 10.0.0.1 port 40000 to 10.0.0.2 port 53.
const DATAGRAM: Parsed = Parsed {
    kind: Kind::Udp,
    destination_port: 53,
    protocol: 17,
    length: 28,
    ..FORTH
};

/// The later part of a fragmented segment.
const FRAGMENT: Parsed = Parsed {
    kind: Kind::Bare,
    source_port: 0,
    destination_port: 0,
    ..FORTH
};

/// A frame without an IP packet.
const OTHER: Parsed = Parsed {
    kind: Kind::Other,
    source: 0,
    destination: 0,
    source_port: 0,
    destination_port: 0,
    protocol: 0,
    length: 0,
    ..FORTH
};

/// The segment with these flags.
fn with(segment: Parsed, flags: u8) -> Parsed {
    Parsed { flags, ..segment }
}

/// The names of the verdicts on packets that come one after another at these times, and how many flows there are then.
fn run<P: Program>(
    alloc: Global,
    settings: &P::Settings,
    packets: &[(u64, Parsed)],
) -> Result<(Vec<&'static str>, u64), OutOfMemory> {
    let mut state = P::fresh(alloc, settings)?;
    let mut names = Vec::new(alloc);
    for (time, parsed) in packets {
        let row = P::extract(settings, parsed, *time);
        P::prepare(settings, &mut state, &row)?;
        let verdict = P::step(settings, &mut state, &row)?;
        names.push(P::name_of(verdict).unwrap_or("no name"))?;
    }
    Ok((names, P::flows(settings, &state)))
}

#[test]
fn keeps_the_fields_of_a_segment(rt: HostRuntime) {
    let settings = ConnSettings::new(4096);
    let row = Row {
        w1: 0x0A00_0001,
        w3: 0x0A00_0002,
        w4: 0x9C40_0050_0612_0002,
        w5: 1_000_000,
        ..ZERO_ROW
    };
    let segment = with(FORTH, SYN + ACK);
    assert_eq!(rt; Conn::extract(&settings, &segment, 1_000_000), row);
    let row = Row {
        w4: 0x9C40_0050_0612_0102,
        ..row
    };
    let segment = Parsed {
        family: 1,
        ..segment
    };
    assert_eq!(rt; Conn::extract(&settings, &segment, 1_000_000), row);
    for parsed in [DATAGRAM, FRAGMENT, OTHER] {
        assert_eq!(rt; Conn::extract(&settings, &parsed, 1_000_000), ZERO_ROW);
    }
}

#[test]
fn follows_a_connection_from_end_to_end(rt: HostRuntime) -> Result<(), Fail> {
    let packets = [
        (1_000_000, with(FORTH, SYN)),
        (2_000_000, OTHER),
        (3_000_000, with(BACK, SYN + ACK)),
        (4_000_000, with(FORTH, ACK)),
        (5_000_000, with(FORTH, PSH + ACK)),
        (6_000_000, FRAGMENT),
        (7_000_000, with(FORTH, FIN + ACK)),
        (8_000_000, with(BACK, ACK)),
        (9_000_000, with(BACK, FIN + ACK)),
        (10_000_000, with(FORTH, ACK)),
    ];
    let (names, flows) = run::<Conn>(rt.alloc(), &ConnSettings::new(4096), &packets)?;
    let want = [
        "SYN_SENT",
        "OTHER",
        "SYN_RECV",
        "ESTABLISHED",
        "ESTABLISHED",
        "OTHER",
        "FIN_WAIT",
        "FIN_WAIT",
        "LAST_ACK",
        "TIME_WAIT",
    ];
    assert_eq!(rt; names.as_slice(), want.as_slice());
    assert_eq!(rt; flows, 1);
    Ok(())
}

#[test]
fn forgets_a_connection_that_was_idle_too_long(rt: HostRuntime) -> Result<(), Fail> {
    let mut settings = ConnSettings::new(4096);
    assert_eq!(rt; settings.set(b"idle", b"1000000"), Ok(()));
    for (opener, other) in [(FORTH, BACK), (BACK, FORTH)] {
        let packets = [
            (1_000_000, with(FORTH, SYN)),
            (2_000_000, with(BACK, SYN + ACK)),
            (3_000_001, with(FORTH, ACK)),
            (3_000_001, with(opener, SYN)),
            (3_000_001, with(opener, SYN + ACK)),
            (4_000_001, with(other, SYN + ACK)),
            (5_000_001, with(opener, ACK)),
            (4_000_001, with(other, ACK)),
            (6_000_001, with(other, RST)),
            (7_000_002, with(other, RST)),
        ];
        let (names, flows) = run::<Conn>(rt.alloc(), &settings, &packets)?;
        let want = [
            "SYN_SENT",
            "SYN_RECV",
            "INVALID",
            "SYN_SENT",
            "INVALID",
            "SYN_RECV",
            "ESTABLISHED",
            "ESTABLISHED",
            "CLOSED",
            "INVALID",
        ];
        assert_eq!(rt; names.as_slice(), want.as_slice());
        assert_eq!(rt; flows, 1);
    }
    Ok(())
}

#[test]
fn an_endpoint_may_send_to_itself(rt: HostRuntime) -> Result<(), Fail> {
    let itself = Parsed {
        destination: FORTH.source,
        destination_port: FORTH.source_port,
        ..FORTH
    };
    let packets = [
        (1, with(itself, SYN)),
        (2, with(itself, SYN + ACK)),
        (3, with(itself, SYN)),
        (4, with(itself, RST)),
    ];
    let (names, flows) = run::<Conn>(rt.alloc(), &ConnSettings::new(1), &packets)?;
    let want = ["SYN_SENT", "INVALID", "SYN_SENT", "CLOSED"];
    assert_eq!(rt; names.as_slice(), want.as_slice());
    assert_eq!(rt; flows, 1);
    Ok(())
}

#[test]
fn an_invalid_packet_does_not_count_as_a_use(rt: HostRuntime) -> Result<(), Fail> {
    let second = Parsed {
        source_port: 40001,
        ..FORTH
    };
    let third = Parsed { family: 1, ..FORTH };
    let packets = [
        (1, with(FORTH, SYN)),
        (2, with(second, SYN)),
        (3, with(FORTH, ACK)),
        (4, with(third, SYN)),
        (5, with(BACK, SYN + ACK)),
        (6, with(second, SYN)),
        (7, with(third, SYN)),
    ];
    let (names, flows) = run::<Conn>(rt.alloc(), &ConnSettings::new(2), &packets)?;
    let want = [
        "SYN_SENT", "SYN_SENT", "INVALID", "SYN_SENT", "INVALID", "SYN_SENT", "SYN_SENT",
    ];
    assert_eq!(rt; names.as_slice(), want.as_slice());
    assert_eq!(rt; flows, 2);
    Ok(())
}

#[test]
fn a_full_table_takes_a_prepared_row(rt: HostRuntime) -> Result<(), Fail> {
    let settings = ConnSettings::new(1);
    let mut state = Conn::fresh(rt.alloc(), &settings)?;
    for (port, flags, name) in [
        (40000, ACK, "INVALID"),
        (40001, SYN, "SYN_SENT"),
        (40002, SYN, "SYN_SENT"),
        (40003, ACK, "INVALID"),
        (40002, SYN, "SYN_SENT"),
    ] {
        let segment = Parsed {
            source_port: port,
            flags,
            ..FORTH
        };
        let row = Conn::extract(&settings, &segment, 1);
        Conn::prepare(&settings, &mut state, &row)?;
        let before = Conn::flows(&settings, &state);
        let verdict = Conn::step(&settings, &mut state, &row)?;
        assert_eq!(rt; Conn::name_of(verdict), Some(name), "at {port}");
        assert_eq!(rt; before, u64::from(port > 40001), "at {port}");
    }
    assert_eq!(rt; Conn::flows(&settings, &state), 1);
    Ok(())
}

#[test]
fn names_its_verdicts(rt: HostRuntime) {
    let names = [
        "SYN_SENT",
        "SYN_RECV",
        "ESTABLISHED",
        "FIN_WAIT",
        "LAST_ACK",
        "TIME_WAIT",
        "CLOSED",
        "INVALID",
        "OTHER",
    ];
    assert_eq!(rt; Conn::names(), 9);
    for (code, name) in (0u8..).zip(names) {
        assert_eq!(rt; Conn::name_of(Verdict(code)), Some(name));
    }
    for code in [9, 255] {
        assert_eq!(rt; Conn::name_of(Verdict(code)), None);
    }
}

#[test]
fn endpoints_go_by_family_then_number_then_port(rt: HostRuntime) {
    let endpoint = |family, value, port| Endpoint {
        address: Address { family, value },
        port,
    };
    let ordered = [
        endpoint(0, 1, 1),
        endpoint(0, 1, 2),
        endpoint(0, 2, 1),
        endpoint(1, 1, 1),
    ];
    for pair in ordered.windows(2) {
        if let [low, high] = pair {
            assert!(rt; low < high);
        }
    }
}

#[test]
fn refuses_settings(rt: HostRuntime) {
    let new = ConnSettings::new(7);
    assert_eq!(rt; (new.idle, new.flows), (60_000_000, 7));
    let cases: [(&str, &str, Result<u64, SettingError>); 12] = [
        ("idle", "1", Ok(1)),
        ("idle", "10000000000000", Ok(10_000_000_000_000)),
        ("idle", "00000000000000000000000005", Ok(5)),
        ("idle", "0", Err(SettingError::Range)),
        ("idle", "10000000000001", Err(SettingError::Range)),
        ("idle", "99999999999999999999999", Err(SettingError::Range)),
        ("idle", "", Err(SettingError::Value)),
        ("idle", "-1", Err(SettingError::Value)),
        ("idle", "1s", Err(SettingError::Value)),
        ("flows", "5", Err(SettingError::UnknownName)),
        ("Idle", "5", Err(SettingError::UnknownName)),
        ("", "x", Err(SettingError::UnknownName)),
    ];
    for (name, value, want) in cases {
        let mut settings = new;
        let answer = settings.set(name.as_bytes(), value.as_bytes());
        let (idle, is) = match want {
            Ok(idle) => (idle, Ok(())),
            Err(refusal) => (60_000_000, Err(refusal)),
        };
        assert_eq!(rt; answer, is, "at {name}={value}");
        assert_eq!(rt;
            (settings.idle, settings.flows),
            (idle, 7),
            "at {name}={value}"
        );
    }
}

#[test]
fn runs_with_the_greatest_settings(rt: HostRuntime) -> Result<(), Fail> {
    let mut settings = ConnSettings::new(65_536);
    assert_eq!(rt; settings.set(b"idle", b"10000000000000"), Ok(()));
    let packets = [
        (0, with(FORTH, SYN)),
        (10_000_000_000_000, with(BACK, SYN + ACK)),
        (20_000_000_000_001, with(FORTH, ACK)),
    ];
    let (names, flows) = run::<Conn>(rt.alloc(), &settings, &packets)?;
    let want = ["SYN_SENT", "SYN_RECV", "INVALID"];
    assert_eq!(rt; names.as_slice(), want.as_slice());
    assert_eq!(rt; flows, 1);
    Ok(())
}
