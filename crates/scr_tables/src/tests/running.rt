ghost use Rattle.std.specs.Prelude.{◌≤◌};

use crate::{Table, TableSettings, Tables};
use scr_base::{Row, Verdict};
use scr_frame::{Kind, Parsed};
use scr_program::{Program, ZERO_ROW};
use std::alloc::Global;
use std::test::Fail;

/// 10.0.0.1 port 40000 to 10.0.0.2 port 53, over UDP.
const DATAGRAM: Parsed = Parsed {
    kind: Kind::Udp,
    family: 0,
    source: 0x0A00_0001,
    destination: 0x0A00_0002,
    source_port: 40000,
    destination_port: 53,
    protocol: 17,
    flags: 0,
    length: 28,
};

/// A packet without ports.
const BARE: Parsed = Parsed {
    kind: Kind::Bare,
    source_port: 0,
    destination_port: 0,
    ..DATAGRAM
};

/// A frame without an IP packet.
const OTHER: Parsed = Parsed {
    kind: Kind::Other,
    source: 0,
    destination: 0,
    protocol: 0,
    length: 0,
    ..BARE
};

/// Three knocks, at 7000, 8000 and 9000, open the door.
const KNOCK: &[u8] =
    b"0:d7000>1/D,0:*>0/D,1:d8000>2/D,1:d7000>1/D,1:*>0/D,2:d9000>3/D,2:d7000>1/D,2:*>0/D,3:*>3/P";

/// Three RST lock a source out.
const LOCK_OUT: &[u8] = b"0:f4>1/P,0:*>0/P,1:f4>2/P,1:*>1/P,2:f4>3/D,2:*>2/P,3:*>3/D";

/// A source is let in behind UDP and then TCP.
const UDP_THEN_TCP: &[u8] = b"0:u>1/D,0:*>0/D,1:t>2/D,1:u>1/D,1:*>0/D,2:*>2/P";

/// The datagram to this port.
fn to(port: u16) -> Parsed {
    Parsed {
        destination_port: port,
        ..DATAGRAM
    }
}

/// A segment with these flags to port 80.
fn segment(flags: u8) -> Parsed {
    Parsed {
        kind: Kind::Tcp,
        destination_port: 80,
        protocol: 6,
        flags,
        ..DATAGRAM
    }
}

fn settings(alloc: Global, text: &[u8], flows: u32) -> Result<TableSettings, Fail>
    requires some { 1 ≤ flows }
    requires few { flows ≤ 65536 }
{
    Ok(TableSettings::new(Table::read(alloc, text)?, flows))
}

/// The names of the verdicts on packets that come one after another, and how many flows there are then.
fn run<P: Program>(
    alloc: Global,
    settings: &P::Settings,
    packets: &[Parsed],
) -> Result<(Vec<&'static str>, u64), Fail> {
    let mut state = P::fresh(alloc, settings)?;
    let mut names = Vec::new(alloc);
    for parsed in packets {
        let row = P::extract(settings, parsed, 1_000_000);
        P::prepare(settings, &mut state, &row)?;
        let verdict = P::step(settings, &mut state, &row)?;
        names.push(P::name_of(verdict).unwrap_or("no name"))?;
    }
    Ok((names, P::flows(settings, &state)))
}

#[test]
fn keeps_what_rules_ask_for(rt: HostRuntime) -> Result<(), Fail> {
    let settings = settings(rt.alloc(), b"0:*>0/P", 4096)?;
    let row = Row {
        w1: 0x0A00_0001,
        w4: 0x0000_0035_0000_0003,
        ..ZERO_ROW
    };
    assert_eq!(rt; Tables::extract(&settings, &DATAGRAM, 1_000_000), row);
    let row = Row {
        w0: 1,
        w1: 0,
        w4: 0x0000_0050_00FF_0102,
        ..ZERO_ROW
    };
    let parsed = Parsed {
        family: 1,
        source: 1 << 64,
        ..segment(0xFF)
    };
    assert_eq!(rt; Tables::extract(&settings, &parsed, 1_000_000), row);
    let row = Row {
        w1: 0x0A00_0001,
        w4: 1,
        ..ZERO_ROW
    };
    assert_eq!(rt; Tables::extract(&settings, &BARE, 1_000_000), row);
    assert_eq!(rt; Tables::extract(&settings, &OTHER, 1_000_000), ZERO_ROW);
    Ok(())
}

#[test]
fn opens_to_three_knocks_in_turn(rt: HostRuntime) -> Result<(), Fail> {
    let settings = settings(rt.alloc(), KNOCK, 4096)?;
    let cases = [
        ([7000, 7000, 8000, 9000, 22], "PASS"),
        ([7000, 9000, 8000, 9000, 22], "DROP"),
        ([7000, 8000, 7000, 8000, 9000], "DROP"),
        ([7000, 8000, 22, 9000, 22], "DROP"),
        ([22, 7000, 8000, 9000, 7000], "PASS"),
    ];
    for (ports, last) in cases {
        let packets = ports.map(to);
        let (names, flows) = run::<Tables>(rt.alloc(), &settings, &packets)?;
        let want = ["DROP", "DROP", "DROP", "DROP", last];
        assert_eq!(rt; names.as_slice(), want.as_slice(), "at {ports:?}");
        assert_eq!(rt; flows, 1);
    }
    Ok(())
}

#[test]
fn locks_out_after_three_resets(rt: HostRuntime) -> Result<(), Fail> {
    let settings = settings(rt.alloc(), LOCK_OUT, 4096)?;
    let packets = [
        segment(0x02),
        segment(0x04),
        segment(0x10),
        segment(0x14),
        DATAGRAM,
        BARE,
        OTHER,
        segment(0x04),
        segment(0x02),
        BARE,
    ];
    let want = [
        "PASS", "PASS", "PASS", "PASS", "PASS", "PASS", "OTHER", "DROP", "DROP", "DROP",
    ];
    let (names, flows) = run::<Tables>(rt.alloc(), &settings, &packets)?;
    assert_eq!(rt; names.as_slice(), want.as_slice());
    assert_eq!(rt; flows, 1);
    Ok(())
}

#[test]
fn lets_in_behind_udp_and_then_tcp(rt: HostRuntime) -> Result<(), Fail> {
    let settings = settings(rt.alloc(), UDP_THEN_TCP, 4096)?;
    let packets = [
        segment(2),
        DATAGRAM,
        BARE,
        segment(2),
        DATAGRAM,
        DATAGRAM,
        segment(2),
        BARE,
    ];
    let want = [
        "DROP", "DROP", "DROP", "DROP", "DROP", "DROP", "DROP", "PASS",
    ];
    let (names, _) = run::<Tables>(rt.alloc(), &settings, &packets)?;
    assert_eq!(rt; names.as_slice(), want.as_slice());
    Ok(())
}

#[test]
fn takes_the_first_rule_of_the_list(rt: HostRuntime) -> Result<(), Fail> {
    let text = b"0:d53>1/P,0:u>0/D,1:*>0/P,0:*>0/P,0:d80>1/D,1:u>1/D";
    let settings = settings(rt.alloc(), text, 4096)?;
    let packets = [to(80), segment(0), DATAGRAM, to(80), to(80)];
    let want = ["DROP", "PASS", "PASS", "PASS", "DROP"];
    let (names, _) = run::<Tables>(rt.alloc(), &settings, &packets)?;
    assert_eq!(rt; names.as_slice(), want.as_slice());
    Ok(())
}

#[test]
fn holds_of_all_flags_and_of_ports_where_there_are_some(rt: HostRuntime) -> Result<(), Fail> {
    let alloc = rt.alloc();
    let cases: [(&[u8], Parsed, &str); 12] = [
        (b"0:f18>0/D,0:*>0/P", segment(0x12), "DROP"),
        (b"0:f18>0/D,0:*>0/P", segment(0xFF), "DROP"),
        (b"0:f18>0/D,0:*>0/P", segment(0x02), "PASS"),
        (b"0:f18>0/D,0:*>0/P", segment(0x10), "PASS"),
        (b"0:f0>0/D,0:*>0/P", segment(0), "DROP"),
        (b"0:f0>0/D,0:*>0/P", DATAGRAM, "PASS"),
        (b"0:d0>0/D,0:*>0/P", BARE, "PASS"),
        (b"0:d0>0/D,0:*>0/P", to(0), "DROP"),
        (b"0:d80>0/D,0:*>0/P", segment(0), "DROP"),
        (b"0:d40000>0/D,0:*>0/P", segment(0), "PASS"),
        (b"0:t>0/D,0:*>0/P", DATAGRAM, "PASS"),
        (b"0:u>0/D,0:*>0/P", segment(0), "PASS"),
    ];
    for (text, packet, want) in cases {
        let settings = settings(alloc, text, 1)?;
        let (names, _) = run::<Tables>(alloc, &settings, &[packet])?;
        assert_eq!(rt; names.as_slice(), [want].as_slice(), "at {text:?}");
    }
    Ok(())
}

#[test]
fn each_source_has_a_state_of_its_own(rt: HostRuntime) -> Result<(), Fail> {
    let text = b"0:*>1/D,1:*>2/P,2:*>2/P";
    let other_family = Parsed {
        family: 1,
        ..DATAGRAM
    };
    let packets = [DATAGRAM, other_family, DATAGRAM, other_family];
    let wanted = settings(rt.alloc(), text, 2)?;
    let (names, flows) = run::<Tables>(rt.alloc(), &wanted, &packets)?;
    let want = ["DROP", "DROP", "PASS", "PASS"];
    assert_eq!(rt; (names.as_slice(), flows), (want.as_slice(), 2));
    let wanted = settings(rt.alloc(), text, 1)?;
    let (names, flows) = run::<Tables>(rt.alloc(), &wanted, &packets)?;
    let want = ["DROP", "DROP", "DROP", "DROP"];
    assert_eq!(rt; (names.as_slice(), flows), (want.as_slice(), 1));
    Ok(())
}

#[test]
fn takes_rows_of_no_known_kind(rt: HostRuntime) -> Result<(), Fail> {
    let settings = settings(rt.alloc(), b"0:*>0/P", 1)?;
    let mut state = Tables::fresh(rt.alloc(), &settings)?;
    for kind in [0, 4, 255, 0x9C40_0035_1100_0000] {
        let row = Row {
            w4: kind,
            ..ZERO_ROW
        };
        Tables::prepare(&settings, &mut state, &row)?;
        let verdict = Tables::step(&settings, &mut state, &row)?;
        assert_eq!(rt; verdict, Verdict(2), "at {kind}");
    }
    assert_eq!(rt; Tables::flows(&settings, &state), 0);
    Ok(())
}

#[test]
fn names_its_verdicts(rt: HostRuntime) {
    assert_eq!(rt; Tables::names(), 3);
    for (code, name) in [(0, "PASS"), (1, "DROP"), (2, "OTHER")] {
        assert_eq!(rt; Tables::name_of(Verdict(code)), Some(name));
    }
    assert_eq!(rt; Tables::name_of(Verdict(3)), None);
}
