//! Chains over packets that were followed by hand, each call through the trait.

use super::*;
use scr_base::{OutOfMemory, Verdict};
use scr_conn::{Conn, ConnSettings};
use scr_ddos::{Ddos, DdosSettings};
use scr_frame::{Kind, Parsed};
use scr_heavy::{Heavy, HeavySettings};
use scr_knock::{Knock, KnockSettings};
use scr_program::Program;
use std::alloc::Global;
use std::test::Fail;

/// 10.0.0.1 port 40000 to 10.0.0.2 port 53, over UDP.
const A: Parsed = Parsed {
    kind: Kind::Udp,
    family: 0,
    source: 0x0A00_0001,
    destination: 0x0A00_0002,
    source_port: 40000,
    destination_port: 53,
    protocol: 17,
    flags: 0,
    length: 28,
};

/// A frame without an IP packet.
const NO_PACKET: Parsed = Parsed {
    kind: Kind::Other,
    source: 0,
    destination: 0,
    source_port: 0,
    destination_port: 0,
    protocol: 0,
    length: 0,
    ..A
};

/// A SYN from the same source.
const SYN: Parsed = Parsed {
    kind: Kind::Tcp,
    protocol: 6,
    flags: 2,
    destination_port: 80,
    length: 40,
    ..A
};

/// The names of the verdicts on packets that come one after another, and how many flows there are then.
fn run<P: Program>(
    alloc: Global,
    settings: &P::Settings,
    packets: &[Parsed],
) -> Result<(Vec<&'static str>, u64), OutOfMemory> {
    let mut state = P::fresh(alloc, settings)?;
    let mut names = Vec::new(alloc);
    for parsed in packets {
        let row = P::extract(settings, parsed, 1_000_000);
        let verdict = P::step(settings, &mut state, &row)?;
        names.push(P::name_of(verdict).unwrap_or("no name"))?;
    }
    Ok((names, P::flows(settings, &state)))
}

// After the fourth packet the source is past the threshold, so that the sum of the flow stays below 112.
#[test]
fn the_second_misses_what_is_stopped(rt: HostRuntime) -> Result<(), Fail> {
    let settings = ChainSettings {
        first: DdosSettings {
            threshold: 3,
            flows: 4096,
        },
        second: HeavySettings {
            bytes: 60,
            flows: 4096,
        },
    };
    let (names, flows) = run::<Chain<Ddos, Heavy>>(rt.alloc(), &settings, &[A; 4])?;
    assert_eq!(rt;
        names.as_slice(),
        ["PASS", "PASS", "HEAVY", "STOPPED"].as_slice()
    );
    assert_eq!(rt; flows, 2);
    let settings = ChainSettings {
        first: DdosSettings {
            threshold: 3,
            flows: 4096,
        },
        second: HeavySettings {
            bytes: 85,
            flows: 4096,
        },
    };
    let (names, _) = run::<Chain<Ddos, Heavy>>(rt.alloc(), &settings, &[A; 5])?;
    assert_eq!(rt;
        names.as_slice(),
        ["PASS", "PASS", "PASS", "STOPPED", "STOPPED"].as_slice()
    );
    Ok(())
}

#[test]
fn other_goes_on(rt: HostRuntime) -> Result<(), Fail> {
    let settings = ChainSettings {
        first: KnockSettings::new(4096),
        second: DdosSettings::new(4096),
    };
    let (names, flows) = run::<Chain<Knock, Ddos>>(rt.alloc(), &settings, &[A, NO_PACKET])?;
    assert_eq!(rt; names.as_slice(), ["STOPPED", "OTHER"].as_slice());
    assert_eq!(rt; flows, 1);
    Ok(())
}

// HEAVY doesn't pass, and a row has what both programs look at.
#[test]
fn heavy_is_stopped_before_the_tracker(rt: HostRuntime) -> Result<(), Fail> {
    let settings = ChainSettings {
        first: HeavySettings {
            bytes: 80,
            flows: 4096,
        },
        second: ConnSettings::new(4096),
    };
    let (names, flows) = run::<Chain<Heavy, Conn>>(rt.alloc(), &settings, &[SYN, SYN, A])?;
    assert_eq!(rt;
        names.as_slice(),
        ["SYN_SENT", "STOPPED", "OTHER"].as_slice()
    );
    assert_eq!(rt; flows, 3);
    let row = Chain::<Heavy, Conn>::extract(&settings, &SYN, 7);
    assert_eq!(rt; (row.w5, row.w6, row.w4 >> 16 & 0xFF), (7, 40, 2));
    Ok(())
}

#[test]
fn names_have_one_more(rt: HostRuntime) {
    assert_eq!(rt; Chain::<Ddos, Conn>::names(), 10);
    assert_eq!(rt; Chain::<Ddos, Conn>::name_of(Verdict(8)), Some("OTHER"));
    assert_eq!(rt; Chain::<Ddos, Conn>::name_of(Verdict(9)), Some("STOPPED"));
    assert_eq!(rt; Chain::<Ddos, Conn>::name_of(Verdict(10)), None);
}
