//! The door and its table side by side, over the same rows.

use scr_base::Row;
use scr_frame::{Kind, Parsed};
use scr_knock::{Knock, KnockSettings};
use scr_program::Program;
use scr_tables::{Table, TableSettings, Tables};
use std::alloc::Global;
use std::test::Fail;

/// The rules of the door.
const DOOR: &[u8] =
    b"0:d7000>1/D,0:*>0/D,1:d8000>2/D,1:d7000>1/D,1:*>0/D,2:d9000>3/D,2:d7000>1/D,2:*>0/D,3:*>3/P";

/// A segment or a datagram of this source to this port.
fn packet(kind: Kind, source: u128, port: u16) -> Parsed {
    Parsed {
        kind,
        family: 0,
        source,
        destination: 9,
        source_port: 40000,
        destination_port: port,
        protocol: 0,
        flags: 2,
        length: 40,
    }
}

/// The names of the verdicts on rows that come one after another, and how many sources there are then.
fn run<P: Program>(
    alloc: Global,
    settings: &P::Settings,
    rows: &[Row],
) -> Result<(Vec<&'static str>, u64), Fail> {
    let mut state = P::fresh(alloc, settings)?;
    let mut names = Vec::new(alloc);
    for row in rows {
        let verdict = P::step(settings, &mut state, row)?;
        names.push(P::name_of(verdict).unwrap_or("no name"))?;
    }
    Ok((names, P::flows(settings, &state)))
}

#[test]
fn forget_and_open_alike(rt: HostRuntime) -> Result<(), Fail> {
    let alloc = rt.alloc();
    let table = TableSettings::new(Table::read(alloc, DOOR)?, 2);
    let door = KnockSettings::new(2);
    let packets = [
        (Kind::Udp, 1, 7000, "DROP"),
        (Kind::Tcp, 1, 8000, "DROP"),
        (Kind::Udp, 2, 7000, "DROP"),
        (Kind::Udp, 1, 9000, "DROP"),
        (Kind::Tcp, 1, 22, "PASS"),
        // Source 2 is forgotten, and then source 1.
        (Kind::Tcp, 3, 7000, "DROP"),
        (Kind::Udp, 2, 8000, "DROP"),
        (Kind::Tcp, 3, 8000, "DROP"),
        (Kind::Tcp, 1, 22, "DROP"),
        (Kind::Udp, 3, 9000, "DROP"),
        (Kind::Udp, 3, 7000, "PASS"),
    ];
    let mut rows = Vec::new(alloc);
    let mut want = Vec::new(alloc);
    for (kind, source, port, name) in packets {
        rows.push(Tables::extract(&table, &packet(kind, source, port), 1))?;
        want.push(name)?;
    }
    let (names, sources) = run::<Tables>(alloc, &table, &rows)?;
    assert_eq!(rt; names.as_slice(), want.as_slice());
    assert_eq!(rt; sources, 2);
    let (names, sources) = run::<Knock>(alloc, &door, &rows)?;
    assert_eq!(rt; names.as_slice(), want.as_slice());
    assert_eq!(rt; sources, 2);
    Ok(())
}
