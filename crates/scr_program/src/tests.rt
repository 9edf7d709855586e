//! The rows of a frame with the words that the formats give.

use super::*;
use scr_base::Row;
use scr_frame::{Kind, Parsed};
use std::test::Fail;

mod tables;
mod tally;

/// 10.0.0.1 port 40000 to 10.0.0.2 port 53, over UDP.
const DATAGRAM: Parsed = Parsed {
    kind: Kind::Udp,
    family: 0,
    source: 0x0A00_0001,
    destination: 0x0A00_0002,
    source_port: 40000,
    destination_port: 53,
    protocol: 17,
    flags: 0,
    length: 28,
};

const FIRST: Address = Address {
    family: 0,
    value: 0x0A00_0001,
};

const SECOND: Address = Address {
    family: 0,
    value: 0x0A00_0002,
};

/// The number of `FIRST` in the other family.
const FIRST_V6: Address = Address {
    family: 1,
    value: 0x0A00_0001,
};

#[test]
fn rows_of_a_datagram(rt: HostRuntime) {
    let fields = fields_of(&DATAGRAM, 1_000_000);
    assert_eq!(rt; fields.source, FIRST);
    assert_eq!(rt; fields.destination, SECOND);
    assert_eq!(rt;
        (fields.kind, fields.time, fields.length),
        (3, 1_000_000, 28)
    );
    let row = Row {
        w1: 0x0A00_0001,
        w3: 0x0A00_0002,
        w4: 0x9C40_0035_1100_0003,
        w5: 1_000_000,
        w6: 28,
        ..ZERO_ROW
    };
    assert_eq!(rt; pack(&fields), row);
    assert_eq!(rt; unpack(&row), fields);
    let source = Fields {
        source: FIRST,
        kind: 3,
        ..Fields::NONE
    };
    let row = Row {
        w1: 0x0A00_0001,
        w4: 3,
        ..ZERO_ROW
    };
    assert_eq!(rt; pack(&source), row);
}

#[test]
fn any_words_have_fields(rt: HostRuntime) {
    let row = Row {
        w0: u64::MAX,
        w1: 1,
        w4: 0x0102_0304_0506_07FF,
        ..ZERO_ROW
    };
    let fields = unpack(&row);
    assert_eq!(rt;
        fields.source,
        Address {
            family: 7,
            value: u128::MAX - 0xFFFF_FFFF_FFFF_FFFE
        }
    );
    assert_eq!(rt;
        fields.destination,
        Address {
            family: 7,
            value: 0
        }
    );
    assert_eq!(rt;
        (fields.source_port, fields.destination_port),
        (0x0102, 0x0304)
    );
    assert_eq!(rt; (fields.protocol, fields.flags, fields.kind), (5, 6, 0xFF));
}

#[test]
fn families_part_addresses(rt: HostRuntime) {
    assert!(rt; FIRST < SECOND);
    assert!(rt; SECOND < FIRST_V6);
}
