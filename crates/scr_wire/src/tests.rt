use crate::{
    Message, MessageKind, Packet, Rows, WireError, decode, encode, encode_frame, one_message,
};
use scr_base::{OutOfMemory, Row};
use std::alloc::Global;
use std::test::Fail;

// The row of a counter of packets from 10.0.0.1: its number, and the kind of TCP.
const ROW: Row = Row {
    w0: 0,
    w1: 0x0A00_0001,
    w2: 0,
    w3: 0,
    w4: 3,
    w5: 0,
    w6: 0,
};

// A row whose bytes all differ.
const COUNTED: Row = Row {
    w0: 0x0001_0203_0405_0607,
    w1: 0x0809_0A0B_0C0D_0E0F,
    w2: 0x1011_1213_1415_1617,
    w3: 0x1819_1A1B_1C1D_1E1F,
    w4: 0x2021_2223_2425_2627,
    w5: 0x2829_2A2B_2C2D_2E2F,
    w6: 0x3031_3233_3435_3637,
};

// The bytes of `ROW`.
const ROW_BYTES: [u8; 56] = [
    0, 0, 0, 0, 0, 0, 0, 0, 0, 0, 0, 0, 0x0A, 0, 0, 1, 0, 0, 0, 0, 0, 0, 0, 0, 0, 0, 0, 0, 0, 0, 0,
    0, 0, 0, 0, 0, 0, 0, 0, 3, 0, 0, 0, 0, 0, 0, 0, 0, 0, 0, 0, 0, 0, 0, 0, 0,
];

const BEACON_256: [u8; 10] = [0x53, 0x43, 2, 2, 0, 0, 1, 0, 0, 0];

const END_4: [u8; 10] = [0x53, 0x43, 2, 3, 0, 0, 0, 4, 0, 0];

const END_0: [u8; 10] = [0x53, 0x43, 2, 3, 0, 0, 0, 0, 0, 0];

const FRAME_3: [u8; 10] = [0x53, 0x43, 2, 1, 0, 0, 0, 3, 0, 2];

fn joined(alloc: Global, parts: &[&[u8]]) -> Result<Vec<u8>, OutOfMemory> {
    let mut bytes = Vec::new(alloc);
    for part in parts {
        bytes.extend_from_slice(part)?;
    }
    Ok(bytes)
}

#[test]
fn spells_beacons_and_ends(rt: HostRuntime) -> Result<(), Fail> {
    let beacon = encode(rt.alloc(), &Message::Beacon { number: 256 })?;
    assert_eq!(rt; beacon.bytes(), BEACON_256.as_slice());
    let end = encode(rt.alloc(), &Message::End { number: 4 })?;
    assert_eq!(rt; end.bytes(), END_4.as_slice());
    let end = encode(rt.alloc(), &Message::End { number: 0 })?;
    assert_eq!(rt; end.bytes(), END_0.as_slice());
    Ok(())
}

#[test]
fn spells_a_frame(rt: HostRuntime) -> Result<(), Fail> {
    let rows = Rows::new(vec![in rt.alloc(); ROW, ROW]?);
    assert_eq!(rt; rows.as_slice(), [ROW, ROW].as_slice());
    let message = Message::Frame { number: 3, rows };
    let bytes = joined(rt.alloc(), &[&FRAME_3, &ROW_BYTES, &ROW_BYTES])?;
    assert_eq!(rt; bytes.len(), 122);
    let packet = encode(rt.alloc(), &message)?;
    assert_eq!(rt; packet.bytes(), bytes.as_slice());
    let packet = encode_frame(rt.alloc(), 3, &[ROW], &[], &ROW)?;
    assert_eq!(rt; packet.bytes(), bytes.as_slice());
    let packet = encode_frame(rt.alloc(), 3, &[], &[ROW], &ROW)?;
    assert_eq!(rt; packet.bytes(), bytes.as_slice());
    match message {
        Message::Frame { number, rows } => {
            assert_eq!(rt; number, 3);
            assert_eq!(rt; rows.into_vec().len(), 2);
        }
        _ => return Err("the message is a frame".into()),
    }
    Ok(())
}

#[test]
fn reads_a_frame_in_place(rt: HostRuntime) -> Result<(), Fail> {
    let packet = encode_frame(rt.alloc(), 1_000_000, &[ROW], &[COUNTED], &ROW)?;
    let bytes = packet.bytes();
    assert_eq!(rt; bytes.len(), 178);
    for i in 0..56 {
        assert_eq!(rt; usize::from(bytes[66 + i]), i);
    }
    let view = decode(bytes).ok().ok_or("the bytes are a frame")?;
    assert_eq!(rt; view.kind(), MessageKind::Frame);
    assert_eq!(rt; view.number(), 1_000_000);
    assert_eq!(rt; view.count(), 3);
    if view.count() == 3 {
        assert_eq!(rt; view.row(0), ROW);
        assert_eq!(rt; view.row(1), COUNTED);
        assert_eq!(rt; view.row(2), ROW);
    }
    Ok(())
}

#[test]
fn reads_beacons_and_ends(rt: HostRuntime) -> Result<(), Fail> {
    let cases = [
        (BEACON_256, MessageKind::Beacon, 256),
        (END_4, MessageKind::End, 4),
        (END_0, MessageKind::End, 0),
    ];
    for (bytes, kind, number) in cases {
        let view = decode(&bytes).ok().ok_or("the bytes are a message")?;
        assert_eq!(rt; view.kind(), kind);
        assert_eq!(rt; view.number(), number);
        assert_eq!(rt; view.count(), 0);
    }
    Ok(())
}

#[test]
fn refuses_what_is_no_message(rt: HostRuntime) {
    let cases: [(&[u8], WireError); 12] = [
        (&[], WireError::Short),
        (&[0x53, 0x43, 2, 2, 0, 0, 1, 0, 0], WireError::Short),
        (&[0x53, 0x44, 2, 2, 0, 0, 1, 0, 0, 0], WireError::Mark),
        (&[0x53, 0x43, 1, 2, 0, 0, 1, 0, 0, 0], WireError::Version),
        (&[0x53, 0x43, 2, 4, 0, 0, 1, 0, 0, 0], WireError::Kind),
        (&[0x53, 0x43, 2, 0, 0, 0, 1, 0, 0, 0], WireError::Kind),
        (&[0x53, 0x43, 2, 2, 0, 0, 1, 0, 0, 1], WireError::Count),
        (&[0x53, 0x43, 2, 1, 0, 0, 0, 3, 0, 0], WireError::Count),
        (&[0x53, 0x43, 2, 1, 0, 0, 0, 1, 0, 2], WireError::Count),
        (
            &[0x53, 0x43, 2, 1, 0, 0, 0, 0x64, 0, 0x42],
            WireError::Count,
        ),
        (&[0x53, 0x43, 2, 2, 0, 0, 1, 0, 0, 0, 0], WireError::Length),
        (&[0x53, 0x43, 2, 1, 0, 0, 0, 3, 0, 2], WireError::Length),
    ];
    for (bytes, error) in cases {
        assert_eq!(rt; decode(bytes).err(), Some(error));
    }
    one_message();
}
