//! What stands in a stream: its header, and the headers and rows of its messages.
ghost use Rattle.std.specs.Prelude.{◌≡◌, ◌<◌};
ghost use Rattle.scr_wire.specs.Kinds.{code_of};
ghost use Rattle.scr_wire.specs.Spelling.{header_bytes, row_bytes};
ghost use Rattle.scr_stream.specs.Streamed.{stream_header};

use byteorder::{BigEndian, ByteOrder};
use scr_base::Row;
use scr_wire::MessageKind;

/// The length of the header of a stream, in bytes.
pub(crate) const STREAM_HEADER: usize = 8;

/// The length of the header of a message, in bytes.
pub(crate) const HEADER: usize = 10;

/// The length of a row, in bytes.
pub(crate) const ROW: usize = 56;

/// The mark in front of a stream, and the version behind it.
pub(crate) const MARK: [u8; 4] = [0x53, 0x43, 0x52, 0x53];

pub(crate) const VERSION: u8 = 1;

// The header of a stream.
pub(crate) fn stream_header(program: u8, cores: u8, history: u8) -> [u8; STREAM_HEADER]
    ensures { result ≡ stream_header program cores history }
{
    [
        MARK[0], MARK[1], MARK[2], MARK[3], VERSION, program, cores, history,
    ]
}

// The byte that spells a kind.
fn code_of(kind: MessageKind) -> u8
    ensures { result ≡ code_of kind }
{
    match kind {
        MessageKind::Frame => 1,
        MessageKind::Beacon => 2,
        MessageKind::End => 3,
    }
}

// The header of a message.
pub(crate) fn message_header(kind: MessageKind, number: u32, count: u16) -> [u8; HEADER]
    ensures { result ≡ header_bytes kind number count }
{
    let [n0, n1, n2, n3] = number.to_be_bytes();
    let [c0, c1] = count.to_be_bytes();
    [0x53, 0x43, 2, code_of(kind), n0, n1, n2, n3, c0, c1]
}

// The bytes of a row.
pub(crate) fn row_bytes(row: &Row) -> [u8; ROW]
    ensures { result ≡ row_bytes row.now }
{
    let Row {
        w0,
        w1,
        w2,
        w3,
        w4,
        w5,
        w6,
    } = *row;
    let mut bytes = [0; ROW];
    BigEndian::write_u64_into(&[w0, w1, w2, w3, w4, w5, w6], &mut bytes);
    bytes
}
