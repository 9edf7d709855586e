ghost use Rattle.std.specs.Prelude.{◌≡◌, ◌≤◌, ◌<◌, ◌^◌, ◌*◌, ◌++◌, length, drop, All};
ghost use Rattle.std.specs.List.{flat_map};
ghost use Rattle.byteorder.specs.Endian.{big_bytes};
ghost use Rattle.scr_wire.specs.Spelling.{header_bytes, row_bytes, rows_bytes, IsRow};

use crate::message::MessageKind;
use byteorder::{BigEndian, ByteOrder};
use scr_base::Row;

/// The length of what stands before the rows, in bytes.
pub(crate) const HEADER: usize = 10;

/// The length of a row, in bytes.
pub(crate) const ROW: usize = 56;

/// What each message begins with.
pub(crate) const MARK: [u8; 2] = [0x53, 0x43];

/// The version of the spelling.
pub(crate) const VERSION: u8 = 2;

// Writes a header to the front.
pub(crate) fn write_header(out: &mut [u8], kind: MessageKind, number: u32, count: u16)
    requires { 10 ≤ length out.old }
    ensures { out.new ≡ header_bytes kind number count ++ drop 10 out.old }
{
    let [n0, n1, n2, n3] = number.to_be_bytes();
    let [c0, c1] = count.to_be_bytes();
    let header = [
        MARK[0],
        MARK[1],
        VERSION,
        kind.code(),
        n0,
        n1,
        n2,
        n3,
        c0,
        c1,
    ];
    out[..HEADER].copy_from_slice(&header);
}

// Writes words to the front.
fn write_words(out: &mut [u8], words: &[u64])
    requires { 8 * length words.now ≤ length out.old }
    ensures written { out.new ≡ flat_map (big_bytes 8) words.now ++ drop (8 * length words.now) out.old }
    ensures fits { All (λ word. word < 2 ^ 64) words.now }
{
    BigEndian::write_u64_into(words, &mut out[..8 * words.len()]);
}

// Writes a row to the front.
fn write_row(out: &mut [u8], row: &Row)
    requires { 56 ≤ length out.old }
    ensures written { out.new ≡ row_bytes row.now ++ drop 56 out.old }
    ensures fits { IsRow row.now }
{
    let Row {
        w0,
        w1,
        w2,
        w3,
        w4,
        w5,
        w6,
    } = *row;
    write_words(out, &[w0, w1, w2, w3, w4, w5, w6]);
}

// Writes rows to the front.
pub(crate) fn write_rows(out: &mut [u8], rows: &[Row])
    requires { 56 * length rows.now ≤ length out.old }
    ensures written { out.new ≡ rows_bytes rows.now ++ drop (56 * length rows.now) out.old }
    ensures fits { All IsRow rows.now }
{
    for (i, row) in rows.iter().enumerate() {
        write_row(&mut out[ROW * i..], row);
    }
}
