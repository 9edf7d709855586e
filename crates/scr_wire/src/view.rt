ghost use Rattle.std.specs.Prelude.{◌≡◌, ◌≤◌, ◌<◌, ◌+◌, ◌*◌, drop, Some, None, length, OnOk, IfOk, IsOkAnd, IfErr, slice_get};
ghost use Rattle.scr_wire.specs.Spelling.{kind_of, number_of, rows_of, Spells};
ghost use Rattle.scr_wire.specs.Refusals.{refusal};
ghost use Rattle.scr_wire.specs.Reading.{word_at, row_in, message_in};
ghost use Rattle.scr_wire.specs.declared.message.Message.{Message};

use crate::error::WireError;
use crate::message::MessageKind;
use crate::writing::{HEADER, MARK, ROW, VERSION};
use byteorder::{BigEndian, ByteOrder};
use scr_base::Row;
use std::marker::Model;

/// A message that lies in bytes.
#[derive(Debug, Drop)]
pub struct WireView<'a> {
    kind: MessageKind,
    number: u32,
    count: u16,
    rows: &'a [u8],
}

impl<'a> Model for WireView<'a> {
    ghost use Rattle.std.specs.Prelude.{◌≡◌, ◌*◌, length, IsTrue};
    ghost use Rattle.scr_wire.specs.declared.message.Message.{Message};

    ghost Value = { Message };

    ghost use Rattle.scr_wire.specs.Kinds.{allows};
    ghost use Rattle.scr_wire.specs.Reading.{message_of, rows_in};

    ghost view = { λ view. message_of view.kind view.number (rows_in view.count view.rows.now) };

    ghost invariant = { λ view. IsTrue (allows view.kind view.number view.count) × (length view.rows.now ≡ 56 * view.count) };
}

// The word at a place.
#[tactic(auto, unfolding(crate::specs::Reading::word_at))]
fn word_at(bytes: &[u8], place: usize) -> u64
    requires { place + 8 ≤ length bytes.now }
    ensures { result ≡ word_at place bytes.now }
{
    BigEndian::read_u64(&bytes[place..])
}

// The row that stands in front.
fn row_in(bytes: &[u8]) -> Row
    requires { 56 ≤ length bytes.now }
    ensures { result ≡ row_in bytes.now }
{
    Row {
        w0: word_at(bytes, 0),
        w1: word_at(bytes, 8),
        w2: word_at(bytes, 16),
        w3: word_at(bytes, 24),
        w4: word_at(bytes, 32),
        w5: word_at(bytes, 40),
        w6: word_at(bytes, 48),
    }
}

// Row `i` of those that stand one after the other.
fn row_at(rows: &[u8], i: usize) -> Row
    requires { 56 * i + 56 ≤ length rows.now }
    ensures { result ≡ row_in (drop (56 * i) rows.now) }
{
    row_in(&rows[ROW * i..])
}

impl<'a> WireView<'a> {
    /// What the message is.
    pub fn kind(&self) -> MessageKind
        ensures { result ≡ kind_of self.now }
    {
        self.kind
    }

    /// The number of the message.
    pub fn number(&self) -> u32
        ensures { result ≡ number_of self.now }
    {
        self.number
    }

    /// How many rows it has.
    pub fn count(&self) -> u16
        ensures { result ≡ length (rows_of self.now) }
    {
        self.count
    }

    /// Row `i` of them, from 0.
    pub fn row(&self, i: u16) -> Row
        requires { i < length (rows_of self.now) }
        ensures { slice_get (rows_of self.now) i ≡ Some result }
    {
        row_at(self.rows, usize::from(i))
    }
}

// The message in bytes that pass all tests, or the first test that fails.
#[tactic(auto, unfolding(crate::specs::Refusals::refusal, crate::specs::Reading::number_in, crate::specs::Reading::count_in))]
fn read(bytes: &[u8]) -> Result<WireView<'_>, WireError>
    ensures passed { OnOk result (refusal bytes.now ≡ None) }
    ensures shown { IfOk result (λ view. view ≡ message_in bytes.now) }
    ensures refused { IfErr result (λ error. refusal bytes.now ≡ Some error) }
{
    if bytes.len() < HEADER {
        return Err(WireError::Short);
    }
    if bytes[0] != MARK[0] || bytes[1] != MARK[1] {
        return Err(WireError::Mark);
    }
    if bytes[2] != VERSION {
        return Err(WireError::Version);
    }
    let kind = MessageKind::with(bytes[3]).ok_or(WireError::Kind)?;
    let number = BigEndian::read_u32(&bytes[4..]);
    let count = BigEndian::read_u16(&bytes[8..]);
    if !kind.allows(number, count) {
        return Err(WireError::Count);
    }
    let rows = &bytes[HEADER..];
    if rows.len() != ROW * usize::from(count) {
        return Err(WireError::Length);
    }
    Ok(WireView {
        kind,
        number,
        count,
        rows,
    })
}

/// The message that the bytes spell, or the first test that fails.
pub fn decode(bytes: &[u8]) -> Result<WireView<'_>, WireError>
    // What is shown spells the bytes.
    ensures shown { IfOk result (λ view. Spells view bytes.now) }
    // A message that spells the bytes is shown.
    ensures spelled { (message : Message) → Spells message bytes.now → IsOkAnd result (λ view. view ≡ message) }
    // What is refused is the first test that fails.
    ensures refused { IfErr result (λ error. refusal bytes.now ≡ Some error) }
{
    read(bytes)
}
