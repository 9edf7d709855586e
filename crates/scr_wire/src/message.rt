ghost use Rattle.std.specs.Prelude.{◌≡◌, List, Some, None, if◌then◌else◌};
ghost use Rattle.scr_base.specs.declared.row.Row.{Row};
ghost use Rattle.scr_wire.specs.Kinds.{code_of, is_code, kind_with, allows};

use scr_base::Row;
use std::marker::Model;

/// The most rows that a frame may have: its own behind the longest history.
const MOST_ROWS: u16 = 65;

/// The rows of a frame's message, the oldest first.
#[derive(Debug, Drop)]
pub struct Rows {
    rows: Vec<Row>,
}

impl Model for Rows {
    ghost Value = { List Row };

    ghost view = { λ rows. rows.rows.items };
}

impl Rows {
    /// These rows.
    pub fn new(rows: Vec<Row>) -> Rows
        ensures { result ≡ rows.items }
    {
        Rows { rows }
    }

    /// The rows.
    pub fn as_slice(&self) -> &[Row]
        ensures { result.now ≡ self.now }
    {
        &self.rows
    }

    /// The rows, given back.
    pub fn into_vec(self) -> Vec<Row>
        ensures { result.items ≡ self }
    {
        self.rows
    }
}

/// A message of a lane.
#[derive(Debug, Drop)]
pub enum Message {
    /// A frame that was delivered, with the rows that it carries, its own last.
    Frame { number: u32, rows: Rows },
    /// All frames up to this number went to their lanes.
    Beacon { number: u32 },
    /// There are no frames but those up to this number.
    End { number: u32 },
}

/// What a message is.
#[derive(Clone, Copy, Debug, PartialEq, Eq)]
pub enum MessageKind {
    Frame,
    Beacon,
    End,
}

impl MessageKind {
    // The byte that spells it.
    pub(crate) fn code(self) -> u8
        ensures { result ≡ code_of self }
    {
        match self {
            MessageKind::Frame => 1,
            MessageKind::Beacon => 2,
            MessageKind::End => 3,
        }
    }

    // The kind that a byte spells.
    pub(crate) fn with(code: u8) -> Option<MessageKind>
        ensures { result ≡ (if is_code code then Some (kind_with code) else None) }
    {
        match code {
            1 => Some(MessageKind::Frame),
            2 => Some(MessageKind::Beacon),
            3 => Some(MessageKind::End),
            _ => None,
        }
    }

    // Whether a message of this kind and number may have so many rows.
    pub(crate) fn allows(self, number: u32, count: u16) -> bool
        ensures { result ≡ allows self number count }
    {
        match self {
            MessageKind::Frame => 1 <= count && count <= MOST_ROWS && u32::from(count) <= number,
            MessageKind::Beacon | MessageKind::End => count == 0,
        }
    }
}
