ghost use Rattle.std.specs.Prelude.{◌≡◌};
ghost use Rattle.scr_conn.specs.Entries.{live, direction_of, cell_for, changed, next_entry};

use crate::class::class_of;
use crate::endpoint::{Side, sender_of};
use crate::table::{Cell, Direction, cell_of};
use scr_program::Fields;

/// How far a connection has come.
#[derive(Clone, Copy, Debug, PartialEq, Eq)]
pub enum State {
    SynSent,
    SynRecv,
    Established,
    FinWait,
    LastAck,
    TimeWait,
    Closed,
}

/// What is kept of a connection.
#[derive(Clone, Copy, Debug, PartialEq, Eq)]
pub struct Entry {
    pub state: State,
    /// The opener up to `Established`, the first closer from `FinWait` on.
    pub side: Side,
    /// The greatest time of its packets so far, in microseconds.
    pub time: u64,
}

/// The entry after a packet with these fields, where the packet is valid.
#[inline(always)]
pub(crate) fn next_entry(idle: u64, known: Option<Entry>, fields: &Fields) -> Option<Entry>
    ensures { result ≡ next_entry idle known fields.now }
{
    let sender = sender_of(fields);
    let old = live(idle, fields.time, known);
    let cell = cell_for(old, sender, fields.flags);
    changed(cell, old, sender, fields.time)
}

// An entry that was idle for too long counts as absent.
#[inline(always)]
fn live(idle: u64, time: u64, known: Option<Entry>) -> Option<Entry>
    ensures { result ≡ live idle time known }
{
    match known {
        Some(entry) if time.saturating_sub(entry.time) <= idle => known,
        _ => None,
    }
}

#[inline(always)]
fn direction_of(side: Side, sender: Side) -> Direction
    ensures { result ≡ direction_of side sender }
{
    match (side, sender) {
        (Side::Low, Side::Low) | (Side::High, Side::High) => Direction::Near,
        (Side::Low, Side::High) | (Side::High, Side::Low) => Direction::Far,
    }
}

// The cell of the table for an entry, or none, and a packet of this sender and these flags.
#[inline(always)]
fn cell_for(old: Option<Entry>, sender: Side, flags: u8) -> Cell
    ensures { result ≡ cell_for old sender flags }
{
    let class = class_of(flags);
    match old {
        Some(entry) => cell_of(Some(entry.state), direction_of(entry.side, sender), class),
        None => cell_of(None, Direction::Near, class),
    }
}

// The entry that this cell makes of an entry, or of none.
#[inline(always)]
fn changed(cell: Cell, old: Option<Entry>, sender: Side, time: u64) -> Option<Entry>
    ensures { result ≡ changed cell old sender time }
{
    match (cell, old) {
        (Cell::Invalid, _) => None,
        (Cell::Plain(state), Some(entry)) => Some(Entry {
            state,
            side: entry.side,
            time: entry.time.max(time),
        }),
        (Cell::Starred(state), Some(entry)) => Some(Entry {
            state,
            side: sender,
            time: entry.time.max(time),
        }),
        (Cell::Plain(state) | Cell::Starred(state), None) => Some(Entry {
            state,
            side: sender,
            time,
        }),
    }
}
