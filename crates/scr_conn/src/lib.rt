//! The connection tracker: a program that follows each TCP connection, and says of a segment where it brings it.
//!
//! **What it does.** [`Conn`] looks at TCP alone. A connection is its two endpoints, whichever of them sends; an entry is
//! its state, a side, and the time of its last packet. The table in src/table.rt says what a segment makes of an entry,
//! by its state, by whether the side sent, and by the class of its flags. A segment that the table has no state for is
//! INVALID and changes nothing. [`ConnSettings`] has the time after which a silent connection counts as absent.
//!
//! **What a contract sees.** The flow table as a list of connections with their entries, the most recently used first;
//! rows, settings and entries as they are declared.
//!
//! **What is proved.** The program is the fold of `step` in specs/Step.antt over its rows: each verdict, the
//! connections after each row and their number, at any rows. A refused step changes nothing, a step of a row that was
//! prepared isn't refused, and an INVALID one leaves the order too. The row has just the fields of specs/Rows.antt. The
//! settings keep their ranges, and are refused exactly as `set` says.
//!
//! **What is only tested.** That the definitions mean what the tracker is to do: src/tests.rt follows connections by
//! hand, and src/tests/cells.rt has the whole table once more. That calls succeed where there is memory.
//!
//! **Limits.** Sequence numbers and windows aren't looked at. A connection that was idle too long stays in the table
//! until a new SYN takes its place or the table drops it.
#![tactic(auto)]

mod class;
mod endpoint;
mod entry;
mod program;
mod settings;
mod table;
#[cfg(test)]
mod tests;

pub use endpoint::{Connection, Endpoint, Side};
pub use entry::{Entry, State};
pub use program::Conn;
pub use settings::ConnSettings;
