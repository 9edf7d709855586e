//! The door: a program that drops the packets of each source until it has knocked at three ports in turn.
//!
//! **What it does.** [`Knock`] looks at TCP and UDP. It keeps the place of each source: how many of the three ports of
//! [`KnockSettings`] it has sent to in turn, or open. Another port leads back, to the first knock where it is the first
//! port, and else to the start. The packets of a source whose door is open pass; the one that opens it is dropped.
//!
//! **What a contract sees.** The flow table as a list of addresses with their places, the most recently used first;
//! rows, settings and places as they are declared.
//!
//! **What is proved.** The program is the fold of `step` in specs/Step.antt over its rows: each verdict, the sources
//! after each row and their number, at any rows. A refused step changes nothing, and a step of a row that was prepared
//! isn't refused. The row has just the fields of specs/Rows.antt. The settings keep their ranges, and are refused
//! exactly as `set` says.
//!
//! **What is only tested.** That the definitions mean what the door is to do: src/tests.rt follows knocks by hand.
//! That calls succeed where there is memory.
//!
//! **Limits.** An open door stays open until the table drops its source. Knocks don't age: any time may lie between
//! them.
#![tactic(auto)]

mod place;
mod ports;
mod program;
mod settings;
#[cfg(test)]
mod tests;

pub use place::Place;
pub use program::Knock;
pub use settings::KnockSettings;
