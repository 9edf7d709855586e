//! What the packet programs stand on: their trait, the rows that they read, and the table of flows that they keep.
//!
//! **What it does.** A [`Program`] makes a row of a frame and takes the rows one after another, with a verdict on each.
//! One that keeps an entry for each key is [`Keyed`], and by that a program. [`fields_of`], [`pack`] and [`unpack`] turn a
//! frame into fields and fields into a row and back, [`is_packet`] and its kin tell kinds, and [`read_setting`] reads the
//! value of a setting. A [`FlowTable`] keeps the flows that were used last, over those of scr_flows, by keys such as an
//! [`Address`] or a [`FiveTuple`]. [`FlowTable::update`] and [`FlowTable::update_where`] change an entry by one look-up.
//!
//! **What a contract sees.** A program by six definitions over plain data: the row of a frame and a time, whether a
//! state stands for a list of rows, the verdict of a row after a list, the count of entries after a list, whether a
//! state is ready for a row, and the names of the verdicts. A table as the most flows that it holds, its flows with the
//! most recently used first, the key that is ready, and how many more keys memory was taken for. specs/FlowList.antt says what setting a key leaves, and
//! specs/Folds.antt what a program is that is a step on such a list, and specs/Keyed.antt the step of one by key.
//!
//! **What is proved.** The table is the list of the definition, for each call and both answers; a refused call leaves
//! the flows as they were, and a key that is a flow's, or is ready, is never refused, nor is any where there is room. A row is the fields at their
//! places, and is read back as these fields. A program by key meets the clauses of [`Program`], whichever it is; its
//! crate proves only that its calls are its definitions.
//!
//! **What is only tested.** That calls succeed where there is memory, and the words of a datagram's rows.
//!
//! **Limits.** A table holds at most 65,536 flows, and hashes by a seed that is fixed and known: whoever picks the keys
//! can make look-ups slow, and can't change their answers.
#![tactic(auto)]

mod fields;
mod key;
mod keyed;
mod kinds;
mod program;
mod ready;
mod setting;
mod table;
#[cfg(test)]
mod tests;
mod verdicts;

pub use fields::{Address, Fields, ZERO_ROW, fields_of, pack, unpack};
pub use key::{FiveTuple, FlowKey};
pub use keyed::Keyed;
pub use kinds::{has_ports, is_packet, is_tcp, is_udp};
pub use program::Program;
pub use setting::{SettingError, read_setting};
pub use table::{FlowTable, MOST_FLOWS};
pub use verdicts::{DROP, OTHER, PASS, PASS_DROP_OTHER};
