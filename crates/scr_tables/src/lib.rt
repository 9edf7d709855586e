//! Programs given as tables: rules, written as text, that lead each source from state to state and judge its packets.
//!
//! **What it does.** [`Table::read`] reads rules as `0:d7000>1/D`: in state 0, at a packet to port 7000, go to state 1 and
//! drop the packet. [`Tables`] is the [`Program`](scr_program::Program) that runs such a table. It keeps the state of each
//! source, 0 at first, and the first rule of the list for that state and the packet gives the next state and the verdict.
//!
//! **What a contract sees.** A [`Table`] as its list of rules; the flow table as a list of addresses with their states,
//! the most recently used first; rows and rules as they are declared.
//!
//! **What is proved.** A text is read as the rules that it spells, or refused by its first cause, in one way and never
//! both. The program is the fold of `step` in specs/Step.antt over its rows, and in each state that a run can hold some
//! rule is for each packet, so that no step lacks an answer. A refused step changes nothing, and a step of a row that was
//! prepared isn't refused.
//!
//! **What is only tested.** That calls succeed where there is memory, and that the definitions mean what an operator
//! expects: src/tests follows packets through tables by hand.
//!
//! **Limits.** At most 256 rules, over 16 states. A step tries the rules of its source's state alone, in their order, up
//! to the first for any packet. A source that the table forgot begins anew in state 0.
#![tactic(auto)]

mod index;
mod laws;
mod reading;
mod rule;
mod settings;
mod table;
mod tables;
#[cfg(test)]
mod tests;

pub use laws::{one_reading, some_reading, some_rule};
pub use reading::{TableCause, TableError};
pub use rule::{Decision, Pattern, Rule};
pub use settings::TableSettings;
pub use table::Table;
pub use tables::Tables;
