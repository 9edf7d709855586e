//! Laws on programs of different crates: what none of these could say alone, as it doesn't know the others.
//!
//! **What it does.** Nothing that runs: it has laws, functions whose contracts say what is true and whose bodies are
//! empty.
//!
//! **What a contract sees.** The definitions of the programs: the step of a table, the step of the door, and the folds of
//! both over rows.
//!
//! **What is proved.** A table can do what a program of its own crate does: with the rules of the door, for any three
//! ports and any number of flows, [`door_is_a_table`] has the verdicts of the door over any rows of TCP and UDP, and as
//! many sources, so that both forget the same ones. The text of these rules for the ports 7000, 8000 and 9000 spells them.
//!
//! **What is only tested.** src/tests.rt runs both programs over the same rows, with more sources than there is room for.
//!
//! **Limits.** Packets without ports are outside the law: a table looks at them, and the door doesn't. A row that a table
//! makes of a packet has its flags too, which the door's row lacks; the law is on the same rows for both.
#![tactic(auto)]

mod laws;
#[cfg(test)]
mod tests;

pub use laws::door_is_a_table;
