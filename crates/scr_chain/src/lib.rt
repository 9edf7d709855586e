//! Chains of two programs: what the first stops isn't seen by the second.
//!
//! **What it does.** [`Chain`] is a program of two others. A packet goes to the first, and where the name of its verdict is
//! PASS or OTHER, to the second too, whose verdict counts. What the first stops has the verdict STOPPED. A row has the
//! fields that either looks at. Which verdicts let a packet pass is told from their names once, when a state is made.
//!
//! **What a contract sees.** A chain as a [`Program`](scr_program::Program) whose definitions are made of those of its two
//! programs: two folds and a filter (specs/Chains.antt). The first is over all rows, the second over those that the first
//! lets pass.
//!
//! **What is proved.** That each call of a chain answers by these definitions, for every first program and every second.
//! So what is proved of runs over any program holds of chains. A step that is refused leaves both states as they were: the
//! second is prepared before the first takes its step. In a chain of any two of the five programs both answer at its rows
//! as at rows of their own ([`each_answers_as_alone`]), so that a chain is told over frames by what its programs, each by
//! itself, say of these.
//!
//! **What is only tested.** The verdicts and the flows of chains that were followed by hand.
//!
//! **Limits.** A program that stands second has at most 254 names ([`Second`]); a chain stands in no chain. It has a table of
//! flows for each program.
#![tactic(auto)]

mod chain;
mod laws;
mod second;
#[cfg(test)]
mod tests;

pub use chain::{Chain, ChainSettings, ChainState};
pub use laws::{any_frame_fits, each_answers_as_alone};
pub use second::Second;
