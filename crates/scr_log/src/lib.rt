//! The logs of the cores: what each core has of each packet by its own frames, for the others to read.
//!
//! **What it does.** Each core has a log of a few slots, which only its own pass writes, and which the others read
//! without waiting. [`Logs::make`] gives the logs and a first pass; passes are split off, and each may claim a core. A
//! core publishes its final entry for one packet after another, the row or that it is lost to it
//! ([`Logs::publish`], of [`Logs::publish_row`] and [`Logs::publish_lost`]), looks what another core has for the packet at hand
//! ([`Logs::look`]), and tells that it has finished it ([`Logs::finish`]). Packets that are as far apart as there are slots share a
//! slot, so before it publishes a core asks whether all others have finished the earlier one ([`Logs::room`]). A halt word
//! tells all that the run is over.
//!
//! **What a contract sees.** Logs as their plan, their slots and which table of words they are. A free pass as its stock
//! of draws, a core's pass as its core, how far it has published and finished, and what it has noted of the other cores'
//! finished numbers; both with all looks that they have made and how many times they have set the halt word.
//!
//! **What is proved.** The log rule holds between any two steps of any number of passes and threads (`specs/LogRule.antt`). So
//! a row that a look gives is that packet's row and the other core's final entry, though its words were loaded one at a
//! time from a slot that is given again, and lost means that the final entry is lost. A slot is given to a later packet
//! only when every core has finished the earlier one. Each core publishes and finishes its packets in order, none twice and
//! none left out. No two passes have one core. An answer that refuses or halts has its look among the looks of the pass,
//! made in this call. That a packet is lost to all cores exactly where no delivered frame carries it is a law of scr_plan.
//!
//! **What is only tested.** That there can be memory for the logs; that two cores in threads find each other's final
//! entries, with four slots and with one; and that a look is a recent one, on a short run.
//!
//! **Limits.** From 1 to 4,096 slots a core, so at most 524,306 words for 16 cores, whatever the length of the run. Only
//! [`Logs::make`] takes memory, and no call waits. Nothing is said of how fresh a look is, nor that a core gets on.
#![tactic(auto)]

mod claiming;
mod halting;
mod logs;
mod look;
mod pass;
mod places;
mod publishing;
mod room;
mod rule;
#[cfg(test)]
mod tests;
mod view;

pub use claiming::Late;
pub use logs::Logs;
pub use look::Look;
pub use pass::{CorePass, FreePass};
pub use room::Room;
pub use view::Noted;
