//! The sequencer: it numbers the frames, gives them to the cores in turn, and attaches to each the rows before it.
//!
//! **What it does.** A [`Sequencer`] is given the rows of a run one by one, each with what becomes of its frame on the link.
//! [`Sequencer::next`] answers what this step adds to the lanes: after each 256 numbers a beacon for every lane, then the
//! frame for the lane of its core, where it comes in its turn, and then the earlier frames that come now. A frame that comes
//! later is held until its step, and both copies of one that comes twice are made when it is given. [`Sequencer::finish`]
//! gives what is held behind the last row, step by step, and the number of the end.
//!
//! **What a contract sees.** A sequencer as its cores, its history (how many packets before its own a frame carries), how
//! many rows it was given, the last of them, one more than the history at most, and the frames that it holds for each of
//! the next steps. A frame on its way as its core, its packet, and its copy, where it comes twice.
//!
//! **What is proved.** The beacon, and each frame with its core and its packet, which has exactly the rows that the frame
//! carries, a dropped frame's too. After want of memory nothing has changed. Behind the first rows of a plan, the answer to
//! its next row is what the next step adds to the lane of each core, message by message, and behind its last row what is
//! held is what the later steps add. The lemma of proofs/WholeLane.antt joins the answers to all rows, what is held behind
//! them, and the end into the whole lane of each core.
//!
//! **What is only tested.** That there is an answer where there is memory, and the bytes of a short run's lanes.
//!
//! **Limits.** At most 16 cores, 64 rows of history, 1,000,000 rows and delays of 1,000 steps. Each packet is one
//! allocation, into which each row that it carries is copied once; a frame that comes later may cost one more, where a list
//! of held frames grows.
#![tactic(auto)]

mod holding;
mod outgoing;
mod sequencer;
#[cfg(test)]
mod tests;

pub use outgoing::{Arriving, Outgoing};
pub use sequencer::{Rest, Sequencer};
