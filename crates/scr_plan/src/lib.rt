//! The plan of a run: which frames are delivered, to which core, and which packets each core gets to know by its frames.
//!
//! **What it does.** Frame n of a run carries packet n and, as history, some packets before it; the cores take the
//! frames in turn ([`core_of`], [`carried_from`]). A [`Link`] lies between the sequencer and the cores: it loses frames,
//! brings them twice, or brings them later. Its lists are read from text by [`Drops::read`] and [`Delays::read`], which
//! tell the cause and the place of the first piece that is refused; [`Link::lost`] takes the numbers of the frames that it
//! loses. [`Link::fate`] tells what becomes of a frame, [`Link::fates`]
//! of all, and [`Link::delivered`] whether one comes in time. [`kept`] tells whether any delivered frame carries a packet, and
//! [`counts`] what one core does. A [`RunPlan`] holds what a run is made of.
//!
//! **What a contract sees.** A drop list as its list of ranges, delays as a list of frames and steps, a link as the record
//! of its lists; a plan as the record of its rows, cores, history and link, whose bounds its calls tell. The order of a
//! core's lane is the list of its beacons and frames as numbers, step by step (specs/Order.antt). A frame is delivered
//! where each beacon and frame before its first copy in that order has a number below its own. What is delivered, carried
//! and kept are tests over a plan and the numbers of its frames and packets; the counts of a core count the numbers from 1
//! to the last frame that pass such a test. The final entry of a core for a packet is the packet's row, where a frame of
//! its own carries it, or nothing.
//!
//! **What is proved.** Each call answers exactly by these definitions; that [`Link::delivered`] judges by numbers what the
//! order defines is proofs/InTime.antt. A text is read as the list that it spells, or refused by its first faulty piece. A
//! delivered packet is kept; a packet is kept, or carried to a core, exactly where such a frame carries it
//! ([`some_frame_carries`]), and lost at every core exactly where it isn't kept ([`lost_to_all`]). What a core's frames carry
//! and what it recovers are together what is kept, and with what it skips they are all packets. On an empty link a lane
//! goes number by number, and every frame is delivered ([`empty_link_delivers_all`]).
//!
//! **What is only tested.** That there can be memory for a list, and the counts and late frames of worked runs.
//!
//! **Limits.** At most 1,000,000 packets, 16 cores, a history of 64, and lists of 256 pieces with numbers up to
//! 1,000,000,000 and delays up to 1,000 steps. [`Link::fate`] goes once over each list, for each frame that it is asked of;
//! [`Link::fates`] once for all frames: ranges that overlap in the same steps are gone through as one, so it costs the frames,
//! and fewer than 23 times as many marks for a list of ranges. A frame without delay costs [`Link::delivered`] one look-up;
//! a late one also looks at the frames of its core up to the step at which it comes.
//! [`counts`] asks once a frame, whatever the history, and [`kept`] at most once for each frame that may carry the packet.
//! Only [`Drops::read`], [`Delays::read`] and the calls that answer for all frames take memory.
#![tactic(auto)]

mod carrying;
mod counting;
mod delays;
mod drops;
mod given;
mod laws;
mod link;
mod plan;
mod reading;
mod reading_delays;
#[cfg(test)]
mod tests;

pub use carrying::{carried_from, core_of, kept};
pub use counting::{CoreCounts, counts};
pub use delays::{Delays, FrameDelay};
pub use drops::{DropRange, Drops};
pub use given::Given;
pub use laws::{empty_link_delivers_all, lost_to_all, some_frame_carries};
pub use link::{Fate, Link};
pub use plan::RunPlan;
pub use reading::{DropCause, DropError};
pub use reading_delays::{DelayCause, DelayError};
