//! The feed: all lanes of a plan are given their messages, step by step.
//!
//! **What it does.** [`Feed::make`] makes the lanes of all cores of a plan. Each [`Feed::step`] does one thing: it sends the
//! next packet, or takes from the sequencer what the next step of the plan adds to the lanes, and the end behind the last
//! step. A beacon and the end go to every lane, a frame to the lane of its core, twice where the link repeats it. Behind the
//! last row come the steps in which late frames may still arrive, as many as the greatest delay. Where a lane is full the
//! packet is kept for a later call, so that the caller can do something else between.
//!
//! **What a contract sees.** A feed as its plan, how many steps were taken and whether the end was, the end of each lane,
//! and what isn't sent yet. A receiving end as scr_lane shows it.
//!
//! **What is proved.** At any time each lane was sent a front of the messages that the steps taken add to it, and what is
//! kept is the rest of them, in order. So what is sent is always the lane's next message. When a step says that all is
//! done, each lane has all its messages. A lane is said to be full only where this step's own look found no room. After
//! want of memory nothing has changed.
//!
//! **What is only tested.** That there can be memory, and that the whole lanes of a short run pass from thread to thread.
//!
//! **Limits.** One full lane keeps back what the others are to get behind it: at lanes of 1,024 no core waits for that.
//! A step may wait where a lane has room, as a push does.
#![tactic(auto)]

mod feed;
mod making;
mod offering;
mod source;
mod step;
#[cfg(test)]
mod tests;
mod to_all;
mod waiting;

pub use feed::Feed;
pub use step::Step;
