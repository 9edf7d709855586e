//! The cores of a run: each takes every packet that any of them was told of, once and in order, and so all agree.
//!
//! **What it does.** [`run_phases`] runs all cores of a plan on the calling thread. First the sequencer's messages go to
//! their cores in the order of their lanes, late frames and second copies among them. A core passes over a frame whose number
//! isn't above every number that it took, and notes what the others tell of each packet: the row, or that it is lost to the
//! core. Then each core takes the packets in order over a state of its own, with its own row or else one that a peer knows,
//! and gives the verdicts of the frames that were delivered to it. [`gather`] merges the verdicts of all cores in the order
//! of the frames.
//!
//! A [`Replica`] is one core as a thread runs it: [`Replica::turn`] takes the next message of its lane, publishes what that
//! decides in its own log, asks the logs of the others for a packet that is lost to it, or applies or skips a packet and
//! finishes it. [`run_core_into`] makes turns until the end, pauses where it waits, and goes through a [`Gate`] once in and
//! once out. It gives each verdict to an [`Outlet`] before its next turn, and each packet but the last two once it needs it
//! no more, so that the outlet can send it back to the thread whose memory it is. [`run_core`] is the same with a list.
//!
//! **What a contract sees.** A program by the six definitions of its trait. The one-core answer of a plan is defined over
//! two of them, in specs/OneCore.antt: the rows of the kept packets in order, the verdict of each delivered frame's packet
//! after the kept packets before it, and the entries after all kept packets. What a core answers, and what all answer
//! together, are records of lists and numbers. A replica is seen as the end of its lane, its pass, its state, its counts,
//! how many cores were seen to have lost the packet at hand, and how it stands.
//!
//! **What is proved.** A run by phases gives the verdicts and the entries of the one-core answer, and the counts of each core
//! as the plan defines them, for every link. It returns, and waits for nobody. Want of memory is its only other answer. The
//! frames that a core takes of its lane are those that are delivered to it, in growing order ([`frames_of_a_lane`]), and
//! after each message it knows just the packets that these messages decide, each by its final entry. Where the link does
//! nothing, the one-core answer is over all rows ([`one_core_of_all`]) and that of one core that is given every frame
//! ([`none_dropped`]). One verdict is given for each delivered frame, in capture order ([`one_verdict_each`]).
//!
//! After each turn of a replica its state is that of the kept packets up to the one that it has finished, its counts are
//! those up to there, and it has published no more than its messages decide and at most one packet more than it has finished.
//! A turn gives a verdict exactly where it finishes the packet of a frame that was delivered to its core, and it is the
//! one-core verdict. It answers that it waits, or is halted, only by a look of its own, moves one of the numbers where it
//! answers that it moved, never sets the halt word, and stays ended, halted or out of memory. [`run_core_into`] gives its outlet
//! the one-core verdicts of its core's frames, in order and each once, and answers the counts and the entries; [`run_core`]
//! answers all of these. Where a core stops it hands its pass back with the look or the halt that says why.
//!
//! **What is only tested.** That there is an answer where there is memory, and the verdicts, counts and entries of runs that
//! were worked out by hand.
//!
//! **Limits.** Those of a plan: at most 1,000,000 packets, 16 cores and a history of 64. In a run by phases each core holds
//! 64 bytes for each packet; a replica holds two packets and its state. A run's time grows with frames times cores; the
//! fates of all frames are told once, before the first. Where no frame that carries a packet was delivered, or few were, a
//! core asks its peers one by one, at most one look for each. Nothing here starts a thread. A turn may wait for the queue of
//! its lane to give what was sent, and [`run_core`] for other cores, or for room in its outlet: no proof says that either
//! returns. A replica decodes a message when it takes it, and once more for each packet that it publishes.
#![tactic(auto)]

mod applying;
mod entry;
mod filling;
mod gate;
mod gathered;
mod heard;
mod known;
mod laws;
mod listener;
mod merging;
mod outlet;
mod phases;
mod replay;
mod replica;
mod standing;
#[cfg(test)]
mod tests;
mod turn;
mod turning;
mod worker;

pub use gate::Gate;
pub use gathered::{CoreResult, CoreTally, Gathered};
pub use laws::{frames_of_a_lane, none_dropped, one_core_of_all, one_verdict_each};
pub use merging::gather;
pub use outlet::Outlet;
pub use phases::run_phases;
pub use replica::Replica;
pub use standing::Standing;
pub use turn::{Pending, Turn};
pub use worker::{CoreCause, CoreStop, run_core, run_core_into};
