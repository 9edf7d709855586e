//! The crew: all cores of a run, each in a thread of its own.
//!
//! **What it does.** [`run_threads`] and [`run_streamed`] make the logs and the lanes of a plan, claim every core, and start a
//! thread for each, which runs the core and sends its verdicts by a lane as it gives them. The caller goes by turns: it feeds
//! the lanes for some steps, and takes some verdicts, in the order of the frames. [`run_threads`] keeps them in a list,
//! [`run_streamed`] writes their lines while the run goes on, and counts them. Packets that a core needs no more come home to
//! the caller, whose memory they are, behind each turn. Then the threads are joined. Where a thread can't be started, or a
//! core was claimed before, the logs are halted, the threads that run are joined, and the run goes by phases on the calling
//! thread, behind the verdicts that were taken. A core alone has nobody to run beside: its run goes by phases from the start,
//! and no thread is made. [`OpenGate`] is the gate that does nothing.
//!
//! **What a contract sees.** A program, a plan and an answer as scr_replica shows them. A thread as what it promises: under
//! which settings, over which plan and for which core it answers. An end of a verdict lane as the verdicts of its core and
//! how many of them it has sent or taken. What takes the verdicts as the list that it is to take, and the rest of it.
//!
//! **What is proved.** A run in threads gives the verdicts and the entries of the one-core answer, and the counts of each core as
//! the plan defines them, for every program, link, number of slots, gate and schedule, also where a thread can't be started.
//! Where its verdicts leave as lines, these are written in the order of the frames, all at `Ok` and else a front of them, and
//! the sink's counts say whether it stopped the run. A verdict lane gives the verdicts of its core in order, each once. All
//! this holds if the call returns.
//!
//! **What is only tested.** That a run in threads comes to its end, over links that drop, repeat and delay, with one slot and
//! with 1,024, and over a sink whose calls fail; that the cores run beside each other and publish every packet, by a gate at
//! which they wait for each other; that a core alone goes through no gate; and that a core without a thread halts the
//! others. The test leaves a thread out, since nothing there can make the system refuse one.
//!
//! **Limits.** Those of a plan and of the logs. A lane holds 1,024 messages, a verdict lane 1,024 verdicts, and lines are
//! collected to 64 KiB before they are written. The call may wait: no clause says that it returns. Where memory is wanting
//! in one core the others are halted. Where threads were started, a run by phases begins anew, and takes the time and the
//! memory of such a run beside what they took. Its lines leave when the last frame was decided.
#![tactic(auto)]

mod arrivals;
mod core_out;
mod crew;
mod feeding;
mod joining;
mod lines;
mod open_gate;
mod returning;
mod run_stop;
mod streamed;
mod taker;
mod taking;
#[cfg(test)]
mod tests;
mod threads;
mod verdict_lane;
mod work;
mod workers;

pub use core_out::{CoreTotals, run_core_out};
pub use open_gate::OpenGate;
pub use run_stop::RunStop;
pub use streamed::{Streamed, run_streamed};
pub use threads::run_threads;
pub use verdict_lane::{CourseOf, VerdictLane, VerdictReceive, VerdictSend};
