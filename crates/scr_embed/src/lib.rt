//! How another crate calls the program and its parts, and how a program of one's own is written. docs/EMBEDDING.md walks
//! through it.
//!
//! **What it does.** [`run_words`] gives [`scr_main`](scr_run::scr_main) words and a capture in memory. [`report_of`] has the
//! report of any program over a capture in memory, without words or cores. [`take_frame`] lets a program give the verdict of
//! one frame, for a caller that has its own source of frames. [`PortGuard`] is a program of one's own.
//!
//! **What a contract sees.** Captures and reports as lists of bytes. The guard as the packets to its port, counted for each
//! source.
//!
//! **What is proved.** Words give the text that they ask for, and a program's report is that of its rules over the records
//! of the capture; or the status of what is wrong with words or capture comes, or memory ran out. A verdict is the one
//! after the rows before it. The guard's rows and verdicts are those of specs/Guard.antt.
//!
//! **What is only tested.** That calls succeed where there is memory, and the line on the error stream.
//!
//! **Limits.** Those of the crates below. Nothing stands on this crate.
#![tactic(auto)]

mod guard;
mod one_frame;
mod reports;
mod settings;
#[cfg(test)]
mod tests;
mod words;

pub use guard::PortGuard;
pub use one_frame::take_frame;
pub use reports::report_of;
pub use settings::PortSettings;
pub use words::{Ended, run_words};
