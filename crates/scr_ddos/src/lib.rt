//! The flood counter: it counts the packets of each source, and drops those of a source past a threshold.
//!
//! **What it does.** [`Ddos`] is a [`Program`](scr_program::Program). Its row keeps of an IP packet the source address,
//! its family and the kind. A step adds one to the count of the source, and answers DROP where the count is then past
//! the threshold of the [`DdosSettings`], else PASS. Any other frame is OTHER, and changes nothing.
//!
//! **What a contract sees.** The counts as a list of sources and numbers, the source that was seen last in front. The
//! settings as their two numbers, which are always within their ranges.
//!
//! **What is proved.** The rows are those of specs/Rows.antt, and the verdicts and the number of flows are those of the
//! fold of the step of specs/Step.antt over the rows: counts stop at 2^64 - 1, and a full table forgets the source that
//! was seen longest ago. A step that wants memory in vain changes nothing, and a prepared one never does. Settings take
//! just the numbers in their range, and stay as they are after a refusal.
//!
//! **What is only tested.** That the definitions say what they should, by packets followed by hand, and that calls
//! succeed where there is memory.
//!
//! **Limits.** A source that the table forgot begins anew at 0. At most 65,536 sources are counted.
#![tactic(auto)]

mod program;
mod settings;
#[cfg(test)]
mod tests;

pub use program::Ddos;
pub use settings::DdosSettings;
