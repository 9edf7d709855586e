//! Heavy flows: it sums the bytes of each flow, and tells the packets of a flow that has come to many.
//!
//! **What it does.** [`Heavy`] is a [`Program`](scr_program::Program). Its row keeps of an IP packet the five-tuple, the
//! family, the kind and the length. A step adds the length to the bytes of the flow, and answers HEAVY where they are
//! then as many as the [`HeavySettings`] say or more, else PASS. Any other frame is OTHER, and changes nothing.
//!
//! **What a contract sees.** The sums as a list of five-tuples and numbers, the flow that was seen last in front. The
//! settings as their two numbers, which are always within their ranges.
//!
//! **What is proved.** The rows are those of specs/Rows.antt, and the verdicts and the number of flows are those of the
//! fold of the step of specs/Step.antt over the rows: sums stop at 2^64 - 1, and a full table forgets the flow that was
//! seen longest ago. A step that wants memory in vain changes nothing, and a prepared one never does. Settings take just
//! the numbers in their range, and stay as they are after a refusal.
//!
//! **What is only tested.** That the definitions say what they should, by packets followed by hand, and that calls
//! succeed where there is memory.
//!
//! **Limits.** A flow that the table forgot begins anew at 0. At most 65,536 flows are counted.
#![tactic(auto)]

mod program;
mod settings;
#[cfg(test)]
mod tests;

pub use program::Heavy;
pub use settings::HeavySettings;
