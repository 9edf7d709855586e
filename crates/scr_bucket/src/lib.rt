//! The token bucket: a packet passes where the bucket of its flow has a token left.
//!
//! **What it does.** [`Bucket`] is a [`Program`](scr_program::Program). Its row keeps of an IP packet the five-tuple, the
//! family, the kind and the time. A step fills the bucket of the flow by the time that passed and the rate of the
//! [`BucketSettings`], up to the burst; the bucket of a new flow is full. The packet then takes a token and the answer is
//! PASS, or there is none and it is DROP. Any other frame is OTHER, and changes nothing.
//!
//! **What a contract sees.** The buckets as a list of five-tuples and [`Tokens`], the flow that was seen last in front.
//! The settings as their three numbers, which are always within their ranges.
//!
//! **What is proved.** The rows are those of specs/Rows.antt, and the verdicts and the number of flows are those of the
//! fold of the step of specs/Step.antt over the rows, over numbers that never wrap: a bucket gains nothing where time
//! goes back, and after any gap it holds what it gained, up to the burst. A full table forgets the flow that was seen
//! longest ago. A step that wants memory in vain changes nothing, and a prepared one never does. Settings take just the
//! numbers in their range, and stay as they are after a refusal.
//!
//! **What is only tested.** That the definitions say what they should, by packets followed by hand, and that calls
//! succeed where there is memory.
//!
//! **Limits.** A flow that the table forgot begins anew with a full bucket. At most 65,536 flows have one. Time counts in
//! microseconds, and tokens in millionths.
#![tactic(auto)]

mod program;
mod settings;
#[cfg(test)]
mod tests;
mod tokens;

pub use program::Bucket;
pub use settings::BucketSettings;
pub use tokens::Tokens;
