//! A run as one stream of bytes: what the cores are delivered, written one message after another.
//!
//! **What it does.** [`write_stream`] appends to any sink a header that names the program, the cores and the history, then
//! the messages of the frames that are delivered, in growing order of their numbers, and last the end. Frames that come
//! late or twice on the link stand once, at their number, and those that come too late don't stand there. [`read_stream`]
//! takes such a stream from any source, and answers the plan that it stands for: the numbers without a frame are missing.
//!
//! **What a contract sees.** A plan as in scr_plan, a sink and a source as in scr_base, and the stream of a plan as a list
//! of bytes (specs/Streamed.antt), made of the spellings of scr_wire and of what scr_plan says is delivered. The reading of
//! bytes (specs/Reading.antt) is a relation over all of them: a plan, or the first test that fails.
//!
//! **What is proved.** A call that writes and succeeds has appended just the stream of its plan; one that fails, a front of
//! it and not all. An error of the sink is counted there, and nothing else is; where there was no memory for the call
//! itself, the sink is as it was. A call that reads answers the reading of all the bytes; a fault of the source is counted
//! where it is answered. Any bytes have a reading ([`some_reading`]), and only one ([`one_reading`]); and what is written
//! of a plan reads as a plan of the same run ([`written_is_read`]).
//!
//! **What is only tested.** That a stream written down by hand is the one that is written, over a link that loses, repeats
//! and delays too, and the one that is read; that it is refused in each of its places; and that there is a stream, or a
//! plan, where there is memory.
//!
//! **Limits.** Those of a plan. What becomes of each frame is found out once, before anything is written, and takes memory
//! for as many as there are; after that nothing is allocated but by the sink. A frame costs its rows, and a late one also a
//! look at the frames of its core up to the step at which it comes. What is read is kept as the rows of all packets up to
//! the number of the end, whether a frame carries them or not.
#![tactic(auto)]

mod entry;
mod error;
mod filling;
mod format;
mod header;
mod laws;
mod put;
mod read;
mod taken;
#[cfg(test)]
mod tests;
mod write;

pub use error::StreamError;
pub use header::Shape;
pub use laws::{one_reading, some_reading, written_is_read};
pub use read::read_stream;
pub use write::write_stream;
