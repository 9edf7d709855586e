//! The messages of a lane, each as one packet of bytes, and the list of messages that a lane is.
//!
//! **What it does.** A sequencer tells a core by a lane of messages which frames it has: a frame with the rows that it
//! carries, now and then a beacon that says how far the numbers have come, and last an end. [`encode`] spells a message as
//! a [`Packet`], and [`encode_frame`] a frame's, whose rows lie in two pieces and the frame's own behind them.
//! [`decode`] tests the bytes of a message, and shows it as a [`WireView`], whose rows are read where they lie.
//!
//! **What a contract sees.** A message as its kind, number and list of rows. A packet as its bytes. A view as the message
//! that it shows. The lane of a core, for a plan, is defined in specs/Lane.antt: what each number adds to it, the whole
//! list, and up to which number its first messages decide what the core will know by its own frames.
//!
//! **What is proved.** A message has one spelling, which is what is written, and bytes are spelled by one message at most
//! ([`one_message`]). What is shown spells the bytes, a message that spells the bytes is shown, and so what was encoded is
//! decoded to the same message. What is refused is the first test that fails. Of lanes: where the messages of each number
//! stand, that nothing above the last frame is decided, and that the whole lane decides all.
//!
//! **What is only tested.** That messages written down by hand are spelled, read and refused as meant, and that there is
//! a packet where there is memory.
//!
//! **Limits.** A frame has at least its own row, at most 65 rows, and no more than its number. Nothing is said of what the
//! words of a row mean. A view borrows the bytes.
#![tactic(auto)]

mod error;
mod laws;
mod message;
mod packet;
#[cfg(test)]
mod tests;
mod view;
mod writing;

pub use error::WireError;
pub use laws::one_message;
pub use message::{Message, MessageKind, Rows};
pub use packet::{Packet, encode, encode_frame};
pub use view::{WireView, decode};
