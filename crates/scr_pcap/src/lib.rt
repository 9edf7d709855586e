//! Captures in the libpcap file format, version 2.4, read one record at a time, or made up.
//!
//! **What it does.** [`Reader::begin`] takes the header of a capture from any source, in either order of bytes and with
//! fractions in microseconds or nanoseconds; [`Reader::begin_after`] does so where the first four bytes were taken ahead.
//! [`Reader::next`] then takes a record: its time, and its bytes into a
//! [`FrameBuf`], which is used again for the next. Frames are Ethernet frames of at most 262,144 bytes, and a capture has
//! at most 1,000,000 of them. [`generate`] makes a capture of some hosts that talk to one server.
//!
//! **What a contract sees.** A source by the bytes that it has left, where it tells them, and by its count of failures. A
//! frame as its bytes. A reader as the format of its capture, how many records it took, and whether it may read on, has
//! met the end, or has answered an error.
//!
//! **What is proved.** In whatever pieces a source gives its bytes, each record is the one that stands at their front,
//! `None` is answered only where nothing is left, and an error is the first test that fails, or a failure of the source
//! that its count shows, and then no test was due. A call takes no byte behind those that it tests, so that all calls
//! together take at most 262,160,000,025 bytes ([`most_bytes`]). A reader that has ended or answered an error answers the
//! same again, and reads nothing. Any bytes have one reading, their records or their first fault: [`some_reading`] and [`one_reading`]. The lemmas of
//! proofs/Joining.antt join a caller's steps into it. A made-up capture has the bytes of specs/Generated.antt, which says
//! record by record what they are, and its reading is these records.
//!
//! **What is only tested.** That a [`FrameBuf`] and a made-up capture can be made where there is memory, and that headers
//! and records written down by hand are read, and made, as meant.
//!
//! **Limits.** Zone, figures, snap length and original length are not looked at, of the link type only the low 16 bits.
//! A fraction may exceed a second, and times may go back. Of a source that fails within a record the bytes before the
//! failure are lost.
#![tactic(auto)]

mod error;
mod filling;
mod format;
mod frame;
mod generated;
mod header;
mod laws;
mod reader;
#[cfg(test)]
mod tests;

pub use error::CaptureError;
pub use filling::fill;
pub use format::{Format, Fraction, Order};
pub use frame::{FrameBuf, LONGEST};
pub use generated::generate;
pub use laws::{most_bytes, one_reading, some_reading};
pub use reader::{LIMIT, Progress, Reader, RecordInfo};
