//! What every crate of `scr` speaks of: rows and verdicts, words, streams of bytes, and numbers as text.
//!
//! **What it does.** A [`Source`] gives bytes and a [`Sink`] takes them: in memory, with calls that fail where a caller
//! says so ([`MemSource`], [`MemSink`]) or with none ([`SureSource`], [`SureSink`]), or the standard streams of the
//! process ([`StdSource`], [`StdOutput`], [`StdError`]). [`put_all`], [`put_decimal`] and [`Batch`] write whole texts, [`read_number`]
//! reads a number, and a [`Word`] owns the bytes of an argument.
//!
//! **What a contract sees.** Bytes as a list of numbers. A stream as what it has left, or what was written to it, where
//! it tells that, and as counts of its failures and of the times it wanted memory in vain. A batch as
//! the bytes that it holds, and a word as its bytes.
//!
//! **What is proved.** A stream loses no byte, and gives or takes none where it answers an error. An error adds one to the
//! count of its kind, and nothing else changes a count, over a whole text too. A text is written whole, or else a front
//! of it and not all, through a batch too. The streams in memory fail at just the calls that were named. A source that
//! reads ahead gives what its reader gave, in order, and a sink over a writer adds to what the writer holds just what it
//! answers. A number is read exactly as decimal digits spell it. Want of memory ([`OutOfMemory`]) comes from an error of
//! the allocator or of the system: no other crate can make one.
//!
//! **What is only tested.** That calls succeed where there is memory, and that the standard streams can be opened. What
//! they give and take is the system's: they tell nothing of it, only how often they failed.
//!
//! **Limits.** Counts stop at 2^64 - 1, so an error there leaves them as they are. A batch and a source that reads
//! ahead hold 64 KiB each in themselves. A read or write that was interrupted has failed, and is not tried again.
#![tactic(auto)]

mod batch;
mod copying;
mod memory;
mod number;
mod out_of_memory;
mod piece;
mod row;
mod sink;
mod source;
mod standard;
mod sure;
#[cfg(test)]
mod tests;
mod word;
mod writing;

pub use batch::Batch;
pub use memory::{MemSink, MemSource};
pub use number::{NumberError, read_number};
pub use out_of_memory::OutOfMemory;
pub use piece::Piece;
pub use row::{Row, Verdict};
pub use sink::{Sink, SinkError};
pub use source::{Failed, Source};
pub use standard::{ReaderSource, StdError, StdOutput, StdSource, WriterSink};
pub use sure::{SureSink, SureSource};
pub use word::Word;
pub use writing::{put_all, put_decimal};
