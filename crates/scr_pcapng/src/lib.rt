//! Captures in blocks (pcapng) and in the libpcap file format, read one record at a time.
//!
//! **What it does.** [`AnyReader::begin`] takes the first bytes of a capture, which tell its format. [`AnyReader::next`] then
//! takes a record into a [`FrameBuf`](scr_pcap::FrameBuf). Of blocks those of packets are records; sections of both orders of
//! bytes and several interfaces may stand in one capture, and other blocks are passed over.
//!
//! **What a contract sees.** Bytes as a list of numbers. A block as its bytes and its [`Content`]. A reader of blocks as where
//! the next block stands (how many blocks and packets stand before it, and the order and the interfaces of its section) and
//! whether it may read on, has met the end, or has answered an error.
//!
//! **What is proved.** Any bytes have one reading in one of the two formats, the records of its packets or the first
//! fault: [`some_reading`] and [`one_reading`]. In whatever pieces a source gives its bytes, a reader answers the records of
//! this reading in order, then `None` or its cause, or an error of the source that its count shows, or a want of memory. A
//! cause behind the total length comes when the block was taken whole. What a reader of blocks keeps are the interfaces of a
//! section and the bytes of one packet: all else is passed over, whatever length it claims. All calls together take at most
//! 4,000,000 blocks of fewer than 2^32 bytes, and one byte more.
//!
//! **What is only tested.** That the definition means what pcapng means, and that captures written down by hand are read as
//! meant.
//!
//! **Limits.** How a unit's value is read, the captured length of a simple packet, its time of 0 and the meaning of a snap
//! length of 0 are this project's own choices. A capture has at most 4,000,000 blocks and 1,000,000 packets, which are
//! Ethernet frames of at most 262,144 bytes. Names, comments, statistics and other options are passed over. The interfaces of
//! a section are as many as its blocks may be.
#![tactic(auto)]

mod any;
mod content;
mod contents;
mod error;
mod head;
mod heading;
mod kind;
mod laws;
mod options;
mod padding;
mod passing;
mod progress;
mod reader;
mod taking;
#[cfg(test)]
mod tests;
mod units;

pub use any::AnyReader;
pub use content::{Content, InterfaceInfo};
pub use error::{AnyError, NgError};
pub use laws::{one_reading, some_reading};
pub use progress::Progress;
