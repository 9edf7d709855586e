//! The fields of a frame: addresses, ports, protocol, flags and length, by which the programs count and decide.
//!
//! What it does. [`parse`] reads a frame of Ethernet II with at most one IEEE 802.1Q tag, in it IPv4 or IPv6, and in
//! that TCP or UDP. It refuses no frame: where a layer can't be read, the kind says so and the fields behind are 0.
//!
//! What a contract sees. The bytes of the frame as a list, and the answer as the struct [`Parsed`].
//!
//! What is proved. The answer is `fields` of specs/Fields.antt at all bytes of the frame: each field from its place
//! in the standard's header, and each kind exactly where its conditions hold. No byte outside the frame is read.
//!
//! What is only tested. That the definition says what the standards mean: src/tests.rt has frames written by hand,
//! with their answers.
//!
//! Limits. A frame has at most 262,144 bytes. A second tag, options, IPv6 extension headers, tunnels and fragments
//! behind the first are not looked into, and no checksum is tested.
#![tactic(auto)]

mod codes;
mod number;
mod packet;
mod parsed;
mod parsing;

pub use codes::LONGEST_FRAME;
pub use parsed::{Kind, Parsed};
pub use parsing::parse;

#[cfg(test)]
mod tests;
