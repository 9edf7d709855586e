//! The codes and lengths of the headers that are read. Lengths are in bytes.

/// The most bytes of a frame.
pub const LONGEST_FRAME: usize = 262_144;

pub(crate) const TYPE_IPV4: u16 = 0x0800;

pub(crate) const TYPE_IPV6: u16 = 0x86DD;

/// The type in front of a tag.
pub(crate) const TYPE_TAG: u16 = 0x8100;

/// The protocol number of TCP.
pub(crate) const TCP: u8 = 6;

/// The protocol number of UDP.
pub(crate) const UDP: u8 = 17;

/// Two addresses and the type.
pub(crate) const ETHERNET_HEADER: usize = 14;

/// The same with one tag.
pub(crate) const TAGGED_HEADER: usize = 18;

/// The header of IPv4 without options.
pub(crate) const IPV4_HEADER: u8 = 20;

pub(crate) const IPV6_HEADER: u8 = 40;

/// The header of TCP without options.
pub(crate) const TCP_HEADER: usize = 20;

/// The same in words of 32 bits, as a data offset counts it.
pub(crate) const TCP_WORDS: u8 = 5;

pub(crate) const UDP_HEADER: usize = 8;
