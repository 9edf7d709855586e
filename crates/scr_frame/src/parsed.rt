/// What a frame carries, as far as it is looked at.
#[derive(Clone, Copy, Debug, PartialEq, Eq)]
pub enum Kind {
    /// No IPv4 or IPv6 packet that can be read: all fields are 0.
    Other,
    /// An IP packet without a TCP or UDP header that can be read: ports and flags are 0.
    Bare,
    /// A TCP segment.
    Tcp,
    /// A UDP datagram.
    Udp,
}

/// The fields of a frame. A field that the frame doesn't have is 0.
#[derive(Clone, Copy, Debug, PartialEq, Eq)]
pub struct Parsed {
    pub kind: Kind,
    /// 0 for IPv4, 1 for IPv6.
    pub family: u8,
    /// The source address; an IPv4 address is its number of 32 bits.
    pub source: u128,
    /// The destination address.
    pub destination: u128,
    pub source_port: u16,
    pub destination_port: u16,
    /// The protocol of IPv4, the next header of IPv6.
    pub protocol: u8,
    /// The flags of TCP, from CWR in the most significant bit to FIN in the least.
    pub flags: u8,
    /// The bytes of the IP packet as its header tells them, the header included and padding left out; those
    /// that were captured where the header tells 0.
    pub length: u32,
}
