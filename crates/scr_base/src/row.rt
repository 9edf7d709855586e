/// The fields of one packet that a program keeps, packed into seven words.
#[derive(Clone, Copy, Debug, PartialEq, Eq)]
pub struct Row {
    /// The high 64 bits of the source address.
    pub w0: u64,
    /// The low 64 bits of the source address.
    pub w1: u64,
    /// The high 64 bits of the destination address.
    pub w2: u64,
    /// The low 64 bits of the destination address.
    pub w3: u64,
    /// From the top: source port (16 bits), destination port (16), protocol (8), flags (8), family (8), kind (8).
    pub w4: u64,
    /// The time of the packet, in microseconds.
    pub w5: u64,
    /// The length of the packet, in bytes.
    pub w6: u64,
}

/// What a program says of a packet: the place of a name in the program's list of names, from 0.
#[derive(Clone, Copy, Debug, PartialEq, Eq)]
pub struct Verdict(pub u8);
