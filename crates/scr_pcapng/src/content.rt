ghost use Rattle.std.specs.Prelude.{◌≡◌};
ghost use Rattle.scr_pcapng.specs.Contents.{captured_by};

use scr_pcap::Order;

/// An interface of a section.
#[derive(Clone, Copy, Debug, PartialEq, Eq)]
pub struct InterfaceInfo {
    /// What its frames are; 1 for Ethernet.
    pub link_type: u16,
    /// At how many bytes a frame was cut, 0 for none.
    pub snap: u32,
    /// How many units of its times a second has.
    pub units: u64,
}

/// What a block tells.
#[derive(Clone, Copy, Debug, PartialEq, Eq)]
pub enum Content {
    /// A section begins, in this order of bytes.
    NewSection(Order),
    /// The section has an interface more.
    NewInterface(InterfaceInfo),
    /// A packet: its time in microseconds, where its bytes begin in the block, and how many there are.
    Packet {
        time: u64,
        place: u32,
        captured: u32,
    },
    /// Nothing that is read.
    Passed,
}

impl Content {
    // How many bytes a packet has.
    #[inline(always)]
    pub(crate) fn captured(self) -> u32
        ensures { result ≡ captured_by self }
    {
        match self {
            Content::Packet { captured, .. } => captured,
            _ => 0,
        }
    }
}
