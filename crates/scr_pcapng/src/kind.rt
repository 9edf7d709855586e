ghost use Rattle.std.specs.Prelude.{◌≡◌, ◌≤◌, ◌+◌};
ghost use Rattle.scr_pcapng.specs.Blocks.{front_of, head_of, is_total, kind_of, least};

/// The kinds of blocks that are told apart.
#[derive(Clone, Copy, Debug, PartialEq, Eq)]
pub(crate) enum Kind {
    SectionHeader,
    InterfaceDescription,
    SimplePacket,
    EnhancedPacket,
    /// Passed over.
    Other,
}

impl Kind {
    // The kind of a block with this type.
    #[inline(always)]
    pub(crate) fn of(number: u32) -> Self
        ensures { result ≡ kind_of number }
    {
        match number {
            0x0A0D_0D0A => Kind::SectionHeader,
            1 => Kind::InterfaceDescription,
            3 => Kind::SimplePacket,
            6 => Kind::EnhancedPacket,
            _ => Kind::Other,
        }
    }

    // The least total length, in bytes.
    #[inline(always)]
    pub(crate) fn least(self) -> u32
        ensures { result ≡ least self }
    {
        match self {
            Kind::SectionHeader => 28,
            Kind::InterfaceDescription => 20,
            Kind::SimplePacket => 16,
            Kind::EnhancedPacket => 32,
            Kind::Other => 12,
        }
    }

    // How many bytes tell the total length.
    pub(crate) fn front(self) -> usize
        ensures { result ≡ front_of self }
    {
        match self {
            Kind::SectionHeader => 12,
            _ => 8,
        }
    }

    // Whether a block can have this total length.
    #[inline(always)]
    pub(crate) fn is_total(self, total: u32) -> bool
        ensures { result ≡ is_total self total }
    {
        total % 4 == 0 && total >= self.least()
    }

    // How many bytes in front tell what the block is, but for options and the bytes of a packet.
    pub(crate) fn head(self) -> usize
        ensures { result ≡ head_of self }
    {
        match self {
            Kind::SectionHeader | Kind::InterfaceDescription => 16,
            Kind::SimplePacket => 12,
            Kind::EnhancedPacket => 28,
            Kind::Other => 8,
        }
    }
}
