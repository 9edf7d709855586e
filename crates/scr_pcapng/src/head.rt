ghost use Rattle.std.specs.Prelude.{◌≡◌, ◌≤◌, ◌+◌, true, length};
ghost use Rattle.scr_pcapng.specs.Blocks.{head_of, is_total, marked_order};
ghost use Rattle.scr_pcapng.specs.Parts.{options_size};

use crate::kind::Kind;
use scr_pcap::Order;

// The longest head of a block, in bytes.
pub(crate) const LONGEST_HEAD: usize = 28;

// The value of a section's mark, in the order of its bytes.
const MARK: u32 = 0x1A2B_3C4D;

// What stands in front of a block: its kind, its order of bytes, its total length, and as many bytes as its kind's head has.
#[derive(Drop)]
pub(crate) struct Head {
    pub(crate) kind: Kind,
    pub(crate) order: Order,
    pub(crate) total: u32,
    pub(crate) bytes: [u8; LONGEST_HEAD],
}

impl Head {
    // How many of a block's bytes were taken behind which a packet's bytes or the block's end stand.
    pub(crate) fn front(&self) -> u32
        requires { is_total self.now.kind self.now.total ≡ true }
        ensures { result ≡ head_of self.now.kind + options_size self.now.kind self.now.total }
    {
        match self.kind {
            Kind::SectionHeader => 16,
            Kind::InterfaceDescription => self.total - 4,
            Kind::SimplePacket => 12,
            Kind::EnhancedPacket => 28,
            Kind::Other => 8,
        }
    }
}

// The order in which a section's mark has its value.
pub(crate) fn marked_order(bytes: &[u8]) -> Option<Order>
    requires { 12 ≤ length bytes.now }
    ensures { result ≡ marked_order bytes.now }
{
    if Order::Little.u32_at(bytes, 8) == MARK {
        return Some(Order::Little);
    }
    if Order::Big.u32_at(bytes, 8) == MARK {
        return Some(Order::Big);
    }
    None
}
