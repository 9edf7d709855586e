ghost use Rattle.std.specs.Prelude.{◌≡◌, ◌==◌, ◌&&◌};
ghost use Rattle.scr_tables.specs.Rules.{holds, is_any};

use scr_program::Fields;

/// The kinds of packets with ports, as `Fields` numbers them.
const TCP: u16 = 2;

const UDP: u16 = 3;

/// Of which packets a rule holds.
#[derive(Clone, Copy, Debug, PartialEq, Eq)]
pub enum Pattern {
    /// Any packet.
    Any,
    /// A TCP segment.
    Tcp,
    /// A UDP datagram.
    Udp,
    /// TCP or UDP to this port.
    Port(u16),
    /// A TCP segment that has all of these flags, whatever others it has.
    Flags(u8),
}

impl Pattern {
    /// Whether the rule holds of a packet with these fields.
    pub fn holds(self, packet: &Fields) -> bool
        ensures { result ≡ holds self packet.now }
    {
        let is_tcp = packet.kind == TCP;
        match self {
            Pattern::Any => true,
            Pattern::Tcp => is_tcp,
            Pattern::Udp => packet.kind == UDP,
            Pattern::Port(port) => {
                (is_tcp || packet.kind == UDP) && packet.destination_port == port
            }
            Pattern::Flags(flags) => is_tcp && packet.flags & flags == flags,
        }
    }

    /// Whether it is the pattern of any packet.
    pub fn is_any(self) -> bool
        ensures { result ≡ is_any self }
    {
        match self {
            Pattern::Any => true,
            Pattern::Tcp | Pattern::Udp | Pattern::Port(_) | Pattern::Flags(_) => false,
        }
    }
}

/// What a rule says of a packet.
#[derive(Clone, Copy, Debug, PartialEq, Eq)]
pub enum Decision {
    /// It passes.
    Pass,
    /// It is dropped.
    Drop,
}

/// A rule: what becomes of a source in a state, and of its packet.
#[derive(Clone, Copy, Debug, PartialEq, Eq)]
pub struct Rule {
    /// The state in which the rule is tried, at most 15 in a table.
    pub state: u8,
    /// The packets that it holds of.
    pub pattern: Pattern,
    /// The state that the source comes to, at most 15 in a table.
    pub next: u8,
    /// What becomes of the packet.
    pub verdict: Decision,
}

impl Rule {
    /// Whether it is a rule of this state for any packet.
    pub(crate) fn is_any_of(&self, state: u8) -> bool
        ensures { result ≡ ((self.now.state == state) && is_any self.now.pattern) }
    {
        self.state == state && self.pattern.is_any()
    }
}
