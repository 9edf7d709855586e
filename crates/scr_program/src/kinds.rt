ghost use Rattle.std.specs.Prelude.{◌≡◌};
ghost use Rattle.scr_program.specs.Kinds.{is_packet, is_tcp, is_udp, has_ports};

const BARE: u16 = 1;

const TCP: u16 = 2;

const UDP: u16 = 3;

/// Whether the kind of a row is that of an IP packet: `Bare`, `Tcp` or `Udp`.
#[inline(always)]
pub fn is_packet(kind: u16) -> bool
    ensures { result ≡ is_packet kind }
{
    kind == BARE || has_ports(kind)
}

/// Whether the kind of a row is that of a packet with ports: `Tcp` or `Udp`.
#[inline(always)]
pub fn has_ports(kind: u16) -> bool
    ensures { result ≡ has_ports kind }
{
    is_tcp(kind) || is_udp(kind)
}

/// Whether the kind of a row is `Tcp`.
#[inline(always)]
pub fn is_tcp(kind: u16) -> bool
    ensures { result ≡ is_tcp kind }
{
    kind == TCP
}

/// Whether the kind of a row is `Udp`.
#[inline(always)]
pub fn is_udp(kind: u16) -> bool
    ensures { result ≡ is_udp kind }
{
    kind == UDP
}
