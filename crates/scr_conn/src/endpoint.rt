ghost use Rattle.std.specs.Prelude.{◌≡◌, ◌++◌, ◌+◌, ◌*◌, ◌%◌, ◌^◌};
ghost use Rattle.std.proofs.Common.{rules};
ghost use Rattle.std.specs.Cmp.Rules.{hashing};
ghost use Rattle.std.specs.Hash as fed;
ghost use Rattle.scr_conn.specs.Endpoints.{source_of, destination_of, sender_of, connection_of};
ghost use Rattle.scr_conn.specs.Same.{connection_is_one};

use scr_program::{Address, Fields, FlowKey};
use std::hash::{Hash, Hasher};

/// One end of a connection. Endpoints are ordered by family, then by the address's number, then by port.
#[derive(Clone, Copy, Debug, PartialEq, Eq, PartialOrd, Ord)]
pub struct Endpoint {
    pub address: Address,
    pub port: u16,
}

/// One of the two ends of a connection, by their order.
#[derive(Clone, Copy, Debug, PartialEq, Eq)]
pub enum Side {
    Low,
    High,
}

/// The two ends of a connection. Packets of both directions have the same one.
#[derive(Clone, Copy, Debug, PartialEq, Eq)]
pub struct Connection {
    pub low: Endpoint,
    pub high: Endpoint,
}

// Hashing is most of a look-up, so it is two writes: the low address, and the high one with the ports in its upper half.
// Over IPv6 that adds the two, and few keys hash alike.
impl Hash for Connection {
    ghost hash_input = { λ key. fed.u128 key.low.address.value ++ fed.u128 ((key.high.address.value + (key.low.port * 2 ^ 16 + key.high.port) * 2 ^ 64) % 2 ^ 128) };

    ghost respects_eq = { Prim.search (hashing, rules) };

    fn hash<H: Hasher>(&self, state: &mut H) {
        let ports = u128::from(ports_joined(self.low.port, self.high.port));
        self.low.address.hash(state);
        self.high
            .address
            .value
            .wrapping_add(ports * (1 << 64))
            .hash(state);
    }
}

#[inline(always)]
fn ports_joined(low: u16, high: u16) -> u64
    ensures { result ≡ low * 2 ^ 16 + high }
{
    u64::from(low) * (1 << 16) + u64::from(high)
}

impl FlowKey for Connection {
    ghost is_one = { connection_is_one };
}

/// The side that sent a packet with these fields: the low one where both endpoints are the same.
#[inline(always)]
pub(crate) fn sender_of(fields: &Fields) -> Side
    ensures { result ≡ sender_of fields.now }
{
    if source_of(fields) <= destination_of(fields) {
        Side::Low
    } else {
        Side::High
    }
}

/// The connection that a packet with these fields belongs to.
#[inline(always)]
pub(crate) fn connection_of(fields: &Fields) -> Connection
    ensures { result ≡ connection_of fields.now }
{
    match sender_of(fields) {
        Side::Low => Connection {
            low: source_of(fields),
            high: destination_of(fields),
        },
        Side::High => Connection {
            low: destination_of(fields),
            high: source_of(fields),
        },
    }
}

#[inline(always)]
fn source_of(fields: &Fields) -> Endpoint
    ensures { result ≡ source_of fields.now }
{
    Endpoint {
        address: fields.source,
        port: fields.source_port,
    }
}

#[inline(always)]
fn destination_of(fields: &Fields) -> Endpoint
    ensures { result ≡ destination_of fields.now }
{
    Endpoint {
        address: fields.destination,
        port: fields.destination_port,
    }
}
