ghost use Rattle.std.specs.Prelude.{◌≡◌, true, ◌++◌, ◌+◌, ◌*◌, ◌%◌, ◌^◌};
ghost use Rattle.std.proofs.Common.{rules};
ghost use Rattle.std.specs.Cmp.Rules.{hashing};
ghost use Rattle.std.specs.Hash as fed;
ghost use Rattle.scr_program.specs.Keys.{five_tuple_of};
ghost use Rattle.scr_program.specs.Same.{address_is_one, tuple_is_one};

use crate::fields::{Address, Fields};
use std::hash::{Hash, Hasher};

/// A key of a flow table. Equal keys are one key.
pub trait FlowKey: Copy + Eq + Hash + Drop {
    ghost is_one: { (a b : Self) → Self.eq a b ≡ true → a ≡ b };
}

impl FlowKey for Address {
    ghost is_one = { address_is_one };
}

/// Source and destination with their ports, and the protocol.
#[derive(Clone, Copy, Debug, PartialEq, Eq)]
pub struct FiveTuple {
    pub source: Address,
    pub destination: Address,
    pub source_port: u16,
    pub destination_port: u16,
    pub protocol: u8,
}

impl FiveTuple {
    /// The five-tuple of a packet with these fields.
    #[inline(always)]
    pub fn of(fields: &Fields) -> Self
        ensures { result ≡ five_tuple_of fields.now }
    {
        FiveTuple {
            source: fields.source,
            destination: fields.destination,
            source_port: fields.source_port,
            destination_port: fields.destination_port,
            protocol: fields.protocol,
        }
    }
}

// Hashing is most of a look-up, so it is two writes: the source, and the destination with the rest in its upper half.
// Over IPv6 that adds the two, and few keys hash alike.
impl Hash for FiveTuple {
    ghost hash_input = { λ key. fed.u128 key.source.value ++ fed.u128 ((key.destination.value + (key.source_port * 2 ^ 32 + key.destination_port * 2 ^ 16 + key.protocol) * 2 ^ 64) % 2 ^ 128) };

    ghost respects_eq = { Prim.search (hashing, rules) };

    fn hash<H: Hasher>(&self, state: &mut H) {
        let rest = u128::from(self.source_port) * (1 << 32)
            + u128::from(self.destination_port) * (1 << 16)
            + u128::from(self.protocol);
        self.source.hash(state);
        self.destination
            .value
            .wrapping_add(rest * (1 << 64))
            .hash(state);
    }
}

impl FlowKey for FiveTuple {
    ghost is_one = { tuple_is_one };
}
