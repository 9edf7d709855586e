ghost use Rattle.std.specs.Prelude.{◌≡◌, ◌<◌, ◌+◌, ◌*◌, ◌/◌, ◌%◌, ◌++◌, ◌^◌};
ghost use Rattle.std.proofs.Common.{rules};
ghost use Rattle.std.specs.Cmp.Rules.{hashing};
ghost use Rattle.std.specs.Hash as fed;

use scr_base::Row;
use scr_frame::{Kind, Parsed};
use std::hash::{Hash, Hasher};

/// An address of a packet. Addresses are ordered by family, and within one by value.
#[derive(Clone, Copy, Debug, PartialEq, Eq, PartialOrd, Ord)]
pub struct Address {
    /// 0 for IPv4, 1 for IPv6.
    pub family: u8,
    /// The address as a number, of 32 or 128 bits.
    pub value: u128,
}

// The value alone, in one write: hashing is most of a look-up. The same number in two families hashes alike, which is
// rare, and `==` tells the two apart.
impl Hash for Address {
    ghost hash_input = { λ address. fed.u128 address.value };

    ghost respects_eq = { Prim.search (hashing, rules) };

    fn hash<H: Hasher>(&self, state: &mut H) {
        self.value.hash(state);
    }
}

/// The fields of a packet. A row holds them, or some of them with the others 0.
#[derive(Clone, Copy, Debug, PartialEq, Eq)]
pub struct Fields {
    pub source: Address,
    pub destination: Address,
    pub source_port: u16,
    pub destination_port: u16,
    /// The protocol of IPv4, the next header of IPv6.
    pub protocol: u8,
    /// The flags of TCP, from CWR in the most significant bit to FIN in the least.
    pub flags: u8,
    /// The kind of frame: 0 for `Other`, 1 for `Bare`, 2 for `Tcp`, 3 for `Udp`.
    pub kind: u16,
    /// In microseconds.
    pub time: u64,
    /// In bytes.
    pub length: u64,
}

ghost use Rattle.scr_program.specs.Rows.{frame_fields, packed, unpacked, kind_number};

impl Fields {
    /// Fields that are all 0.
    pub const NONE: Fields = Fields {
        source: Address {
            family: 0,
            value: 0,
        },
        destination: Address {
            family: 0,
            value: 0,
        },
        source_port: 0,
        destination_port: 0,
        protocol: 0,
        flags: 0,
        kind: 0,
        time: 0,
        length: 0,
    };
}

/// The row of a frame that a program doesn't look at.
pub const ZERO_ROW: Row = Row {
    w0: 0,
    w1: 0,
    w2: 0,
    w3: 0,
    w4: 0,
    w5: 0,
    w6: 0,
};

/// All fields of a frame that came at this time, in microseconds.
#[inline(always)]
pub fn fields_of(parsed: &Parsed, time: u64) -> Fields
    ensures { result ≡ frame_fields parsed.now time }
{
    let address = |value: u128| Address {
        family: parsed.family,
        value,
    };
    Fields {
        source: address(parsed.source),
        destination: address(parsed.destination),
        source_port: parsed.source_port,
        destination_port: parsed.destination_port,
        protocol: parsed.protocol,
        flags: parsed.flags,
        kind: kind_number(parsed.kind),
        time,
        length: u64::from(parsed.length),
    }
}

fn kind_number(kind: Kind) -> u16
    ensures { result ≡ kind_number kind }
{
    match kind {
        Kind::Other => 0,
        Kind::Bare => 1,
        Kind::Tcp => 2,
        Kind::Udp => 3,
    }
}

/// The row of these fields, whose addresses are of one family. `unpack` reads them back.
#[inline(always)]
pub fn pack(fields: &Fields) -> Row
    requires kind { fields.now.kind < 2 ^ 8 }
    requires family { fields.now.source.family ≡ fields.now.destination.family }
    ensures row { result ≡ packed fields.now }
    ensures reads_back { unpacked result ≡ fields.now }
{
    let ports = u64::from(fields.source_port) * (1 << 48)
        + u64::from(fields.destination_port) * (1 << 32);
    let bytes = u64::from(fields.protocol) * (1 << 24)
        + u64::from(fields.flags) * (1 << 16)
        + u64::from(fields.source.family) * (1 << 8)
        + u64::from(fields.kind);
    Row {
        w0: high(fields.source.value),
        w1: low(fields.source.value),
        w2: high(fields.destination.value),
        w3: low(fields.destination.value),
        w4: ports + bytes,
        w5: fields.time,
        w6: fields.length,
    }
}

/// The fields of a row, read back from their places. Both addresses have the row's family.
#[inline(always)]
pub fn unpack(row: &Row) -> Fields
    ensures { result ≡ unpacked row.now }
{
    let family = (row.w4 / (1 << 8) % (1 << 8)) as u8;
    Fields {
        source: Address {
            family,
            value: joined(row.w0, row.w1),
        },
        destination: Address {
            family,
            value: joined(row.w2, row.w3),
        },
        source_port: (row.w4 / (1 << 48)) as u16,
        destination_port: (row.w4 / (1 << 32) % (1 << 16)) as u16,
        protocol: (row.w4 / (1 << 24) % (1 << 8)) as u8,
        flags: (row.w4 / (1 << 16) % (1 << 8)) as u8,
        kind: (row.w4 % (1 << 8)) as u16,
        time: row.w5,
        length: row.w6,
    }
}

// The high 64 bits of an address.
fn high(value: u128) -> u64
    ensures { result ≡ value / 2 ^ 64 }
{
    (value / (1 << 64)) as u64
}

// The low 64 bits of an address.
fn low(value: u128) -> u64
    ensures { result ≡ value % 2 ^ 64 }
{
    (value % (1 << 64)) as u64
}

fn joined(high: u64, low: u64) -> u128
    ensures { result ≡ high * 2 ^ 64 + low }
{
    u128::from(high) * (1 << 64) + u128::from(low)
}
