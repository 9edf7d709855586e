ghost use Rattle.std.specs.Prelude.{◌≡◌, ◌≤◌, ◌+◌, length};
ghost use Rattle.scr_pcap.specs.Header.{number_at};
ghost use Rattle.scr_pcap.specs.Records.{time_in, captured_in};

use byteorder::{BigEndian, ByteOrder, LittleEndian};

/// The order of the bytes of a number.
#[derive(Clone, Copy, Debug, PartialEq, Eq)]
pub enum Order {
    /// The lowest byte first.
    Little,
    /// The highest byte first.
    Big,
}

impl Order {
    /// The number in the two bytes from a place on.
    pub fn u16_at(self, bytes: &[u8], place: usize) -> u16
        requires { place + 2 ≤ length bytes.now }
        ensures { result ≡ number_at self place 2 bytes.now }
    {
        match self {
            Order::Little => LittleEndian::read_u16(&bytes[place..]),
            Order::Big => BigEndian::read_u16(&bytes[place..]),
        }
    }

    /// The number in the four bytes from a place on.
    pub fn u32_at(self, bytes: &[u8], place: usize) -> u32
        requires { place + 4 ≤ length bytes.now }
        ensures { result ≡ number_at self place 4 bytes.now }
    {
        match self {
            Order::Little => LittleEndian::read_u32(&bytes[place..]),
            Order::Big => BigEndian::read_u32(&bytes[place..]),
        }
    }
}

/// What the fractions of seconds count.
#[derive(Clone, Copy, Debug, PartialEq, Eq)]
pub enum Fraction {
    Microseconds,
    Nanoseconds,
}

/// What the magic number of a capture tells.
#[derive(Clone, Copy, Debug, PartialEq, Eq)]
pub struct Format {
    pub order: Order,
    pub fraction: Fraction,
}

impl Format {
    // The time in microseconds that the header of a record tells.
    pub(crate) fn time_in(self, header: &[u8]) -> u64
        requires { 8 ≤ length header.now }
        ensures { result ≡ time_in self header.now }
    {
        let seconds = u64::from(self.order.u32_at(header, 0));
        let fraction = u64::from(self.order.u32_at(header, 4));
        let microseconds = match self.fraction {
            Fraction::Microseconds => fraction,
            Fraction::Nanoseconds => fraction / 1000,
        };
        seconds * 1_000_000 + microseconds
    }

    // How many bytes of a record were captured, as its header tells.
    pub(crate) fn captured_in(self, header: &[u8]) -> u32
        requires { 12 ≤ length header.now }
        ensures { result ≡ captured_in self header.now }
    {
        self.order.u32_at(header, 8)
    }
}
