//! The packets that a program takes: each flow sends one in turn, and each time round all of them send the next segment of
//! one talk. A row costs next to nothing beside a step.
ghost use Rattle.std.specs.Prelude.{◌≤◌, ◌<◌, length};

use crate::measure::Load;
use scr_base::Row;

const FIRST_CLIENT: u32 = 0x0A00_0001;

const SERVER: u64 = 0x0AF0_0001;

const CLIENT_PORT: u64 = 40000;

/// Protocol 6 and kind 2 at their places in a row.
const TCP_OVER_IPV4: u64 = (6 << 24) | 2;

/// Flow 0 is followed by flow 7,919 and so on, so that a flow isn't kept beside the next one. As the number is a prime,
/// each flow comes once a round, unless their number is a multiple of it.
const STRIDE: u32 = 7_919;

/// A segment of TCP between a client and the server, whose port is here.
#[derive(Clone, Copy)]
pub enum Segment {
    FromClient { port: u16, flags: u8 },
    FromServer { port: u16, flags: u8 },
}

impl Segment {
    // The row of this segment of a client, 10 microseconds after the packet before.
    fn row(self, client: u64, number: u32) -> Row {
        let (source, destination, ports, flags) = match self {
            Segment::FromClient { port, flags } => {
                (client, SERVER, (CLIENT_PORT << 16) | u64::from(port), flags)
            }
            Segment::FromServer { port, flags } => {
                (SERVER, client, (u64::from(port) << 16) | CLIENT_PORT, flags)
            }
        };
        Row {
            w0: 0,
            w1: source,
            w2: 0,
            w3: destination,
            w4: (ports << 32) | TCP_OVER_IPV4 | (u64::from(flags) << 16),
            w5: 10 * u64::from(number),
            w6: 40,
        }
    }
}

/// The packets of a load, one after the other.
#[derive(Drop)]
pub struct Traffic {
    talk: &'static [Segment],
    flows: u32,
    flow: u32,
    segment: usize,
    number: u32,
    ghost in_talk: { segment < length talk.now },
    ghost in_flows: { flow < flows },
    ghost few_flows: { flows ≤ 1000000 },
}

impl Traffic {
    /// The packets of so many flows, from the first segment of this talk on.
    pub fn new(talk: &'static [Segment], load: Load) -> Self
        requires { 0 < length talk.now }
    {
        Traffic {
            talk,
            flows: load.flows,
            flow: 0,
            segment: 0,
            number: 0,
        }
    }

    /// The row of the next packet.
    pub fn next_row(&mut self) -> Row {
        let client = FIRST_CLIENT + self.flow;
        let row = self.talk[self.segment].row(u64::from(client), self.number);
        self.number = self.number.wrapping_add(1);
        self.flow = (self.flow + STRIDE) % self.flows;
        if self.flow == 0 {
            self.segment = (self.segment + 1) % self.talk.len();
        }
        row
    }
}
