ghost use Rattle.std.specs.Prelude.{◌≤◌, ◌<◌, length};

use crate::measure::{Load, Stepped};
use crate::traffic::{Segment, Traffic};
use scr_base::OutOfMemory;
use scr_bucket::{Bucket, BucketSettings};
use scr_conn::{Conn, ConnSettings};
use scr_ddos::{Ddos, DdosSettings};
use scr_heavy::{Heavy, HeavySettings};
use scr_knock::{Knock, KnockSettings};
use scr_program::Program;
use std::alloc::Global;

/// The flows that a table holds where nothing else is asked for, and at most.
const FEW: u32 = 4_096;

const MOST: u32 = 65_536;

const FIN: u8 = 1;

const SYN: u8 = 2;

const ACK: u8 = 16;

/// The same segment all the time.
const DATA: [Segment; 1] = [Segment::FromClient {
    port: 80,
    flags: ACK,
}];

/// Three knocks in turn.
const KNOCKS: [Segment; 3] = [
    Segment::FromClient {
        port: 7000,
        flags: SYN,
    },
    Segment::FromClient {
        port: 8000,
        flags: SYN,
    },
    Segment::FromClient {
        port: 9000,
        flags: SYN,
    },
];

/// A connection from its first segment to its last, and then the next one.
const CONNECTION: [Segment; 7] = [
    Segment::FromClient {
        port: 80,
        flags: SYN,
    },
    Segment::FromServer {
        port: 80,
        flags: SYN | ACK,
    },
    Segment::FromClient {
        port: 80,
        flags: ACK,
    },
    Segment::FromServer {
        port: 80,
        flags: ACK,
    },
    Segment::FromClient {
        port: 80,
        flags: FIN | ACK,
    },
    Segment::FromServer {
        port: 80,
        flags: FIN | ACK,
    },
    Segment::FromClient {
        port: 80,
        flags: ACK,
    },
];

/// New connections only.
const OPENINGS: [Segment; 1] = [Segment::FromClient {
    port: 80,
    flags: SYN,
}];

/// A checksum of the verdicts of this program on these packets.
pub fn checksum_of(alloc: Global, program: Stepped, load: Load) -> Result<u64, OutOfMemory> {
    let most = table_size(load.flows);
    match program {
        Stepped::Ddos => checksum::<Ddos>(alloc, &DdosSettings::new(most), &DATA, load),
        Stepped::Heavy => checksum::<Heavy>(alloc, &HeavySettings::new(most), &DATA, load),
        Stepped::Bucket => checksum::<Bucket>(alloc, &BucketSettings::new(most), &DATA, load),
        Stepped::Knock => checksum::<Knock>(alloc, &KnockSettings::new(most), &KNOCKS, load),
        Stepped::Conn => {
            let talk = if most < load.flows {
                &OPENINGS[..]
            } else {
                &CONNECTION[..]
            };
            checksum::<Conn>(alloc, &ConnSettings::new(most), talk, load)
        }
    }
}

// How many flows a table holds for so many flows: all of them, where it can.
fn table_size(flows: u32) -> u32
    ensures some { 1 ≤ result }
    ensures few { result ≤ 65536 }
{
    if flows <= FEW { FEW } else { MOST }
}

fn checksum<P: Program>(
    alloc: Global,
    settings: &P::Settings,
    talk: &'static [Segment],
    load: Load,
) -> Result<u64, OutOfMemory>
    requires { 0 < length talk.now }
{
    let mut state = P::fresh(alloc, settings)?;
    let mut traffic = Traffic::new(talk, load);
    let mut sum = 0u64;
    for _ in 0..load.packets {
        let verdict = P::step(settings, &mut state, &traffic.next_row())?;
        sum = sum.wrapping_mul(31).wrapping_add(u64::from(verdict.0) + 1);
    }
    Ok(sum)
}
