ghost use Rattle.std.specs.Prelude.{◌≡◌, ◌≤◌};

use crate::measure::Length;
use crate::rows::made_up;
use scr_base::OutOfMemory;
use scr_plan::Fate;
use scr_sequencer::Sequencer;
use std::alloc::Global;

const CORES: u32 = 7;

/// What the link does with each frame.
const ONCE: Fate = Fate::Once { delay: 0 };

/// How many bytes the packets of so many frames have, of which none is dropped.
pub fn bytes_sequenced(alloc: Global, length: Length) -> Result<u64, OutOfMemory> {
    let mut sequencer = Sequencer::make(alloc, CORES, length.history)?;
    let bytes = bytes_of(&mut sequencer, length.frames);
    drop(sequencer);
    bytes
}

fn bytes_of(sequencer: &mut Sequencer, frames: u32) -> Result<u64, OutOfMemory>
    requires fresh { sequencer.old.taken ≡ 0 }
    requires few { frames ≤ 1000000 }
{
    let mut bytes = 0u64;
    for n in 0..frames {
        let outgoing = sequencer.next(made_up(n), ONCE)?;
        if let Some(frame) = &outgoing.own {
            bytes = bytes.wrapping_add(frame.packet.bytes().len() as u64);
        }
        drop(outgoing);
    }
    Ok(bytes)
}
