ghost use Rattle.std.specs.Prelude.{◌≡◌, ◌∷◌, [], map, IfOk, MatchOption};
ghost use Rattle.scr_wire.specs.Spelling.{spelling};
ghost use Rattle.scr_sequencer.specs.Answers.{beacons_of};
ghost use Rattle.scr_feed.specs.Left.{messages_of};

use scr_base::OutOfMemory;
use scr_wire::{Message, Packet, encode};
use std::alloc::Global;

/// The message that every lane is to get, where there is one.
#[derive(Clone, Copy, Debug, PartialEq, Eq)]
pub enum ToAll {
    Nothing,
    Beacon { number: u32 },
    End { number: u32 },
}

/// The beacon of this number, where there is one.
pub fn beacon_to_all(beacon: Option<u32>) -> ToAll
    ensures { messages_of result ≡ beacons_of beacon }
{
    match beacon {
        Some(number) => ToAll::Beacon { number },
        None => ToAll::Nothing,
    }
}

/// Its packet.
pub fn packet_to_all(alloc: Global, to_all: ToAll) -> Result<Option<Packet>, OutOfMemory>
    ensures { IfOk result (λ packet. MatchOption packet (messages_of to_all ≡ []) (λ bytes. map spelling (messages_of to_all) ≡ bytes ∷ [])) }
{
    match to_all {
        ToAll::Nothing => Ok(None),
        ToAll::Beacon { number } => Ok(Some(encode(alloc, &Message::Beacon { number })?)),
        ToAll::End { number } => Ok(Some(encode(alloc, &Message::End { number })?)),
    }
}
