ghost use Rattle.std.specs.Prelude.{◌≡◌, ◌≢◌, ◌+◌, ◌-◌, ◌<◌, ◌≤◌, ℕ, true, false};
ghost use Rattle.scr_plan.specs.Plan.{Plan, IsPlan};
ghost use Rattle.scr_plan.specs.FinalEntry.{final_entry};
ghost use Rattle.scr_wire.specs.declared.message.Message.{Message};
ghost use Rattle.scr_wire.specs.declared.message.MessageKind.TheVariants as kinds;
ghost use Rattle.scr_wire.specs.Spelling.{Spells, kind_of, number_of};
ghost use Rattle.scr_wire.specs.Lane.{decided};
ghost use Rattle.scr_lane.specs.Messages.{SpellsMessage, route};
ghost use Rattle.scr_replica.specs.Heard.{told_row, decided_with, HasHeard};

use scr_base::Row;
use scr_wire::{MessageKind, Packet, decode};
use std::mem;

/// The messages of a lane, as far as a replica took them: the last one, and what all of them decide.
#[derive(Drop)]
pub(crate) struct Heard {
    packet: Option<Packet>,
    // The number up to which they decide, and the greatest number among them.
    decided: u32,
    taken: u32,
    // The end was among them.
    whole: bool,
}

// What the message is that a packet spells, and its number.
#[inline]
fn said_by(packet: &Packet) -> (MessageKind, u32)
    requires { (message : Message) × Spells message packet.now }
    ensures { (message : Message) → Spells message packet.now → (result.0 ≡ kind_of message) × (result.1 ≡ number_of message) }
{
    match decode(packet.bytes()) {
        Ok(view) => (view.kind(), view.number()),
        Err(_) => unreachable!(),
    }
}

// The row of packet p in the message that a packet spells, where it is there.
#[inline]
fn row_in(packet: &Packet, p: u32) -> Option<Row>
    ensures { (message : Message) → Spells message packet.now → result ≡ told_row message p }
{
    let Ok(view) = decode(packet.bytes()) else {
        return None;
    };
    let before = view.number().saturating_sub(u32::from(view.count()));
    if p <= before {
        return None;
    }
    let place = p - before - 1;
    if place < u32::from(view.count()) {
        Some(view.row(place as u16))
    } else {
        None
    }
}

// Whether it is an end.
#[inline(always)]
fn is_end(kind: MessageKind) -> bool
    ensures end { result ≡ true → kind ≡ kinds.End }
    ensures other { result ≡ false → kind ≢ kinds.End }
{
    match kind {
        MessageKind::Frame | MessageKind::Beacon => false,
        MessageKind::End => true,
    }
}

// The number up to which messages decide, with one more of this kind and number.
#[inline]
fn decided_by(heard: &Heard, kind: MessageKind, number: u32, history: u32) -> u32
    ensures { (message : Message) → kind ≡ kind_of message → number ≡ number_of message → result ≡ decided_with history heard.now.decided heard.now.taken message }
{
    match kind {
        MessageKind::Frame => {
            if heard.taken < number {
                number
            } else {
                heard.decided
            }
        }
        MessageKind::Beacon => {
            let past = number.saturating_sub(history);
            if heard.decided < past {
                past
            } else {
                heard.decided
            }
        }
        MessageKind::End => number,
    }
}

impl Heard {
    /// No message yet.
    pub(crate) fn nothing() -> Heard
        ensures { (plan : Plan) (core : ℕ) → HasHeard plan core 0 result }
    {
        Heard {
            packet: None,
            decided: 0,
            taken: 0,
            whole: false,
        }
    }

    /// The number up to which the messages decide.
    #[inline(always)]
    pub(crate) fn decided(&self) -> u32
        ensures { result ≡ self.now.decided }
    {
        self.decided
    }

    /// Whether the whole lane was taken.
    #[inline(always)]
    pub(crate) fn is_whole(&self) -> bool
        ensures { result ≡ self.now.whole }
    {
        self.whole
    }

    /// Takes the next message of the lane, and hands back the packet of the one before.
    #[inline]
    pub(crate) fn take(&mut self, packet: Packet, history: u32) -> Option<Packet>
        requires { (message : Message) × Spells message packet }
        ensures { (plan : Plan) (core m : ℕ) → IsPlan plan → plan.history ≡ history → SpellsMessage (route plan core) m packet → HasHeard plan core m self.old → HasHeard plan core (m + 1) self.new }
    {
        let (kind, number) = said_by(&packet);
        self.decided = decided_by(self, kind, number, history);
        self.taken = self.taken.max(number);
        self.whole = is_end(kind);
        mem::replace(&mut self.packet, Some(packet))
    }

    /// The row of packet p by the message taken last, where it is the one that decides p.
    #[inline]
    pub(crate) fn entry(&self, p: u32) -> Option<Row>
        ensures { (plan : Plan) (core m : ℕ) → IsPlan plan → HasHeard plan core m self.now → decided plan core (m - 1) < p → p ≤ decided plan core m → result ≡ final_entry plan core p }
    {
        match &self.packet {
            Some(packet) => row_in(packet, p),
            None => None,
        }
    }
}
