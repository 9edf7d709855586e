ghost use Rattle.std.specs.Prelude.{◌≡◌, ◌≤◌, length, OnOk, IfOk};
ghost use Rattle.scr_wire.specs.Spelling.{number_of, rows_of};
ghost use Rattle.scr_replica.specs.Told.{untold, Tells};

use crate::entry::Entry;
use crate::known::Known;
use scr_base::OutOfMemory;
use scr_wire::{MessageKind, WireView};
use std::alloc::Global;
use std::marker::Model;

/// A core, as far as it took the messages of its lane.
#[derive(Debug, Drop)]
pub(crate) struct Listener {
    known: Known,
    // The greatest number that it took.
    taken: u32,
}

impl Model for Listener {
    ghost use Rattle.scr_replica.specs.Told.{Told};

    ghost Value = { Told };

    ghost view = { λ it. record { known = it.known; taken = it.taken } };
}

impl Listener {
    /// A core that took nothing, with room for so many packets.
    pub(crate) fn new(alloc: Global, packets: usize) -> Result<Self, OutOfMemory>
        ensures { IfOk result (λ it. it ≡ untold) }
    {
        let known = Known::new(alloc, packets)?;
        Ok(Listener { known, taken: 0 })
    }

    /// What it knows of the packets, from packet 1 on.
    pub(crate) fn entries(&self) -> &[Entry]
        ensures { result.now ≡ self.now.known }
    {
        self.known.entries()
    }

    /// Takes the next message of its lane. A frame whose number isn't above every number that it took is passed over.
    pub(crate) fn take(&mut self, message: &WireView, history: u32) -> Result<(), OutOfMemory>
        requires { length (rows_of message.now) ≤ number_of message.now }
        ensures { OnOk result (Tells history message.now self.old self.new) }
    {
        let number = message.number();
        match message.kind() {
            MessageKind::Frame if number <= self.taken => return Ok(()),
            MessageKind::Frame => self.known.take_frame(message)?,
            MessageKind::Beacon => self.known.lose(number.saturating_sub(history))?,
            MessageKind::End => self.known.lose(number)?,
        }
        self.taken = self.taken.max(number);
        Ok(())
    }
}
