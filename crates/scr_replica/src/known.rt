ghost use Rattle.std.specs.Prelude.{◌≡◌, ◌-◌, ◌≤◌, ℕ, [], length, OnOk, IfOk};
ghost use Rattle.scr_plan.specs.Plan.{Plan};
ghost use Rattle.scr_wire.specs.Spelling.{number_of, rows_of};
ghost use Rattle.scr_replica.specs.Entries.{Knows, IsFrameTo, with_lost};

use crate::entry::Entry;
use scr_base::OutOfMemory;
use scr_wire::WireView;
use std::alloc::Global;
use std::marker::Model;

/// What a core knows of the packets from 1 on, as far as its messages decide.
#[derive(Debug, Drop)]
pub(crate) struct Known {
    entries: Vec<Entry>,
}

impl Model for Known {
    ghost use Rattle.std.specs.Prelude.{List};
    ghost use Rattle.scr_replica.specs.declared.entry.Entry.{Entry};

    ghost Value = { List Entry };

    ghost view = { λ known. known.entries.items };
}

impl Known {
    /// Nothing yet, with room for so many packets.
    pub(crate) fn new(alloc: Global, packets: usize) -> Result<Self, OutOfMemory>
        ensures { IfOk result (λ known. known ≡ []) }
    {
        let entries = Vec::with_capacity(alloc, packets)?;
        Ok(Known { entries })
    }

    /// The entries, from packet 1 on.
    pub(crate) fn entries(&self) -> &[Entry]
        ensures { result.now ≡ self.now }
    {
        &self.entries
    }

    /// All packets up to this number that aren't known are lost to the core.
    pub(crate) fn lose(&mut self, number: u32) -> Result<(), OutOfMemory>
        ensures { OnOk result (self.new ≡ with_lost number self.old) }
    {
        while self.entries.len() < number as usize {
            self.entries.push(Entry::Lost)?;
        }
        Ok(())
    }

    /// Takes the message of a frame: those of its rows that stand behind all that is known.
    pub(crate) fn take_frame(&mut self, frame: &WireView) -> Result<(), OutOfMemory>
        requires { length (rows_of frame.now) ≤ number_of frame.now }
        ensures { (plan : Plan) (core : ℕ) → IsFrameTo plan core frame.now → Knows plan core (number_of frame.now - 1) self.old → OnOk result (Knows plan core (number_of frame.now) self.new) }
    {
        let count = frame.count();
        let before = frame.number() - u32::from(count);
        self.lose(before)?;
        let known = self.entries.len() - before as usize;
        for i in known..usize::from(count) {
            let row = frame.row(i as u16);
            let entry = if i + 1 < usize::from(count) {
                Entry::Carried(row)
            } else {
                Entry::Delivered(row)
            };
            self.entries.push(entry)?;
        }
        Ok(())
    }
}
