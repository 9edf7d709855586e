ghost use Rattle.std.specs.Prelude.{◌≡◌, ◌≢◌, ◌<◌, ℕ};
ghost use Rattle.scr_base.specs.declared.row.Row as rows;
ghost use Rattle.scr_plan.specs.FinalEntry.{final_entry};
ghost use Rattle.scr_log.specs.Entries.{row_word};
ghost use Rattle.scr_log.specs.Passes.{IsCurrent, looked};
ghost use Rattle.scr_log.specs.Seats.{IsTagPlace, IsReading};
ghost use Rattle.scr_log.specs.Answers.{LookTells};
ghost use Rattle.scr_log.specs.declared.view.Noted.TheVariants.{Tag};

use crate::logs::Logs;
use crate::pass::CorePass;
use crate::rule::{Place, ReadsData, ReadsLastData, ReadsTag};
use scr_base::Row;

/// What the log of a core says of a packet.
#[derive(Clone, Copy, Debug, PartialEq, Eq)]
pub enum Look {
    /// The row of the packet.
    Row(Row),
    /// The core's own frames don't carry the packet.
    Lost,
    /// The core hasn't published the packet yet. The tag is that of an earlier one, or 0.
    NotYet { tag: u64 },
}

impl Logs {
    // Loads word i of the row of p that was found behind its tag.
    fn read_word(&self, seat: &mut Place, core: u32, p: u32, at: usize, i: usize) -> u64
        requires reading { IsReading self.now seat.old.table_id seat.old.me core p }
        requires place { IsTagPlace self.now core p at }
        requires word { i < 7 }
        ensures reading { IsReading self.now seat.new.table_id seat.new.me core p }
        ensures table { seat.new.table_id ≡ seat.old.table_id }
        ensures me { seat.new.me ≡ seat.old.me }
        ensures word { (row : rows.Row) → final_entry self.now.plan core p ≡ Some row → result ≡ row_word row i }
    {
        self.table.shared.load::<ReadsData>(seat, at + 1 + i)
    }

    // Loads the last word of that row.
    fn read_last_word(&self, seat: &mut Place, core: u32, p: u32, at: usize) -> u64
        requires reading { IsReading self.now seat.old.table_id seat.old.me core p }
        requires place { IsTagPlace self.now core p at }
        ensures table { seat.new.table_id ≡ seat.old.table_id }
        ensures me { seat.new.me ≡ (record seat.old.me.0 { found = None }, seat.old.me.1) }
        ensures word { (row : rows.Row) → final_entry self.now.plan core p ≡ Some row → result ≡ row_word row 6 }
    {
        self.table.shared.load::<ReadsLastData>(seat, at + 7)
    }

    // Loads the row of p that was found.
    fn read_row(&self, seat: &mut Place, core: u32, p: u32, at: usize) -> Row
        requires reading { IsReading self.now seat.old.table_id seat.old.me core p }
        requires place { IsTagPlace self.now core p at }
        ensures table { seat.new.table_id ≡ seat.old.table_id }
        ensures me { seat.new.me ≡ (record seat.old.me.0 { found = None }, seat.old.me.1) }
        ensures row { final_entry self.now.plan core p ≡ Some result }
    {
        let w0 = self.read_word(seat, core, p, at, 0);
        let w1 = self.read_word(seat, core, p, at, 1);
        let w2 = self.read_word(seat, core, p, at, 2);
        let w3 = self.read_word(seat, core, p, at, 3);
        let w4 = self.read_word(seat, core, p, at, 4);
        let w5 = self.read_word(seat, core, p, at, 5);
        let w6 = self.read_last_word(seat, core, p, at);
        Row {
            w0,
            w1,
            w2,
            w3,
            w4,
            w5,
            w6,
        }
    }

    /// What another core's log says of packet p, which the pass has published and not finished.
    pub fn look(&self, pass: &mut CorePass, core: u32, p: u32) -> Look
        requires core { core < self.now.plan.cores }
        requires other { core ≢ pass.old.core }
        requires current { IsCurrent self.now pass.old p }
        ensures { (tag : ℕ) × (pass.new ≡ looked pass.old (Tag core p tag)) × LookTells self.now.plan core p tag result }
    {
        let at = self.tag_place(core, p);
        let tag = self.table.shared.load::<ReadsTag>(&mut pass.seat, at);
        let number = 4 * u64::from(p);
        if tag == number + 1 {
            Look::Row(self.read_row(&mut pass.seat, core, p, at))
        } else if tag == number + 2 {
            Look::Lost
        } else {
            Look::NotYet { tag }
        }
    }
}
