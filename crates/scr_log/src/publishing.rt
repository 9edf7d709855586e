ghost use Rattle.std.specs.Prelude.{◌≡◌, None, MatchOption};
ghost use Rattle.scr_base.specs.declared.row.Row.{Row};
ghost use Rattle.scr_plan.specs.FinalEntry.{final_entry};
ghost use Rattle.scr_log.specs.Entries.{tag_of};
ghost use Rattle.scr_log.specs.Passes.{IsNext, IsCurrent, IsFreeFor};
ghost use Rattle.scr_log.specs.Seats.{IsTagPlace, MayPublish};
ghost use Rattle.scr_log.specs.Answers.{RoomTells, HasLoaded, published_by};

use crate::logs::Logs;
use crate::pass::CorePass;
use crate::room::Room;
use crate::rule::{Finishes, Place, Publishes, StoresData};
use scr_base::Row;

impl Logs {
    // Stores the words of the row of p behind its tag.
    fn store_row(&self, seat: &mut Place, core: u32, p: u32, at: usize, row: &Row)
        requires may { MayPublish self.now seat.old.table_id seat.old.me core p }
        requires nothing_stored { seat.old.me.0.stored ≡ 0 }
        requires entry { final_entry self.now.plan core p ≡ Some row.now }
        requires place { IsTagPlace self.now core p at }
        ensures table { seat.new.table_id ≡ seat.old.table_id }
        ensures me { seat.new.me ≡ (record seat.old.me.0 { stored = 7 }, seat.old.me.1) }
    {
        let words = [row.w0, row.w1, row.w2, row.w3, row.w4, row.w5, row.w6];
        for (i, word) in words.iter().enumerate() {
            self.table
                .shared
                .store::<StoresData>(seat, at + 1 + i, *word);
        }
    }

    // Stores the tag of p.
    fn store_tag(&self, seat: &mut Place, core: u32, p: u32, at: usize, tag: u64)
        requires may { MayPublish self.now seat.old.table_id seat.old.me core p }
        requires whole { (row : Row) → final_entry self.now.plan core p ≡ Some row → seat.old.me.0.stored ≡ 7 }
        requires tag { tag ≡ tag_of (final_entry self.now.plan core p) p }
        requires place { IsTagPlace self.now core p at }
        ensures table { seat.new.table_id ≡ seat.old.table_id }
        ensures me { seat.new.me ≡ (record seat.old.me.0 { published = p; stored = 0 }, seat.old.me.1) }
    {
        self.table.shared.store::<Publishes>(seat, at, tag);
    }

    /// Publishes a row as the pass's final entry for packet p.
    pub fn publish_row(&self, pass: &mut CorePass, p: u32, row: &Row)
        requires next { IsNext self.now pass.old p }
        requires room { IsFreeFor pass.old p }
        requires entry { final_entry self.now.plan pass.old.core p ≡ Some row.now }
        ensures { pass.new ≡ record pass.old { published = p } }
    {
        let at = self.tag_place(pass.core, p);
        self.store_row(&mut pass.seat, pass.core, p, at, row);
        self.store_tag(&mut pass.seat, pass.core, p, at, 4 * u64::from(p) + 1);
        pass.published = p;
    }

    /// Publishes that packet p is lost to the core, which is its final entry.
    pub fn publish_lost(&self, pass: &mut CorePass, p: u32)
        requires next { IsNext self.now pass.old p }
        requires room { IsFreeFor pass.old p }
        requires entry { final_entry self.now.plan pass.old.core p ≡ None }
        ensures { pass.new ≡ record pass.old { published = p } }
    {
        let at = self.tag_place(pass.core, p);
        self.store_tag(&mut pass.seat, pass.core, p, at, 4 * u64::from(p) + 2);
        pass.published = p;
    }

    /// The publishing step: publishes the final entry for packet p, a row or that it is lost, where the slot is free. Else
    /// it tells a core that has finished too little.
    pub fn publish(&self, pass: &mut CorePass, p: u32, entry: Option<&Row>) -> Room
        requires next { IsNext self.now pass.old p }
        requires entry { MatchOption entry (final_entry self.now.plan pass.old.core p ≡ None) (λ row. final_entry self.now.plan pass.old.core p ≡ Some row.now) }
        ensures answer { RoomTells pass.old pass.new p result }
        ensures published { HasLoaded (published_by pass.old p result) pass.new }
    {
        let room = self.room(pass, p);
        if room == Room::Free {
            match entry {
                Some(row) => self.publish_row(pass, p, row),
                None => self.publish_lost(pass, p),
            }
        }
        room
    }

    /// Tells that the core has finished packet p.
    pub fn finish(&self, pass: &mut CorePass, p: u32)
        requires { IsCurrent self.now pass.old p }
        ensures { pass.new ≡ record pass.old { finished = p } }
    {
        let at = self.finished_place(pass.core);
        self.table
            .shared
            .store::<Finishes>(&mut pass.seat, at, u64::from(p));
    }
}
