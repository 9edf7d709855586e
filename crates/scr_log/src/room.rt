ghost use Rattle.std.specs.Prelude.{◌≡◌, ◌<◌, ◌+◌, length};
ghost use Rattle.scr_log.specs.Passes.{noted_finished};
ghost use Rattle.scr_log.specs.Answers.{HasLoaded, RoomTells};

use crate::logs::Logs;
use crate::pass::CorePass;
use crate::rule::ReadsFinished;

/// Whether the slot of a packet may be used again.
#[derive(Clone, Copy, Debug, PartialEq, Eq)]
pub enum Room {
    Free,
    /// Another core has finished too little.
    NoRoom { core: u32, done: u64 },
}

impl Logs {
    // Loads the finished word of a core.
    fn load_finished(&self, pass: &mut CorePass, core: u32) -> u64
        requires of_these { pass.old.logs ≡ self.now }
        requires core { core < self.now.plan.cores }
        ensures noted { pass.new ≡ noted_finished pass.old core result }
        ensures each_core { length pass.old.noted ≡ self.now.plan.cores }
    {
        let at = self.finished_place(core);
        self.table.shared.load::<ReadsFinished>(&mut pass.seat, at)
    }

    /// Whether each other core has finished the packet whose slot p takes over.
    pub fn room(&self, pass: &mut CorePass, p: u32) -> Room
        requires of_these { pass.old.logs ≡ self.now }
        requires next { p ≡ pass.old.published + 1 }
        ensures answer { RoomTells pass.old pass.new p result }
        ensures loaded { HasLoaded pass.old pass.new }
    {
        let needed = u64::from(p.saturating_sub(self.slots));
        if needed <= pass.known {
            return Room::Free;
        }
        let own = pass.core;
        let mut known = u64::MAX;
        let mut behind = None;
        for core in 0..self.cores {
            if core != own {
                let done = self.load_finished(pass, core);
                known = known.min(done);
                if done < needed {
                    behind = Some((core, done));
                    break;
                }
            }
        }
        match behind {
            Some((core, done)) => Room::NoRoom { core, done },
            None => {
                pass.known = known;
                Room::Free
            }
        }
    }
}
