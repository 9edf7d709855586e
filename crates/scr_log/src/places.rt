// Where the words stand.
ghost use Rattle.std.specs.Prelude.{◌≡◌, ◌≤◌, ◌<◌, ◌+◌, ◌-◌};
ghost use Rattle.scr_log.specs.Layout.{core_size, place, tag_offset, finished_offset, claim_place, halt_place};

use crate::logs::Logs;

/// The words of a slot: a tag, and the seven of a row.
pub const SLOT: usize = 8;

/// The words of a core: its slots, and the finished word.
pub fn core_words(slots: u32) -> usize
    ensures { result ≡ core_size slots }
{
    SLOT * slots as usize + 1
}

impl Logs {
    // The tag of packet p in the log of a core. The seven words of the row stand behind it.
    pub(crate) fn tag_place(&self, core: u32, p: u32) -> usize
        requires core { core < self.now.plan.cores }
        requires number { 1 ≤ p }
        ensures place { result ≡ place self.now.slots core (tag_offset self.now.slots (p - 1)) }
        ensures within { result + 7 < self.now.table.words }
    {
        let first = core as usize * core_words(self.slots);
        first + SLOT * ((p - 1) % self.slots) as usize
    }

    pub(crate) fn finished_place(&self, core: u32) -> usize
        requires { core < self.now.plan.cores }
        ensures place { result ≡ place self.now.slots core (finished_offset self.now.slots) }
        ensures within { result < self.now.table.words }
    {
        core as usize * core_words(self.slots) + SLOT * self.slots as usize
    }

    pub(crate) fn claim_place(&self) -> usize
        ensures place { result ≡ claim_place self.now.plan.cores self.now.slots }
        ensures within { result < self.now.table.words }
    {
        self.cores as usize * core_words(self.slots)
    }

    pub(crate) fn halt_place(&self) -> usize
        ensures place { result ≡ halt_place self.now.plan.cores self.now.slots }
        ensures within { result < self.now.table.words }
    {
        self.cores as usize * core_words(self.slots) + 1
    }
}
