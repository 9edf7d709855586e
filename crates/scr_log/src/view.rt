// What the log rule knows of a pass. No value of these types is made: they are data of the proofs.
use scr_plan::RunPlan;
use std::collections::LinkedList;
use std::snapshot::Snapshot;

/// What the logs are about: the plan of the run, and how many slots the log of a core has.
#[derive(Drop)]
pub struct About {
    pub plan: Snapshot<RunPlan>,
    pub slots: u32,
}

/// One load of a word that others store, or a number that was drawn too late.
pub enum Noted {
    /// The tag of a packet in the log of a core.
    Tag { core: u64, number: u64, value: u64 },
    /// The finished word of a core.
    Finished { core: u64, value: u64 },
    /// The halt word.
    Halt { value: u64 },
    /// A number that is no core's.
    Drawn { number: u64 },
}

/// A row that was found in the log of a core, and isn't read to its end yet.
pub struct Found {
    pub core: u64,
    pub number: u64,
}

/// What one pass knows and has done.
pub struct PassView {
    pub plan: RunPlan,
    pub slots: u64,
    /// How many draws it may make or hand on.
    pub stock: u64,
    /// Its core, once it has drawn one.
    pub core: Option<u64>,
    /// Up to which number it has published, and finished.
    pub published: u64,
    pub finished: u64,
    /// How many words of the next row it has stored.
    pub stored: u64,
    /// Of each core the greatest finished number that it has loaded.
    pub noted: LinkedList<u64>,
    pub found: Option<Found>,
    pub looks: LinkedList<Noted>,
    /// How many times it has set the halt word.
    pub halts: u64,
}
