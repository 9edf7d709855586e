use scr_base::{OutOfMemory, Verdict};

/// What a replica waits for.
#[derive(Clone, Copy, Debug, PartialEq, Eq)]
pub enum Pending {
    /// The next message of its lane.
    Empty,
    /// What this core's log will say of the packet at hand. Its tag speaks of an earlier packet.
    NotYet { core: u32, tag: u64 },
    /// A slot of its log: this core has finished too little.
    NoRoom { core: u32, done: u64 },
}

/// What a turn of a replica did.
#[derive(Clone, Copy, Debug, PartialEq, Eq)]
pub enum Turn {
    /// It took a message, published a packet, saw that a core has lost the packet at hand, or finished it.
    Moved,
    /// It finished the packet of a frame that was delivered to it, with this verdict.
    Verdict { number: u32, verdict: Verdict },
    /// Nothing yet: another has to go on first.
    Waiting(Pending),
    /// It is at its end.
    Ended,
    /// The halt word was set.
    Halted,
    /// There was no memory.
    OutOfMemory(OutOfMemory),
}
