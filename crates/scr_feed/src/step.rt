/// What a step of a feed did.
#[derive(Clone, Copy, Debug, PartialEq, Eq)]
pub enum Step {
    /// It took what the next step of the plan adds to the lanes, or the end.
    Taken,
    /// It sent a packet to the lane of this core.
    Sent { core: u32 },
    /// The lane of this core has no room for the packet whose turn it is.
    Full { core: u32 },
    /// All messages of all lanes were sent.
    Done,
}
