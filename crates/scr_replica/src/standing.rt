use scr_base::OutOfMemory;

/// How a replica stands.
#[derive(Clone, Copy, Debug, PartialEq, Eq)]
pub enum Standing {
    /// It goes on.
    Running,
    /// It took its whole lane and finished all packets.
    Ended,
    /// It has seen the halt word set.
    Halted,
    /// It had no memory.
    OutOfMemory(OutOfMemory),
}
