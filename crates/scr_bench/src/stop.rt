use scr_base::OutOfMemory;

/// Why nothing was measured.
#[derive(Clone, Copy, Debug)]
pub enum Stop {
    OutOfMemory(OutOfMemory),
    /// A thread had no memory for what it sends.
    GaveUp,
    /// A thread couldn't be started.
    NoThread,
}

impl From<OutOfMemory> for Stop {
    fn from(error: OutOfMemory) -> Self {
        Stop::OutOfMemory(error)
    }
}
