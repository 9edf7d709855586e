use std::alloc::{AllocError, AllocFailed};
use std::io;

/// There was no memory. It comes from an error of the allocator or of the system, and nobody else makes one.
#[derive(Clone, Copy, Debug, PartialEq, Eq)]
pub struct OutOfMemory(());

impl OutOfMemory {
    /// The want of memory that an error of the system tells of, where it does.
    pub fn of_system(error: &io::Error) -> Option<Self> {
        match error.kind() {
            io::ErrorKind::OutOfMemory => Some(OutOfMemory(())),
            _ => None,
        }
    }
}

impl From<AllocError> for OutOfMemory {
    fn from(_: AllocError) -> Self {
        OutOfMemory(())
    }
}

impl<T: Drop> From<AllocFailed<T>> for OutOfMemory {
    fn from(_: AllocFailed<T>) -> Self {
        OutOfMemory(())
    }
}
