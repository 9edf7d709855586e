ghost use Rattle.std.specs.Prelude.{◌≡◌, ℕ, List, IfOk};

use crate::out_of_memory::OutOfMemory;
use std::alloc::Global;
use std::marker::Model;

/// A word of the command line: a list of bytes, which need not be text.
#[derive(Debug, Drop)]
pub struct Word {
    bytes: Vec<u8>,
}

impl Model for Word {
    ghost Value = { List ℕ };

    ghost view = { λ word. word.bytes.items };
}

impl Word {
    /// The word with these bytes.
    pub fn of(alloc: Global, bytes: &[u8]) -> Result<Self, OutOfMemory>
        ensures { IfOk result (λ word. word ≡ bytes.now) }
    {
        let bytes = Vec::from_slice(alloc, bytes)?;
        Ok(Word { bytes })
    }

    /// Its bytes.
    pub fn bytes(&self) -> &[u8]
        ensures { result.now ≡ self.now }
    {
        &self.bytes
    }
}
