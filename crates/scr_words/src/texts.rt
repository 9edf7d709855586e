ghost use Rattle.std.specs.Prelude.{◌≡◌};
ghost use Rattle.scr_words.specs.TextFaults.{drop_list_fault, repeat_list_fault, delay_list_fault, table_fault};
ghost use Rattle.scr_words.specs.WordTests.{Tells};

use crate::faults::TestError;
use crate::word_fault::WordCause;
use scr_plan::{DelayError, Delays, DropError, Drops};
use scr_tables::{Table, TableError};
use std::alloc::Global;

/// Tests a drop list.
pub(crate) fn test_drops(alloc: Global, text: &[u8]) -> Result<(), TestError>
    ensures { Tells (drop_list_fault text.now) result }
{
    match Drops::read(alloc, text) {
        Ok(_) => Ok(()),
        Err(DropError::Refused { cause, place }) => refused(WordCause::Drop { cause, place }),
        Err(DropError::OutOfMemory(want)) => Err(TestError::OutOfMemory(want)),
    }
}

/// Tests a list of repeats.
pub(crate) fn test_repeats(alloc: Global, text: &[u8]) -> Result<(), TestError>
    ensures { Tells (repeat_list_fault text.now) result }
{
    match Drops::read(alloc, text) {
        Ok(_) => Ok(()),
        Err(DropError::Refused { cause, place }) => refused(WordCause::Repeat { cause, place }),
        Err(DropError::OutOfMemory(want)) => Err(TestError::OutOfMemory(want)),
    }
}

/// Tests a list of delays.
pub(crate) fn test_delays(alloc: Global, text: &[u8]) -> Result<(), TestError>
    ensures { Tells (delay_list_fault text.now) result }
{
    match Delays::read(alloc, text) {
        Ok(_) => Ok(()),
        Err(DelayError::Refused { cause, place }) => refused(WordCause::Delay { cause, place }),
        Err(DelayError::OutOfMemory(want)) => Err(TestError::OutOfMemory(want)),
    }
}

/// Tests a table.
pub(crate) fn test_table(alloc: Global, text: &[u8]) -> Result<(), TestError>
    ensures { Tells (table_fault text.now) result }
{
    match Table::read(alloc, text) {
        Ok(_) => Ok(()),
        Err(TableError::Refused { cause, place }) => refused(WordCause::Table { cause, place }),
        Err(TableError::OutOfMemory(want)) => Err(TestError::OutOfMemory(want)),
    }
}

fn refused(cause: WordCause) -> Result<(), TestError>
    ensures { result ≡ Err (TestError.Refused cause) }
{
    Err(TestError::Refused(cause))
}
