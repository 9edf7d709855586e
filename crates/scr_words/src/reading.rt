ghost use Rattle.std.specs.Prelude.{◌≡◌, ◌<◌, length, IfOk, IfErr};
ghost use Rattle.scr_words.specs.GivenSettings.{AreAccepted};
ghost use Rattle.scr_words.specs.WordTests.{AreRefusedBy};

use crate::choosing::{Tested, settings};
use crate::faults::test_operands;
use crate::settings::{Command, RunSettings};
use crate::word_fault::{WordCause, WordFault};
use scr_base::{OutOfMemory, Word};
use std::alloc::Global;

/// Why there are no settings.
#[derive(Clone, Copy, Debug, PartialEq, Eq)]
pub enum WordsError {
    /// The first word that is refused, with its first cause.
    Refused(WordFault),
    /// There was no memory for a list of the link or the table.
    OutOfMemory(OutOfMemory),
}

impl From<OutOfMemory> for WordsError {
    ghost use Rattle.std.specs.Prelude.{◌≡◌};
    ghost use Rattle.scr_words.specs.declared.reading.WordsError.TheVariants as error;

    ghost from_gives = { λ want made. made ≡ error.OutOfMemory want };

    fn from(want: OutOfMemory) -> Self {
        WordsError::OutOfMemory(want)
    }
}

/// The settings that the words of a command line choose: the first word is the command, and each further one an operand
/// `name=value`, in any order and each name at most once. What they leave out has its default.
pub fn read_words(alloc: Global, words: &[Word]) -> Result<RunSettings, WordsError>
    requires { length words.now < 4294967295 }
    ensures accepted { IfOk result (AreAccepted words.now) }
    ensures refused { IfErr result (AreRefusedBy words.now) }
{
    let Some((first, operands)) = words.split_first() else {
        return Err(refused(1, WordCause::NoCommand));
    };
    let Some(command) = Command::named(first.bytes()) else {
        return Err(refused(1, WordCause::Command));
    };
    test_operands(alloc, command, operands)?;
    let tested = Tested { command, operands };
    settings(alloc, tested)?.ok_or(refused(words.len() as u32 + 1, WordCause::Missing))
}

fn refused(word: u32, cause: WordCause) -> WordsError
    ensures { result ≡ WordsError.Refused (record { word = word; cause = cause }) }
{
    WordsError::Refused(WordFault { word, cause })
}
