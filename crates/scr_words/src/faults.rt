ghost use Rattle.std.specs.Prelude.{◌≡◌, ◌<◌, length, OnOk, IfErr};
ghost use Rattle.scr_words.specs.Operands.{IsOrdered};
ghost use Rattle.scr_words.specs.WordFaults.{name_fault, value_fault, same_fault, given_fault, operand_fault, AreFaultless};
ghost use Rattle.scr_words.specs.WordTests.{Tells, IsFirstFaultBy};

use crate::operand::{Form, Operand};
use crate::parts::{chosen, given, is_named, parts_of};
use crate::program_name::{Choice, FIRSTS, ONES, OneName, ProgramName};
use crate::reading::WordsError;
use crate::settings::Command;
use crate::texts::{test_delays, test_drops, test_repeats, test_table};
use crate::word_fault::{WordCause, WordFault};
use scr_base::{OutOfMemory, Word};
use scr_knock::KnockSettings;
use scr_program::{SettingError, read_setting};
use std::alloc::Global;

/// Why the test of a word didn't pass.
#[derive(Clone, Copy)]
pub(crate) enum TestError {
    /// The word is refused.
    Refused(WordCause),
    /// There was no memory for the test.
    OutOfMemory(OutOfMemory),
}

impl From<SettingError> for TestError {
    ghost use Rattle.std.specs.Prelude.{◌≡◌};
    ghost use Rattle.scr_words.specs.WordFaults.{setting_cause};
    ghost use Rattle.scr_words.specs.declared.faults.TestError.TheVariants.{Refused};

    ghost from_gives = { λ error made. made ≡ Refused (setting_cause error) };

    fn from(error: SettingError) -> Self {
        TestError::Refused(match error {
            SettingError::UnknownName => WordCause::UnknownName,
            SettingError::Value => WordCause::Value,
            SettingError::Range => WordCause::Range,
        })
    }
}

/// Tests the operands in order, up to the first that is refused.
pub(crate) fn test_operands(
    alloc: Global,
    command: Command,
    operands: &[Word],
) -> Result<(), WordsError>
    requires { length operands.now < 4294967294 }
    ensures ok { OnOk result (AreFaultless command operands.now) }
    ensures refused { IfErr result (IsFirstFaultBy command operands.now) }
{
    let choice = chosen(command, operands);
    for (place, word) in operands.iter().enumerate() {
        match test_operand(alloc, command, choice, &operands[..place], word.bytes()) {
            Ok(()) => {}
            Err(TestError::Refused(cause)) => {
                let word = place as u32 + 2;
                return Err(WordsError::Refused(WordFault { word, cause }));
            }
            Err(TestError::OutOfMemory(want)) => return Err(want.into()),
        }
    }
    Ok(())
}

// Tests a word behind those that passed.
fn test_operand(
    alloc: Global,
    command: Command,
    choice: Choice,
    before: &[Word],
    word: &[u8],
) -> Result<(), TestError>
    ensures { Tells (operand_fault command choice before.now word.now) result }
{
    let Some((name, value)) = parts_of(word) else {
        return Err(TestError::Refused(WordCause::NoEquals));
    };
    let Some(operand) = Operand::named(name) else {
        return Err(TestError::Refused(WordCause::UnknownName));
    };
    if !operand.line().taker.is_met(command, choice) {
        return Err(TestError::Refused(WordCause::NotHere));
    }
    // At most one word of each name has passed, so few stand before this one.
    if before.iter().any(|earlier| is_named(name, earlier.bytes())) {
        return Err(TestError::Refused(WordCause::Twice));
    }
    test_given(alloc, command, before, operand, value)
}

// Tests the value that an operand is given.
fn test_given(
    alloc: Global,
    command: Command,
    before: &[Word],
    operand: Operand,
    value: &[u8],
) -> Result<(), TestError>
    ensures { Tells (given_fault command before.now operand value.now) result }
{
    test_value(alloc, command, operand.line().form, value)?;
    test_other(before, operand, value)
}

// Tests that the programs of a chain differ, where the other one is named before.
fn test_other(before: &[Word], operand: Operand, value: &[u8]) -> Result<(), TestError>
    ensures { Tells (same_fault before.now operand value.now) result }
{
    let other = match operand {
        Operand::First => Operand::Second,
        Operand::Second => Operand::First,
        _ => return Ok(()),
    };
    match given(other.line().name, before) {
        Some(named) if value == named => Err(TestError::Refused(WordCause::Same)),
        _ => Ok(()),
    }
}

// Tests a value for its form and range.
fn test_value(alloc: Global, command: Command, form: Form, value: &[u8]) -> Result<(), TestError>
    requires { IsOrdered form }
    ensures { Tells (value_fault command form value.now) result }
{
    match form {
        Form::OneProgram => test_name(ProgramName::named(command, value).is_some()),
        Form::FirstProgram => test_name(OneName::named(&FIRSTS, value).is_some()),
        Form::SecondProgram => test_name(OneName::named(&ONES, value).is_some()),
        Form::Number { least, greatest } => {
            let _ = read_setting(value, least, greatest)?;
            Ok(())
        }
        Form::DropList => test_drops(alloc, value),
        Form::RepeatList => test_repeats(alloc, value),
        Form::DelayList => test_delays(alloc, value),
        Form::YesNo => {
            if value != b"yes".as_slice() && value != b"no".as_slice() {
                return Err(TestError::Refused(WordCause::Value));
            }
            Ok(())
        }
        Form::ThreePorts => {
            KnockSettings::new(1).set(b"ports", value)?;
            Ok(())
        }
        Form::TableText => test_table(alloc, value),
    }
}

fn test_name(is_name: bool) -> Result<(), TestError>
    ensures { Tells (name_fault is_name) result }
{
    if !is_name {
        return Err(TestError::Refused(WordCause::Program));
    }
    Ok(())
}
