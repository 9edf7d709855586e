ghost use Rattle.std.specs.Prelude.{◌≡◌, MatchOption, false, option_copied};
ghost use Rattle.scr_plan.specs.Spelling.{IsCut};
ghost use Rattle.scr_words.specs.WordParts.{has_equals, is_named, given, program_in, first_in, second_in, chosen};

use crate::operand::Operand;
use crate::program_name::{Choice, FIRSTS, ONES, OneName, ProgramName};
use crate::settings::Command;
use scr_base::Word;

/// The name and the value of a word: what stands in front of its first `=`, and what behind it.
pub(crate) fn parts_of(word: &[u8]) -> Option<(&[u8], &[u8])>
    ensures { MatchOption result (has_equals word.now ≡ false) (λ parts. IsCut 61 word.now parts.0.now parts.1.now) }
{
    let at = word.iter().position(|byte| *byte == b'=')?;
    Some((&word[..at], &word[at + 1..]))
}

/// Whether a word has this name.
pub(crate) fn is_named(name: &[u8], word: &[u8]) -> bool
    ensures { result ≡ is_named name.now word.now }
{
    match parts_of(word) {
        Some((found, _)) => found == name,
        None => false,
    }
}

/// The value of the first word that has this name.
#[tactic(auto, unfolding(crate::specs::WordParts::given))]
pub(crate) fn given<'a>(name: &[u8], words: &'a [Word]) -> Option<&'a [u8]>
    ensures { option_copied result ≡ given name.now words.now }
{
    let word = words.iter().find(|word| is_named(name, word.bytes()))?;
    let (_, value) = parts_of(word.bytes())?;
    Some(value)
}

/// What the words choose to run, beside a command.
pub(crate) fn chosen(command: Command, words: &[Word]) -> Choice
    ensures { result ≡ chosen command words.now }
{
    Choice {
        program: program_in(command, words),
        first: first_in(words),
        second: second_in(words),
    }
}

fn program_in(command: Command, words: &[Word]) -> Option<ProgramName>
    ensures { result ≡ program_in command words.now }
{
    ProgramName::named(command, given(Operand::Program.line().name, words)?)
}

fn first_in(words: &[Word]) -> Option<OneName>
    ensures { result ≡ first_in words.now }
{
    OneName::named(&FIRSTS, given(Operand::First.line().name, words)?)
}

fn second_in(words: &[Word]) -> Option<OneName>
    ensures { result ≡ second_in words.now }
{
    OneName::named(&ONES, given(Operand::Second.line().name, words)?)
}
