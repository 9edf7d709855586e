ghost use Rattle.std.specs.Prelude.{◌≡◌, MatchResult, Some, None, nat_le, if◌then◌else◌};
ghost use Rattle.scr_base.specs.Numbers.{is_number, number_of};
ghost use Rattle.scr_tables.specs.Spelling.{SpellsRules, RulesRefused, rule_read, parts_read, is_pattern, pattern_of, fits, is_state, is_verdict, verdict_of, in_front, behind};

use crate::rule::{Decision, Pattern, Rule};
use scr_base::{NumberError, OutOfMemory, read_number};
use std::alloc::{AllocFailed, Global};

/// The greatest state.
const GREATEST_STATE: u64 = 15;

/// How many rules a table may have.
const MOST: usize = 256;

/// Why a table is refused. The first that holds is the answer.
#[derive(Clone, Copy, Debug, PartialEq, Eq)]
pub enum TableCause {
    /// The rule, or the whole text, is empty.
    Empty,
    /// The rule isn't of the form `state:pattern>next/verdict`.
    Form,
    /// One of its numbers is outside its range.
    Range,
    /// There are 256 rules before it.
    Rules,
    /// A state that is 0 or some rule's next state has no rule for any packet.
    NoAny,
}

/// Why there is no table.
#[derive(Clone, Copy, Debug, PartialEq, Eq)]
pub enum TableError {
    /// The first cause of the first rule that is refused, or else that some state has no rule for any packet.
    Refused {
        cause: TableCause,
        /// How many bytes stand before the rule; at `NoAny` the least such state.
        place: u64,
    },
    /// There was no memory for the table.
    OutOfMemory(OutOfMemory),
}

impl From<OutOfMemory> for TableError {
    ghost use Rattle.std.specs.Prelude.{◌≡◌};
    ghost use Rattle.scr_tables.specs.declared.reading.TableError.TheVariants.{OutOfMemory};

    ghost from_gives = { λ want error. error ≡ OutOfMemory want };

    fn from(want: OutOfMemory) -> Self {
        TableError::OutOfMemory(want)
    }
}

impl From<AllocFailed<Rule>> for TableError {
    ghost use Rattle.std.specs.Prelude.{◌≡◌};
    ghost use Rattle.scr_base.specs.declared.out_of_memory.OutOfMemory as base;
    ghost use Rattle.scr_tables.specs.declared.reading.TableError.TheVariants as error;

    ghost from_gives = { λ _ made. (want : base.OutOfMemory) × (made ≡ error.OutOfMemory want) };

    fn from(failed: AllocFailed<Rule>) -> Self {
        TableError::OutOfMemory(failed.into())
    }
}

/// The rules that a text spells, as `Table::read` says, but that the last cause isn't looked for.
pub(crate) fn read_rules(alloc: Global, text: &[u8]) -> Result<Vec<Rule>, TableError>
    ensures { MatchResult result (λ rules. SpellsRules text.now rules.items) (λ error. RulesRefused text.now error) }
{
    let mut rules = Vec::new(alloc);
    let mut place = 0;
    for piece in text.split(|byte| *byte == b',') {
        match read_rule(piece, rules.len()) {
            Ok(rule) => rules.push(rule)?,
            Err(cause) => return Err(TableError::Refused { cause, place }),
        }
        place += piece.len() as u64 + 1;
    }
    Ok(rules)
}

// The rule that a text spells behind so many others.
fn read_rule(text: &[u8], before: usize) -> Result<Rule, TableCause>
    ensures { result ≡ rule_read before text.now }
{
    if text.is_empty() {
        return Err(TableCause::Empty);
    }
    let (state, rest) = cut(text, b':');
    let (pattern, rest) = cut(rest, b'>');
    let (next, verdict) = cut(rest, b'/');
    read_parts(state, pattern, next, verdict, before)
}

// That a part hasn't its form comes before that a number is outside its range.
fn read_parts(
    state: &[u8],
    pattern: &[u8],
    next: &[u8],
    verdict: &[u8],
    before: usize,
) -> Result<Rule, TableCause>
    ensures { result ≡ parts_read before (record { state = state.now; pattern = pattern.now; next = next.now; verdict = verdict.now }) }
{
    let state = state_in(state)?;
    let pattern = pattern_in(pattern)?;
    let next = state_in(next)?;
    let verdict = verdict_in(verdict)?;
    let (Some(state), Some(pattern), Some(next)) = (state, pattern, next) else {
        return Err(TableCause::Range);
    };
    if before >= MOST {
        return Err(TableCause::Rules);
    }
    Ok(Rule {
        state,
        pattern,
        next,
        verdict,
    })
}

// The state that a text names, or nothing where its number is too great.
fn state_in(text: &[u8]) -> Result<Option<u8>, TableCause>
    ensures { result ≡ (if is_number text.now then Ok (if is_state (number_of text.now) then Some (number_of text.now) else None) else Err TableCause.Form) }
{
    Ok(number_in(text, GREATEST_STATE)?.map(|number| number as u8))
}

// The pattern that a text names, or nothing where its number is too great.
fn pattern_in(text: &[u8]) -> Result<Option<Pattern>, TableCause>
    ensures { result ≡ (if is_pattern text.now then Ok (if fits (pattern_of text.now) then Some (pattern_of text.now) else None) else Err TableCause.Form) }
{
    let Some((mark, rest)) = text.split_first() else {
        return Err(TableCause::Form);
    };
    match *mark {
        b'd' => Ok(number_in(rest, 65535)?.map(|port| Pattern::Port(port as u16))),
        b'f' => Ok(number_in(rest, 255)?.map(|flags| Pattern::Flags(flags as u8))),
        b'*' if rest.is_empty() => Ok(Some(Pattern::Any)),
        b't' if rest.is_empty() => Ok(Some(Pattern::Tcp)),
        b'u' if rest.is_empty() => Ok(Some(Pattern::Udp)),
        _ => Err(TableCause::Form),
    }
}

// The verdict that a text names.
fn verdict_in(text: &[u8]) -> Result<Decision, TableCause>
    ensures { result ≡ (if is_verdict text.now then Ok (verdict_of text.now) else Err TableCause.Form) }
{
    match text {
        [b'P'] => Ok(Decision::Pass),
        [b'D'] => Ok(Decision::Drop),
        _ => Err(TableCause::Form),
    }
}

// The number that a text spells, or nothing where it is too great.
fn number_in(text: &[u8], greatest: u64) -> Result<Option<u64>, TableCause>
    ensures { result ≡ (if is_number text.now then Ok (if nat_le (number_of text.now) greatest then Some (number_of text.now) else None) else Err TableCause.Form) }
{
    match read_number(text, 0, greatest) {
        Ok(number) => Ok(Some(number)),
        Err(NumberError::Range) => Ok(None),
        Err(NumberError::Digit) => Err(TableCause::Form),
    }
}

// What stands in front of the first of these bytes, or all where there is none; what stands behind it, or nothing.
fn cut(text: &[u8], mark: u8) -> (&[u8], &[u8])
    ensures front { result.0.now ≡ in_front mark text.now }
    ensures back { result.1.now ≡ behind mark text.now }
{
    match text.iter().position(|byte| *byte == mark) {
        Some(at) => (&text[..at], &text[at + 1..]),
        None => (text, &[]),
    }
}
