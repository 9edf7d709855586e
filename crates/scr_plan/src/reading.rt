ghost use Rattle.std.specs.Prelude.{◌≡◌, ◌-◌, ◌^◌, ◌<◌, ◌≤◌, min, false, length, MatchResult, MatchOption, Some, None, if◌then◌else◌};
ghost use Rattle.scr_base.specs.Numbers.{is_number, number_of};
ghost use Rattle.scr_plan.specs.Drops.{IsDropList};
ghost use Rattle.scr_plan.specs.Spelling.{SpellsRanges, RefusedBy, piece_read, numbers_read, texts_of, with_end, has_byte, in_front, behind, IsCut};

use crate::drops::DropRange;
use scr_base::{NumberError, OutOfMemory, read_number};
use std::alloc::{AllocFailed, Global};

/// The greatest number that a range may name.
pub const GREATEST: u64 = 1_000_000_000;

/// How many ranges a list may have.
pub const MOST: usize = 256;

/// Why a piece of a drop list is refused. The first that holds is the answer.
#[derive(Clone, Copy, Debug, PartialEq, Eq)]
pub enum DropCause {
    /// There is nothing between two commas, or between a comma and an end.
    Empty,
    /// It is neither `a` nor `a-b` nor `a-b/s`.
    Digit,
    /// One of its numbers is 0.
    Zero,
    /// One of its numbers is above 1,000,000,000.
    TooLarge,
    /// The first number is above the last.
    Range,
    /// There are 256 pieces before it.
    Pieces,
}

/// Why there is no drop list.
#[derive(Clone, Copy, Debug, PartialEq, Eq)]
pub enum DropError {
    /// The first piece that is refused, with its first cause.
    Refused {
        cause: DropCause,
        /// How many bytes stand before the piece.
        place: u64,
    },
    /// There was no memory for the list.
    OutOfMemory(OutOfMemory),
}

impl From<AllocFailed<DropRange>> for DropError {
    ghost use Rattle.std.specs.Prelude.{◌≡◌};
    ghost use Rattle.scr_base.specs.declared.out_of_memory.OutOfMemory as base;
    ghost use Rattle.scr_plan.specs.declared.reading.DropError.TheVariants as error;

    ghost from_gives = { λ _ made. (want : base.OutOfMemory) × (made ≡ error.OutOfMemory want) };

    fn from(failed: AllocFailed<DropRange>) -> Self {
        DropError::OutOfMemory(failed.into())
    }
}

/// The ranges that a text spells, as `Drops::read` says.
pub fn read_ranges(alloc: Global, text: &[u8]) -> Result<Vec<DropRange>, DropError>
    ensures { MatchResult result (λ ranges. SpellsRanges text.now ranges.items) (λ error. RefusedBy text.now error) }
{
    let mut ranges = Vec::new(alloc);
    if text.is_empty() {
        return Ok(ranges);
    }
    let mut place = 0;
    for piece in text.split(|byte| *byte == b',') {
        match read_piece(piece, ranges.len()) {
            Ok(range) => ranges.push(range)?,
            Err(cause) => return Err(DropError::Refused { cause, place }),
        }
        place += piece.len() as u64 + 1;
    }
    Ok(ranges)
}

// The range that a piece spells behind so many others.
fn read_piece(piece: &[u8], before: usize) -> Result<DropRange, DropCause>
    ensures { result ≡ piece_read before piece.now }
{
    if piece.is_empty() {
        return Err(DropCause::Empty);
    }
    match split_once(piece, b'-') {
        None => read_texts(piece, piece, b"1", before),
        Some((first, end)) => match split_once(end, b'/') {
            None => read_texts(first, end, b"1", before),
            Some((last, step)) => read_texts(first, last, step, before),
        },
    }
}

// What stands in front of the first of these bytes, and what stands behind it.
pub fn split_once(text: &[u8], mark: u8) -> Option<(&[u8], &[u8])>
    ensures { MatchOption result (has_byte mark text.now ≡ false) (λ parts. IsCut mark text.now parts.0.now parts.1.now) }
{
    let at = text.iter().position(|byte| *byte == mark)?;
    Some((&text[..at], &text[at + 1..]))
}

// The range that the three numbers name.
fn read_texts(first: &[u8], last: &[u8], step: &[u8], before: usize) -> Result<DropRange, DropCause>
    ensures { result ≡ numbers_read before (record { first = first.now; last = last.now; step = step.now }) }
{
    let (first, last, step) = (number(first)?, number(last)?, number(step)?);
    if first == 0 || last == 0 || step == 0 {
        return Err(DropCause::Zero);
    }
    if first > GREATEST || last > GREATEST || step > GREATEST {
        return Err(DropCause::TooLarge);
    }
    if first > last {
        return Err(DropCause::Range);
    }
    if before >= MOST {
        return Err(DropCause::Pieces);
    }
    Ok(DropRange {
        first: first as u32,
        last: last as u32,
        step: step as u32,
    })
}

// The number that a text spells. One that needs more than 64 bits counts as the greatest of them.
fn number(text: &[u8]) -> Result<u64, DropCause>
    ensures { result ≡ (if is_number text.now then Ok (min (number_of text.now) (2 ^ 64 - 1)) else Err DropCause.Digit) }
{
    match read_number(text, 0, u64::MAX) {
        Ok(number) => Ok(number),
        Err(NumberError::Range) => Ok(u64::MAX),
        Err(NumberError::Digit) => Err(DropCause::Digit),
    }
}
