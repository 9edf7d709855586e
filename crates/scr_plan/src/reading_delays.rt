ghost use Rattle.std.specs.Prelude.{◌≡◌, ◌-◌, ◌^◌, ◌==◌, min, map, MatchResult, if◌then◌else◌};
ghost use Rattle.std.specs.List.{list_any};
ghost use Rattle.scr_base.specs.Numbers.{is_number, number_of};
ghost use Rattle.scr_plan.specs.DelaySpelling.{SpellsDelays, DelaysRefusedBy, delay_read, pair_read, delay_with};

use crate::delays::FrameDelay;
use crate::reading::{GREATEST, MOST, split_once};
use scr_base::{NumberError, OutOfMemory, read_number};
use std::alloc::{AllocFailed, Global};

/// The greatest delay.
const LONGEST: u64 = 1_000;

/// Why a piece of a list of delays is refused. The first that holds is the answer.
#[derive(Clone, Copy, Debug, PartialEq, Eq)]
pub enum DelayCause {
    /// There is nothing between two commas, or between a comma and an end.
    Empty,
    /// It isn't `n:d`.
    Digit,
    /// One of its numbers is 0.
    Zero,
    /// The frame is above 1,000,000,000, or the delay above 1,000.
    TooLarge,
    /// An earlier piece has the frame.
    Twice,
    /// There are 256 pieces before it.
    Pieces,
}

/// Why there is no list of delays.
#[derive(Clone, Copy, Debug, PartialEq, Eq)]
pub enum DelayError {
    /// The first piece that is refused, with its first cause.
    Refused {
        cause: DelayCause,
        /// How many bytes stand before the piece.
        place: u64,
    },
    /// There was no memory for the list.
    OutOfMemory(OutOfMemory),
}

impl From<AllocFailed<FrameDelay>> for DelayError {
    ghost use Rattle.std.specs.Prelude.{◌≡◌};
    ghost use Rattle.scr_base.specs.declared.out_of_memory.OutOfMemory as base;
    ghost use Rattle.scr_plan.specs.declared.reading_delays.DelayError.TheVariants as error;

    ghost from_gives = { λ _ made. (want : base.OutOfMemory) × (made ≡ error.OutOfMemory want) };

    fn from(failed: AllocFailed<FrameDelay>) -> Self {
        DelayError::OutOfMemory(failed.into())
    }
}

/// The delays that a text spells, as `Delays::read` says.
pub fn read_delays(alloc: Global, text: &[u8]) -> Result<Vec<FrameDelay>, DelayError>
    ensures { MatchResult result (λ delays. SpellsDelays text.now delays.items) (λ error. DelaysRefusedBy text.now error) }
{
    let mut delays = Vec::new(alloc);
    if text.is_empty() {
        return Ok(delays);
    }
    let mut place = 0;
    for piece in text.split(|byte| *byte == b',') {
        match read_delay(piece, &delays) {
            Ok(delay) => delays.push(delay)?,
            Err(cause) => return Err(DelayError::Refused { cause, place }),
        }
        place += piece.len() as u64 + 1;
    }
    Ok(delays)
}

// The delay that a piece spells behind others.
fn read_delay(piece: &[u8], before: &[FrameDelay]) -> Result<FrameDelay, DelayCause>
    ensures { result ≡ delay_read (map (λ it. it.frame) before.now) piece.now }
{
    if piece.is_empty() {
        return Err(DelayCause::Empty);
    }
    match split_once(piece, b':') {
        None => Err(DelayCause::Digit),
        Some((frame, steps)) => read_pair(frame, steps, before),
    }
}

// Whether one of the delays is that of this frame.
fn names(delays: &[FrameDelay], frame: u64) -> bool
    ensures { result ≡ list_any (λ it. it.frame == frame) delays.now }
{
    delays.iter().any(|delay| u64::from(delay.frame) == frame)
}

// The delay that two texts spell.
#[tactic(auto, using(crate::proofs::DelaysSpelled::with_capped))]
fn read_pair(frame: &[u8], steps: &[u8], before: &[FrameDelay]) -> Result<FrameDelay, DelayCause>
    ensures { result ≡ pair_read (map (λ it. it.frame) before.now) frame.now steps.now }
{
    let (frame, steps) = (number(frame)?, number(steps)?);
    delay_with(frame, steps, before)
}

// The delay of two numbers.
fn delay_with(frame: u64, steps: u64, before: &[FrameDelay]) -> Result<FrameDelay, DelayCause>
    ensures { result ≡ delay_with (map (λ it. it.frame) before.now) frame steps }
{
    if frame == 0 || steps == 0 {
        return Err(DelayCause::Zero);
    }
    if frame > GREATEST || steps > LONGEST {
        return Err(DelayCause::TooLarge);
    }
    if names(before, frame) {
        return Err(DelayCause::Twice);
    }
    if before.len() >= MOST {
        return Err(DelayCause::Pieces);
    }
    Ok(FrameDelay {
        frame: frame as u32,
        steps: steps as u32,
    })
}

// The number that a text spells. One that needs more than 64 bits counts as the greatest of them.
fn number(text: &[u8]) -> Result<u64, DelayCause>
    ensures { result ≡ (if is_number text.now then Ok (min (number_of text.now) (2 ^ 64 - 1)) else Err DelayCause.Digit) }
{
    match read_number(text, 0, u64::MAX) {
        Ok(number) => Ok(number),
        Err(NumberError::Range) => Ok(u64::MAX),
        Err(NumberError::Digit) => Err(DelayCause::Digit),
    }
}
