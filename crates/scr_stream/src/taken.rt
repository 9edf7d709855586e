ghost use Rattle.std.specs.Prelude.{◌≡◌, ◌≢◌, ◌≤◌, ◌<◌, ◌+◌, ◌*◌, ◌-◌, ◌++◌, ◌∷◌, [], ℕ, List, true, false, length, map, unwrap_or, None, Some, IfOk, IfErr, IfSome, OnOk, slice_get};
ghost use Rattle.std.specs.List.{list_any, range_with_len};
ghost use Rattle.std.specs.Io.KnownBytes.{IsAtEnd, prepend_known};
ghost use Rattle.scr_pcap.specs.Taken.{GivesAtMost};
ghost use Rattle.scr_plan.specs.Limits.{most_packets, longest_history};
ghost use Rattle.scr_wire.specs.Kinds.{most_rows};
ghost use Rattle.scr_wire.specs.Reading.{count_in};
ghost use Rattle.scr_wire.specs.Spelling.{number_of, rows_of};
ghost use Rattle.scr_stream.specs.Frames.{StreamFrame, frame_of, carried_row, last_number};
ghost use Rattle.scr_stream.specs.Tests.{rows_due, header_fault, entry_fault, differs, same_row, clash};
ghost use Rattle.scr_stream.specs.Reading.{Follows, no_row};
ghost use Rattle.scr_stream.specs.Taken.{StandsFor, IsFound, CountsReadFault, IsFrameHeader, TakesFrame, TakesEntry, longest_entry};

use crate::entry::Place;
use crate::error::StreamError;
use crate::filling::fill_behind;
use crate::format::{HEADER, ROW};
use scr_base::{OutOfMemory, Row, Source};
use scr_pcap::fill;
use scr_wire::{MessageKind, WireView, decode};
use std::alloc::Global;

/// The most bytes of an entry: a header, and the rows of a frame with the longest history.
pub(crate) const LONGEST: usize = HEADER + ROW * 65;

/// The row of a packet that no frame carries.
const NO_ROW: Row = Row {
    w0: 0,
    w1: 0,
    w2: 0,
    w3: 0,
    w4: 0,
    w5: 0,
    w6: 0,
};

// What the frames so far stand for: a row for each packet up to the last of them, and the numbers without a frame.
#[derive(Drop)]
pub(crate) struct Taken {
    pub(crate) rows: Vec<Row>,
    pub(crate) missing: Vec<u32>,
    pub(crate) frames: u32,
}

// Whether two rows are the same.
#[tactic(auto, unfolding(crate::specs::Tests::same_row))]
fn same_row(one: &Row, other: &Row) -> bool
    ensures { result ≡ same_row one.now other.now }
{
    one.w0 == other.w0
        && one.w1 == other.w1
        && one.w2 == other.w2
        && one.w3 == other.w3
        && one.w4 == other.w4
        && one.w5 == other.w5
        && one.w6 == other.w6
}

// The row of packet p in the message of a frame, where it carries the packet.
#[tactic(auto, unfolding(crate::specs::Frames::carried_row))]
fn carried_row(frame: &WireView<'_>, p: u32) -> Option<Row>
    requires near { p ≤ number_of frame.now }
    requires few { number_of frame.now ≤ most_packets }
    ensures { result ≡ carried_row (frame_of frame.now) p }
{
    let (number, count) = (frame.number(), u32::from(frame.count()));
    let after = p + count;
    if number < after {
        Some(frame.row((after - (number + 1)) as u16))
    } else {
        None
    }
}

// The same, and the row of zeros where it doesn't.
fn row_or_none(frame: &WireView<'_>, p: u32) -> Row
    requires near { p ≤ number_of frame.now }
    requires few { number_of frame.now ≤ most_packets }
    ensures { result ≡ unwrap_or (carried_row (frame_of frame.now) p) no_row }
{
    carried_row(frame, p).unwrap_or(NO_ROW)
}

impl Taken {
    // Nothing of no frames.
    pub(crate) fn new(alloc: Global) -> Self
        ensures rows { result.rows.items ≡ [] }
        ensures missing { result.missing.items ≡ [] }
        ensures frames { result.frames ≡ 0 }
    {
        Taken {
            rows: Vec::new(alloc),
            missing: Vec::new(alloc),
            frames: 0,
        }
    }

    // The number of the last frame.
    fn last(&self) -> u32
        requires { length self.now.rows.items ≤ most_packets }
        ensures { result ≡ length self.now.rows.items }
    {
        self.rows.len() as u32
    }

    // Takes the next entry: a frame, or the end, and answers whether it was a frame.
    pub(crate) fn take_entry<S: Source>(
        &mut self,
        history: u32,
        source: &mut S,
        buffer: &mut [u8],
    ) -> Result<bool, StreamError>
        requires short_history { history ≤ longest_history }
        requires room { 10 + 56 * most_rows ≤ length buffer.old }
        requires few { length self.old.rows.items ≤ most_packets }
        requires fewer { self.old.frames ≤ length self.old.rows.items }
        ensures taken { IfOk result (λ more. (frames : List StreamFrame)
            → StandsFor history frames self.old.rows.items self.old.missing.items self.old.frames
            → TakesEntry more history frames (S.left source.old) (S.left source.new) self.new.rows.items self.new.missing.items self.new.frames) }
        ensures refused { IfSome (S.left source.old) (λ bytes. IfErr result (λ error. IsFound error → (frames : List StreamFrame)
            → StandsFor history frames self.old.rows.items self.old.missing.items self.old.frames
            → entry_fault history frames bytes ≡ Some error)) }
        ensures few { GivesAtMost longest_entry (S.left source.old) (S.left source.new) }
        ensures counts { CountsReadFault S.faults source.old source.new result }
    {
        let place = Place {
            history,
            entry: self.frames + 1,
            last: self.last(),
        };
        let mut room = [0; HEADER];
        let count = fill(source, &mut room)?;
        let header = &room[..count];
        let fields = place.fields_of(header)?;
        match fields.kind {
            MessageKind::Frame => {
                self.take_frame(header, fields.count, source, buffer)?;
                Ok(true)
            }
            _ => {
                take_end(source)?;
                self.pass_to(fields.number)?;
                Ok(false)
            }
        }
    }

    // Takes the rows of a frame, whose header was taken before.
    fn take_frame<S: Source>(
        &mut self,
        header: &[u8],
        count: u16,
        source: &mut S,
        buffer: &mut [u8],
    ) -> Result<(), StreamError>
        requires header { IsFrameHeader (length self.old.rows.items) header.now }
        requires count { count ≡ count_in header.now }
        requires room { 10 + 56 * most_rows ≤ length buffer.old }
        requires fewer { self.old.frames ≤ length self.old.rows.items }
        ensures taken { OnOk result ((history : ℕ) (frames : List StreamFrame)
            → StandsFor history frames self.old.rows.items self.old.missing.items self.old.frames
            → header_fault history (length frames + 1) (last_number frames) header.now ≡ None
            → TakesFrame history frames (prepend_known header.now (S.left source.old)) (S.left source.new) self.new.rows.items self.new.missing.items self.new.frames) }
        ensures refused { IfSome (S.left source.old) (λ behind. IfErr result (λ error. IsFound error → (history : ℕ) (frames : List StreamFrame)
            → StandsFor history frames self.old.rows.items self.old.missing.items self.old.frames
            → header_fault history (length frames + 1) (last_number frames) header.now ≡ None
            → entry_fault history frames (header.now ++ behind) ≡ Some error)) }
        ensures few { GivesAtMost (56 * count) (S.left source.old) (S.left source.new) }
        ensures counts { CountsReadFault S.faults source.old source.new result }
    {
        let entry = self.frames + 1;
        let size = HEADER + ROW * usize::from(count);
        let filled = fill_behind(header, source, &mut buffer[..size])?;
        if filled < size {
            return Err(StreamError::Cut { entry });
        }
        match decode(&buffer[..size]) {
            Ok(frame) => self.add(&frame),
            Err(cause) => Err(StreamError::Message { entry, cause }),
        }
    }

    // Adds a frame, whose rows must not differ from those of earlier frames.
    fn add(&mut self, frame: &WireView<'_>) -> Result<(), StreamError>
        requires later { length self.old.rows.items < number_of frame.now }
        requires few { number_of frame.now ≤ most_packets }
        requires rows { length (rows_of frame.now) ≤ number_of frame.now }
        requires fewer { self.old.frames ≤ length self.old.rows.items }
        ensures added { OnOk result ((history : ℕ) (frames : List StreamFrame)
            → StandsFor history frames self.old.rows.items self.old.missing.items self.old.frames
            → length (rows_of frame.now) ≡ rows_due history (number_of frame.now)
            → (differs frames (frame_of frame.now) ≡ false)
            × ((Follows history frames (frame_of frame.now))
            → StandsFor history (frames ++ frame_of frame.now ∷ []) self.new.rows.items self.new.missing.items self.new.frames)) }
        ensures refused { IfErr result (λ error. IsFound error → (error ≡ StreamError.Differs (self.old.frames + 1))
            × ((history : ℕ) (frames : List StreamFrame)
            → StandsFor history frames self.old.rows.items self.old.missing.items self.old.frames
            → length (rows_of frame.now) ≡ rows_due history (number_of frame.now) → differs frames (frame_of frame.now) ≡ true)) }
        ensures no_fault { IfErr result (λ error. error ≢ StreamError.ReadFault) }
    {
        if self.differs(frame) {
            return Err(StreamError::Differs {
                entry: self.frames + 1,
            });
        }
        self.add_rows(frame)?;
        self.frames += 1;
        Ok(())
    }

    // Whether a row of a frame differs from that of an earlier frame. Of the packets up to the last frame's it carries
    // only such as the last frame carries too.
    fn differs(&self, frame: &WireView<'_>) -> bool
        requires later { length self.now.rows.items < number_of frame.now }
        requires few { number_of frame.now ≤ most_packets }
        requires rows { length (rows_of frame.now) ≤ number_of frame.now }
        ensures { result ≡ list_any (λ p. clash (slice_get self.now.rows.items (p - 1)) (carried_row (frame_of frame.now) p))
            (range_with_len (number_of frame.now + 1 - length (rows_of frame.now)) (length self.now.rows.items + 1 - (number_of frame.now + 1 - length (rows_of frame.now)))) }
    {
        let first = frame.number() + 1 - u32::from(frame.count());
        for p in first..self.last() + 1 {
            if self.differs_at(frame, p) {
                return true;
            }
        }
        false
    }

    // Whether a frame has another row of packet p than was kept.
    fn differs_at(&self, frame: &WireView<'_>, p: u32) -> bool
        requires a_packet { 1 ≤ p }
        requires kept { p ≤ length self.now.rows.items }
        requires later { length self.now.rows.items < number_of frame.now }
        requires few { number_of frame.now ≤ most_packets }
        ensures { result ≡ clash (slice_get self.now.rows.items (p - 1)) (carried_row (frame_of frame.now) p) }
    {
        match carried_row(frame, p) {
            Some(row) => !same_row(&self.rows[p as usize - 1], &row),
            None => false,
        }
    }

    // Adds the rows of a frame behind those that are there, and the numbers before its own to those without a frame.
    fn add_rows(&mut self, frame: &WireView<'_>) -> Result<(), OutOfMemory>
        requires later { length self.old.rows.items < number_of frame.now }
        requires few { number_of frame.now ≤ most_packets }
        ensures rows { OnOk result (self.new.rows.items ≡ self.old.rows.items ++ map (λ p. unwrap_or (carried_row (frame_of frame.now) p) no_row)
            (range_with_len (length self.old.rows.items + 1) (number_of frame.now - length self.old.rows.items))) }
        ensures missing { OnOk result (self.new.missing.items ≡ self.old.missing.items
            ++ range_with_len (length self.old.rows.items + 1) (number_of frame.now - (length self.old.rows.items + 1))) }
        ensures frames { self.new.frames ≡ self.old.frames }
    {
        let (first, number) = (self.last() + 1, frame.number());
        for p in first..number {
            self.rows.push(row_or_none(frame, p))?;
            self.missing.push(p)?;
        }
        self.rows.push(row_or_none(frame, number))?;
        Ok(())
    }

    // Adds the numbers up to this one, which have no frame.
    fn pass_to(&mut self, number: u32) -> Result<(), OutOfMemory>
        requires later { length self.old.rows.items ≤ number }
        requires few { number ≤ most_packets }
        ensures rows { OnOk result (self.new.rows.items ≡ self.old.rows.items ++ map (λ p. no_row)
            (range_with_len (length self.old.rows.items + 1) (number - length self.old.rows.items))) }
        ensures missing { OnOk result (self.new.missing.items ≡ self.old.missing.items
            ++ range_with_len (length self.old.rows.items + 1) (number - length self.old.rows.items)) }
    {
        let first = self.last() + 1;
        for p in first..number + 1 {
            self.rows.push(NO_ROW)?;
            self.missing.push(p)?;
        }
        Ok(())
    }
}

// What stands behind the end: nothing, or a byte, which is refused.
fn take_end<S: Source>(source: &mut S) -> Result<(), StreamError>
    ensures end { OnOk result (IsAtEnd (S.left source.old) × IsAtEnd (S.left source.new)) }
    ensures followed { IfSome (S.left source.old) (λ bytes. IfErr result (λ error. IsFound error → (error ≡ StreamError.Trailing) × (0 < length bytes))) }
    ensures few { GivesAtMost 1 (S.left source.old) (S.left source.new) }
    ensures counts { CountsReadFault S.faults source.old source.new result }
{
    let mut byte = [0; 1];
    if fill(source, &mut byte)? == 0 {
        Ok(())
    } else {
        Err(StreamError::Trailing)
    }
}
