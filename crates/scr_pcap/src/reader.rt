ghost use Rattle.std.specs.Prelude.{◌≡◌, ◌≢◌, ◌⊎◌, ◌≤◌, ◌<◌, ◌+◌, ℕ, List, Bool, true, length, drop, Option, Some, None, Ok, Err, IfOk, IfErr, IfSome, OnOk, OnErr};
ghost use Rattle.std.specs.Io.KnownBytes.{IsAtEnd, prepend_known};
ghost use Rattle.scr_pcap.specs.Header.{HEADER_SIZE, header_of, IsHeaderFault};
ghost use Rattle.scr_pcap.specs.Records.{Record, RECORDS, CAPTURED, RECORD_HEADER_SIZE, TakesRecord, IsFaultyRest, IsRecordFault, rest_fault, captured_in};
ghost use Rattle.scr_pcap.specs.State.{ReaderState, IsFresh, answer_of, reach};
ghost use Rattle.scr_pcap.specs.Taken.{GivesAtMost, Takes, next_size, CountsReadFault};

use crate::error::CaptureError;
use crate::filling::{fill, fill_behind};
use crate::format::Format;
use crate::frame::{FrameBuf, LONGEST};
use crate::header::{HEADER, header_of};
use scr_base::Source;
use std::marker::Model;

/// The most records that are taken of a capture.
pub const LIMIT: u32 = 1_000_000;

// The length of the header of a record, in bytes.
const RECORD_HEADER: usize = 16;

/// How far a reader has come.
#[derive(Clone, Copy, Debug, PartialEq, Eq)]
pub enum Progress {
    /// More may follow.
    Reading,
    /// The end was met behind a whole record, or behind the header.
    Ended,
    /// This error was answered, and is answered again.
    Refused(CaptureError),
}

/// What stands in front of a record's bytes.
#[derive(Clone, Copy, Debug, PartialEq, Eq)]
pub struct RecordInfo {
    /// The record's number, from 1.
    pub number: u32,
    /// Its captured length in bytes.
    pub length: u32,
    /// Its time in microseconds.
    pub time: u64,
}

/// Reads the records of a capture, one at a time.
#[derive(Debug, Drop)]
pub struct Reader {
    format: Format,
    taken: u32,
    progress: Progress,
}

impl Model for Reader {
    ghost use Rattle.std.specs.Prelude.{◌≤◌};
    ghost use Rattle.scr_pcap.specs.Records.{RECORDS};
    ghost use Rattle.scr_pcap.specs.State.{ReaderState};

    ghost Value = { ReaderState };

    ghost view = { λ reader. record { format = reader.format; taken = reader.taken; progress = reader.progress } };

    ghost invariant = { λ reader. reader.taken ≤ RECORDS };
}

impl Reader {
    /// Takes the header of a capture.
    pub fn begin<S: Source>(source: &mut S) -> Result<Self, CaptureError>
        ensures fresh { IfOk result IsFresh }
        ensures header { IfSome (S.left source.old) (λ bytes. IfOk result (λ reader.
            (header_of bytes ≡ Ok reader.format) × (S.left source.new ≡ Some (drop HEADER_SIZE bytes)))) }
        ensures refused { IfSome (S.left source.old) (λ bytes. IfErr result (λ error.
            error ≢ CaptureError.ReadFault → header_of bytes ≡ Err error)) }
        ensures named { IfErr result IsHeaderFault }
        ensures takes { Takes HEADER_SIZE (S.left source.old) (S.left source.new) result }
        ensures reach { IfOk result (λ reader. GivesAtMost (reach reader) (S.left source.old) (S.left source.new)) }
        ensures counts { CountsReadFault S.faults source.old source.new result }
    {
        let mut header = [0; HEADER];
        let count = fill(source, &mut header)?;
        let format = header_of(&header[..count])?;
        Ok(Reader {
            format,
            taken: 0,
            progress: Progress::Reading,
        })
    }

    /// As `begin`, where `first` are the first four bytes of the capture, which were taken ahead.
    pub fn begin_after<S: Source>(first: [u8; 4], source: &mut S) -> Result<Self, CaptureError>
        ensures fresh { IfOk result IsFresh }
        ensures header { IfSome (prepend_known first (S.left source.old)) (λ bytes. IfOk result (λ reader.
            (header_of bytes ≡ Ok reader.format) × (S.left source.new ≡ Some (drop HEADER_SIZE bytes)))) }
        ensures refused { IfSome (prepend_known first (S.left source.old)) (λ bytes. IfErr result (λ error.
            error ≢ CaptureError.ReadFault → header_of bytes ≡ Err error)) }
        ensures named { IfErr result IsHeaderFault }
        ensures takes { Takes HEADER_SIZE (prepend_known first (S.left source.old)) (S.left source.new) result }
        ensures reach { IfOk result (λ reader. GivesAtMost (reach reader) (prepend_known first (S.left source.old)) (S.left source.new)) }
        ensures counts { CountsReadFault S.faults source.old source.new result }
    {
        let mut header = [0; HEADER];
        let count = fill_behind(&first, source, &mut header)?;
        Ok(Reader {
            format: header_of(&header[..count])?,
            taken: 0,
            progress: Progress::Reading,
        })
    }

    /// Takes the next record, whose bytes `frame` then holds; `None` at the end. An error is answered again by each
    /// later call, which reads nothing; `frame` then holds some bytes.
    #[inline(always)]
    pub fn next<S: Source>(
        &mut self,
        source: &mut S,
        frame: &mut FrameBuf,
    ) -> Result<Option<RecordInfo>, CaptureError>
        ensures format { self.new.format ≡ self.old.format }
        ensures within { self.new.taken ≤ RECORDS }

        // One that has ended or refused answers so again, and reads nothing.
        ensures again { IfSome (answer_of self.old.progress) (λ answer.
            (result ≡ answer) × (self.new ≡ self.old) × (source.new ≡ source.old)) }

        ensures record { IfOk result (λ next. IfSome next (λ info.
            (self.old.taken < RECORDS) × (self.new ≡ record self.old { taken = self.old.taken + 1 })
            × (info.number ≡ self.old.taken + 1) × (info.length ≡ length frame.new)
            × TakesRecord self.old.format (S.left source.old) (S.left source.new) (record { time = info.time; content = frame.new }))) }
        ensures ended { result ≡ Ok None → self.new ≡ record self.old { progress = Progress.Ended } }
        ensures end { self.old.progress ≡ Progress.Reading → result ≡ Ok None
            → IsAtEnd (S.left source.old) × IsAtEnd (S.left source.new) }
        ensures refused { IfErr result (λ error. self.new ≡ record self.old { progress = Progress.Refused error }) }
        ensures faulty { IfErr result (λ error. error ≢ CaptureError.ReadFault → self.old.progress ≡ Progress.Reading
            → IfSome (S.left source.old) (λ bytes. IsFaultyRest self.old.format self.old.taken bytes error)) }
        ensures named { self.old.progress ≡ Progress.Reading → IfErr result (IsRecordFault self.old.taken) }
        ensures takes { self.old.progress ≡ Progress.Reading → IfSome (S.left source.old) (λ bytes.
            Takes (next_size self.old.format self.old.taken bytes) (Some bytes) (S.left source.new) result) }

        // However many calls are made, all that they took stays within a reader's reach.
        ensures reach { (start : Option (List ℕ)) → GivesAtMost (reach self.old) start (S.left source.old)
            → GivesAtMost (reach self.new) start (S.left source.new) }

        ensures counts { self.old.progress ≡ Progress.Reading → CountsReadFault S.faults source.old source.new result }
    {
        match self.progress {
            Progress::Reading => {}
            Progress::Ended => return Ok(None),
            Progress::Refused(error) => return Err(error),
        }
        let next = self.take_record(source, frame);
        match next {
            Ok(Some(_)) => self.taken += 1,
            Ok(None) => self.progress = Progress::Ended,
            Err(error) => self.progress = Progress::Refused(error),
        }
        next
    }

    // The next record, whose bytes `frame` then holds; `None` at the end.
    #[inline(always)]
    fn take_record<S: Source>(
        &self,
        source: &mut S,
        frame: &mut FrameBuf,
    ) -> Result<Option<RecordInfo>, CaptureError>
        ensures record { IfOk result (λ next. IfSome next (λ info.
            (self.now.taken < RECORDS) × (info.number ≡ self.now.taken + 1) × (info.length ≡ length frame.new)
            × TakesRecord self.now.format (S.left source.old) (S.left source.new) (record { time = info.time; content = frame.new }))) }
        ensures end { result ≡ Ok None → IsAtEnd (S.left source.old) × IsAtEnd (S.left source.new) }
        ensures faulty { IfErr result (λ error. error ≢ CaptureError.ReadFault
            → IfSome (S.left source.old) (λ bytes. IsFaultyRest self.now.format self.now.taken bytes error)) }
        ensures named { IfErr result (IsRecordFault self.now.taken) }
        ensures takes { IfSome (S.left source.old) (λ bytes.
            Takes (next_size self.now.format self.now.taken bytes) (Some bytes) (S.left source.new) result) }
        ensures counts { CountsReadFault S.faults source.old source.new result }
    {
        if self.taken == LIMIT {
            self.take_end(source)?;
            return Ok(None);
        }
        let mut header = [0; RECORD_HEADER];
        let count = fill(source, &mut header)?;
        if count == 0 {
            return Ok(None);
        }
        let length = self.captured(&header[..count])?;
        if frame.fill(source, length as usize)? < length as usize {
            return Err(self.short_record());
        }
        Ok(Some(RecordInfo {
            number: self.taken + 1,
            time: self.format.time_in(&header),
            length,
        }))
    }

    // What stands behind the last record that is taken: the end, or a byte, which tells that there are too many.
    #[cold]
    #[inline(never)]
    fn take_end<S: Source>(&self, source: &mut S) -> Result<(), CaptureError>
        requires { self.now.taken ≡ RECORDS }
        ensures end { OnOk result (IsAtEnd (S.left source.old) × IsAtEnd (S.left source.new)) }
        ensures faulty { IfErr result (λ error. error ≢ CaptureError.ReadFault
            → IfSome (S.left source.old) (λ bytes. IsFaultyRest self.now.format self.now.taken bytes error)) }
        ensures named { IfErr result (IsRecordFault self.now.taken) }
        ensures takes { IfSome (S.left source.old) (λ bytes.
            Takes (next_size self.now.format self.now.taken bytes) (Some bytes) (S.left source.new) result) }
        ensures counts { CountsReadFault S.faults source.old source.new result }
    {
        let mut byte = [0; 1];
        let count = fill(source, &mut byte)?;
        if count == 0 {
            return Ok(());
        }
        Err(CaptureError::TooMany { limit: LIMIT })
    }

    // The captured length in the header of the next record, or the first test that fails.
    #[tactic(auto, unfolding(crate::specs::Records::rest_fault))]
    fn captured(&self, header: &[u8]) -> Result<u32, CaptureError>
        requires { self.now.taken < RECORDS }
        ensures captured { IfOk result (λ captured.
            (self.now.taken < RECORDS) × (RECORD_HEADER_SIZE ≤ length header.now) × (captured ≡ captured_in self.now.format header.now) × (captured ≤ CAPTURED)) }
        ensures fault { IfErr result (λ error. error ≡ rest_fault self.now.format self.now.taken header.now) }
        ensures test { OnErr result ((length header.now < RECORD_HEADER_SIZE) ⊎ (CAPTURED < captured_in self.now.format header.now)) }
        ensures named { IfErr result (IsRecordFault self.now.taken) }
        ensures told { IfErr result (λ error. (error ≢ CaptureError.ReadFault) × (self.now.taken < RECORDS)) }
    {
        if header.len() < RECORD_HEADER {
            return Err(self.short_record());
        }
        let length = self.format.captured_in(header);
        if length as usize > LONGEST {
            return Err(CaptureError::LongRecord {
                number: self.taken + 1,
                length,
            });
        }
        Ok(length)
    }

    #[cold]
    #[inline(never)]
    fn short_record(&self) -> CaptureError
        ensures { result ≡ CaptureError.ShortRecord (self.now.taken + 1) }
    {
        CaptureError::ShortRecord {
            number: self.taken + 1,
        }
    }
}
