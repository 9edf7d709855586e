ghost use Rattle.std.specs.Prelude.{◌≡◌, ◌≤◌, ℕ, List, [], length, Option, None, Ok, Err, IfOk, IfErr, IfSome};
ghost use Rattle.std.specs.Io.KnownBytes.{IsAtEnd};
ghost use Rattle.scr_pcap.specs.Header.{HEADER_SIZE};
ghost use Rattle.scr_pcap.specs.Records.{RECORDS};
ghost use Rattle.scr_pcap.specs.State as pcap;
ghost use Rattle.scr_pcap.specs.Taken.{GivesAtMost};
ghost use Rattle.scr_pcapng.specs.Either.{IsBeginFault, IsCauseIn, IsClassicCause, IsWithinLimits, left_behind, most_of, progress_in, progress_of, reading_of, records_of, rest_behind, rest_of};
ghost use Rattle.scr_pcapng.specs.State.{Answers, IsCauseOf, IsCounted, ReadsOn, answer_of, faults_counted, progress_behind};

use crate::error::AnyError;
use crate::progress::Progress;
use crate::reader::{BlockReader, FIRST};
use scr_base::Source;
use scr_pcap::{CaptureError, FrameBuf, Reader, RecordInfo, fill};
use std::alloc::Global;

/// Reads the records of a capture in either format, one at a time.
#[derive(Drop)]
pub enum AnyReader {
    /// The libpcap file format.
    Classic(Reader),
    /// Blocks.
    Blocks(BlockReader),
}

impl AnyReader {
    /// Takes the first bytes of a capture, which tell its format, and the header of the libpcap file format. Of a capture
    /// in blocks no block is tested yet.
    pub fn begin<S: Source>(alloc: Global, source: &mut S) -> Result<Self, AnyError>
        ensures fresh { IfOk result (λ reader. (records_of reader ≡ 0) × (progress_of reader ≡ Progress.Reading)) }
        ensures reads_on { IfOk result (λ reader. ReadsOn (reading_of (S.left source.old)) (rest_of reader (S.left source.new)) []) }
        ensures refused { IfErr result (IsCauseOf (reading_of (S.left source.old))) }
        ensures named { IfErr result IsBeginFault }
        ensures few { GivesAtMost HEADER_SIZE (S.left source.old) (S.left source.new) }
        ensures reach { IfOk result (λ reader. GivesAtMost (most_of reader) (S.left source.old) (left_behind reader (S.left source.new))) }
        ensures within { IfOk result IsWithinLimits }
        ensures counts { S.faults source.new ≡ faults_counted result (S.faults source.old) }
    {
        let mut first = [0; 4];
        if fill(source, &mut first)? < 4 {
            return Err(AnyError::Classic(CaptureError::ShortHeader));
        }
        if first == FIRST {
            return Ok(AnyReader::Blocks(BlockReader::new(alloc)));
        }
        let reader = Reader::begin_after(first, source)?;
        Ok(AnyReader::Classic(reader))
    }

    /// Takes the next record, whose bytes `frame` then holds; `None` at the end. An error is answered again by each later
    /// call, which reads nothing; `frame` then holds some bytes.
    #[inline(always)]
    pub fn next<S: Source>(
        &mut self,
        source: &mut S,
        frame: &mut FrameBuf,
    ) -> Result<Option<RecordInfo>, AnyError>
        // One that has ended or refused answers so again, and reads nothing.
        ensures again { IfSome (answer_of (progress_of self.old)) (λ answer. (result ≡ answer) × (self.new ≡ self.old) × (source.new ≡ source.old)) }

        ensures answers { progress_of self.old ≡ Progress.Reading
            → Answers (rest_of self.old (S.left source.old)) (rest_of self.new (S.left source.new)) frame.new result }
        ensures named { progress_of self.old ≡ Progress.Reading → IfErr result (IsCauseIn self.old) }
        ensures counted { progress_of self.old ≡ Progress.Reading → IsCounted (records_of self.old) (records_of self.new) frame.new result }
        ensures progress { progress_of self.old ≡ Progress.Reading → progress_of self.new ≡ progress_behind result }
        ensures end { progress_of self.old ≡ Progress.Reading → result ≡ Ok None → IsAtEnd (S.left source.new) }

        // A capture has at most 1,000,000 records, and at most 4,000,000 blocks.
        ensures within { IsWithinLimits self.new }

        // However many calls are made, all that they took stays within a reader's reach.
        ensures reach { (start : Option (List ℕ)) → GivesAtMost (most_of self.old) start (left_behind self.old (S.left source.old))
            → GivesAtMost (most_of self.new) start (left_behind self.new (S.left source.new)) }

        ensures counts { progress_of self.old ≡ Progress.Reading → S.faults source.new ≡ faults_counted result (S.faults source.old) }
    {
        match self {
            AnyReader::Classic(reader) => next_classic(reader, source, frame),
            // By parts, so that a record of the other format needs no place in memory for what a call writes.
            AnyReader::Blocks(reader) => Ok(reader.next(source, frame)?),
        }
    }
}

// The next record of the libpcap file format, by the causes of both.
#[inline(always)]
fn next_classic<S: Source>(
    reader: &mut Reader,
    source: &mut S,
    frame: &mut FrameBuf,
) -> Result<Option<RecordInfo>, AnyError>
    ensures again { IfSome (answer_of (progress_in reader.old.progress)) (λ answer. (result ≡ answer) × (reader.new ≡ reader.old) × (source.new ≡ source.old)) }
    ensures answers { progress_in reader.old.progress ≡ Progress.Reading
        → Answers (rest_behind reader.old (S.left source.old)) (rest_behind reader.new (S.left source.new)) frame.new result }
    ensures named { progress_in reader.old.progress ≡ Progress.Reading → IfErr result IsClassicCause }
    ensures counted { progress_in reader.old.progress ≡ Progress.Reading → IsCounted reader.old.taken reader.new.taken frame.new result }
    ensures progress { progress_in reader.old.progress ≡ Progress.Reading → progress_in reader.new.progress ≡ progress_behind result }
    ensures end { progress_in reader.old.progress ≡ Progress.Reading → result ≡ Ok None → IsAtEnd (S.left source.new) }
    ensures within { reader.new.taken ≤ RECORDS }
    ensures reach { (start : Option (List ℕ)) → GivesAtMost (pcap.reach reader.old) start (S.left source.old)
        → GivesAtMost (pcap.reach reader.new) start (S.left source.new) }
    ensures counts { progress_in reader.old.progress ≡ Progress.Reading → S.faults source.new ≡ faults_counted result (S.faults source.old) }
{
    Ok(reader.next(source, frame)?)
}
