ghost use Rattle.std.specs.Prelude.{◌≡◌, ◌≢◌, ◌≤◌, ◌<◌, ◌+◌, ℕ, List, true, length, take, Option, Some, None, Ok, IfOk, IfErr, IfSome, OnErr};
ghost use Rattle.std.specs.Io.KnownBytes.{Consumes, IsAtEnd};
ghost use Rattle.scr_pcap.specs.Records.{CAPTURED, RECORDS};
ghost use Rattle.scr_pcap.specs.Taken.{GivesAtMost};
ghost use Rattle.scr_pcapng.specs.Blocks.{BLOCKS, is_total, kind_in, total_in};
ghost use Rattle.scr_pcapng.specs.Contents.{IsAccepted, captured_by, position_behind};
ghost use Rattle.scr_pcapng.specs.Parts.{HasGivenHead, IsFaultAt, TakesBlock};
ghost use Rattle.scr_pcapng.specs.State.{Answers, LONGEST_BLOCK, IsBlockCause, IsCounted, ahead, answer_of, faults_counted, left_of, most_of_block, progress_behind, reach, rest_in_blocks};
ghost use Rattle.scr_pcapng.specs.Steps.{Steps, answer_with, info_in};

use crate::content::Content;
use crate::error::{AnyError, NgError};
use crate::head::{Head, LONGEST_HEAD};
use crate::heading::FRONT;
use crate::kind::Kind;
use crate::options::take_options;
use crate::passing::{take_frame, take_tail};
use crate::progress::Progress;
use crate::reader::{BLOCKS, BlockReader, captured_of};
use scr_base::{OutOfMemory, Source};
use scr_pcap::{FrameBuf, LONGEST, RecordInfo, fill};

// How many bytes stand between the total length of an enhanced packet and its own bytes.
const FIELDS: usize = 20;

impl BlockReader {
    // Takes what follows the head of a block, and answers what the block tells, or its fault.
    fn take_body<S: Source>(
        &self,
        source: &mut S,
        head: &Head,
        frame: &mut FrameBuf,
    ) -> Result<Content, AnyError>
        requires { is_total head.now.kind head.now.total ≡ true }
        ensures taken { IfOk result (λ content. (front : Option (List ℕ))
            → HasGivenHead self.now.position front (S.left source.old) head.now.kind head.now.order head.now.total head.now.bytes
            → TakesBlock self.now.position front (S.left source.new) content frame.new) }
        ensures faulty { (front : Option (List ℕ))
            → HasGivenHead self.now.position front (S.left source.old) head.now.kind head.now.order head.now.total head.now.bytes
            → IsFaultAt self.now.position front result }
        ensures length { IfOk result (λ content. captured_by content ≡ length frame.new) }
        ensures accepted { IfOk result (IsAccepted self.now.position) }
        ensures few { (front : Option (List ℕ))
            → HasGivenHead self.now.position front (S.left source.old) head.now.kind head.now.order head.now.total head.now.bytes
            → GivesAtMost head.now.total front (S.left source.new) }
        ensures counts { S.faults source.new ≡ faults_counted result (S.faults source.old) }
    {
        let block = self.number();
        let unit = take_options(source, head, block)?;
        let content = self.content(head, unit);
        let captured = captured_of(&content);
        take_frame(source, captured, frame, block)?;
        let size = head.total - head.front() - captured;
        let second = take_tail(source, head.order, size, block)?;
        if second != head.total {
            return Err(self.length().into());
        }
        Ok(content?)
    }

    // Takes what follows the type and the total length of a block, and answers what the block tells, or its fault.
    #[inline(always)]
    fn take_behind<S: Source>(
        &self,
        source: &mut S,
        begun: [u8; LONGEST_HEAD],
        frame: &mut FrameBuf,
    ) -> Result<Content, AnyError>
        requires { self.now.position.blocks ≢ BLOCKS }
        ensures taken { IfOk result (λ content. (front : Option (List ℕ)) → Consumes front (S.left source.old) (take 8 begun)
            → TakesBlock self.now.position front (S.left source.new) content frame.new) }
        ensures faulty { (front : Option (List ℕ)) → Consumes front (S.left source.old) (take 8 begun) → IsFaultAt self.now.position front result }
        ensures length { IfOk result (λ content. captured_by content ≡ length frame.new) }
        ensures accepted { IfOk result (IsAccepted self.now.position) }
        ensures few { (front : Option (List ℕ)) → Consumes front (S.left source.old) (take 8 begun) → GivesAtMost LONGEST_BLOCK front (S.left source.new) }
        ensures counts { S.faults source.new ≡ faults_counted result (S.faults source.old) }
    {
        match self.packet_total(&begun) {
            Some(total) => Ok(self.take_enhanced(source, begun, total, frame)?),
            None => Ok(self.take_other(source, begun, frame)?),
        }
    }

    // The total length of an enhanced packet whose block has room in a frame, by the bytes in front.
    #[inline(always)]
    fn packet_total(&self, begun: &[u8]) -> Option<u32>
        requires { 8 ≤ length begun.now }
        ensures { IfSome result (λ total. (kind_in self.now.position begun.now ≡ Kind.EnhancedPacket) × (total ≡ total_in self.now.position.order begun.now)
            × (is_total Kind.EnhancedPacket total ≡ true) × (total ≤ CAPTURED)) }
    {
        let kind = Kind::of(self.order.u32_at(begun, 0));
        let total = self.order.u32_at(begun, 4);
        let fits = kind == Kind::EnhancedPacket
            && kind.is_total(total)
            && total as usize <= LONGEST;
        if fits { Some(total) } else { None }
    }

    // Takes what follows of an enhanced packet at once. What it tells stands there from the interface on.
    #[inline(always)]
    fn take_enhanced<S: Source>(
        &self,
        source: &mut S,
        begun: [u8; LONGEST_HEAD],
        total: u32,
        frame: &mut FrameBuf,
    ) -> Result<Content, AnyError>
        requires some { self.now.position.blocks ≢ BLOCKS }
        requires kind { kind_in self.now.position begun ≡ Kind.EnhancedPacket }
        requires told { total ≡ total_in self.now.position.order begun }
        requires is { is_total Kind.EnhancedPacket total ≡ true }
        requires room { total ≤ CAPTURED }
        ensures taken { IfOk result (λ content. (front : Option (List ℕ)) → Consumes front (S.left source.old) (take 8 begun)
            → TakesBlock self.now.position front (S.left source.new) content frame.new) }
        ensures faulty { (front : Option (List ℕ)) → Consumes front (S.left source.old) (take 8 begun) → IsFaultAt self.now.position front result }
        ensures length { IfOk result (λ content. captured_by content ≡ length frame.new) }
        ensures accepted { IfOk result (IsAccepted self.now.position) }
        ensures few { (front : Option (List ℕ)) → Consumes front (S.left source.old) (take 8 begun) → GivesAtMost LONGEST_BLOCK front (S.left source.new) }
        ensures counts { S.faults source.new ≡ faults_counted result (S.faults source.old) }
    {
        let size = total as usize - FRONT;
        if frame.fill(source, size)? < size {
            return Err(self.cut().into());
        }
        let rest = frame.bytes();
        if self.order.u32_at(rest, size - 4) != total {
            return Err(self.length().into());
        }
        let content = self.enhanced_behind(rest, total)?;
        frame.keep(FIELDS, content.captured() as usize);
        Ok(content)
    }

    // Takes what follows of another block, part by part.
    #[cold]
    #[inline(never)]
    fn take_other<S: Source>(
        &self,
        source: &mut S,
        begun: [u8; LONGEST_HEAD],
        frame: &mut FrameBuf,
    ) -> Result<Content, AnyError>
        requires { self.now.position.blocks ≢ BLOCKS }
        ensures taken { IfOk result (λ content. (front : Option (List ℕ)) → Consumes front (S.left source.old) (take 8 begun)
            → TakesBlock self.now.position front (S.left source.new) content frame.new) }
        ensures faulty { (front : Option (List ℕ)) → Consumes front (S.left source.old) (take 8 begun) → IsFaultAt self.now.position front result }
        ensures length { IfOk result (λ content. captured_by content ≡ length frame.new) }
        ensures accepted { IfOk result (IsAccepted self.now.position) }
        ensures few { (front : Option (List ℕ)) → Consumes front (S.left source.old) (take 8 begun) → GivesAtMost LONGEST_BLOCK front (S.left source.new) }
        ensures counts { S.faults source.new ≡ faults_counted result (S.faults source.old) }
    {
        let head = self.take_head(source, begun)?;
        self.take_body(source, &head, frame)
    }

    // Goes behind a block.
    #[inline(always)]
    fn accept(&mut self, content: Content) -> Result<(), OutOfMemory>
        requires few { self.old.position.blocks < BLOCKS }
        requires accepted { IsAccepted self.old.position content }
        ensures position { IfOk result (λ _. self.new.position ≡ position_behind self.old.position content) }
        ensures progress { self.new.progress ≡ self.old.progress }
        ensures unchanged { OnErr result (self.new ≡ self.old) }
    {
        match content {
            Content::NewSection(order) => {
                self.order = order;
                self.interfaces.clear();
            }
            Content::NewInterface(interface) => self.interfaces.push(interface)?,
            Content::Packet { .. } => self.packets += 1,
            Content::Passed => {}
        }
        self.blocks += 1;
        Ok(())
    }

    // Takes the next block, and answers what it tells; `None` at the end.
    #[inline(always)]
    fn take_block<S: Source>(
        &mut self,
        source: &mut S,
        frame: &mut FrameBuf,
    ) -> Result<Option<Content>, AnyError>
        ensures block { IfOk result (λ next. IfSome next (λ content. (self.new.position ≡ position_behind self.old.position content)
            × (self.old.position.blocks < BLOCKS) × (captured_by content ≡ length frame.new)
            × TakesBlock self.old.position (ahead self.old.position (S.left source.old)) (S.left source.new) content frame.new)) }
        ensures end { result ≡ Ok None → (self.new ≡ self.old) × IsAtEnd (ahead self.old.position (S.left source.old)) × IsAtEnd (S.left source.new) }
        ensures unchanged { OnErr result (self.new ≡ self.old) }
        ensures progress { self.new.progress ≡ self.old.progress }
        ensures faulty { IsFaultAt self.old.position (ahead self.old.position (S.left source.old)) result }
        ensures few { GivesAtMost (most_of_block self.old.position) (ahead self.old.position (S.left source.old)) (S.left source.new) }
        ensures counts { S.faults source.new ≡ faults_counted result (S.faults source.old) }
    {
        if self.blocks == BLOCKS {
            return self.take_end(source);
        }
        let mut begun = [0; LONGEST_HEAD];
        let count = self.take_front(source, &mut begun)?;
        if count == 0 {
            return Ok(None);
        }
        if count < FRONT {
            return Err(self.cut().into());
        }
        let content = self.take_behind(source, begun, frame)?;
        self.accept(content)?;
        Ok(Some(content))
    }

    // What stands behind the last block that is taken: the end, or a byte, which tells that there are too many.
    #[cold]
    #[inline(never)]
    fn take_end<S: Source>(&self, source: &mut S) -> Result<Option<Content>, AnyError>
        requires { self.now.position.blocks ≡ BLOCKS }
        ensures no_block { IfOk result (λ next. next ≡ None) }
        ensures end { result ≡ Ok None → IsAtEnd (S.left source.old) × IsAtEnd (S.left source.new) }
        ensures faulty { IsFaultAt self.now.position (S.left source.old) result }
        ensures few { GivesAtMost 1 (S.left source.old) (S.left source.new) }
        ensures counts { S.faults source.new ≡ faults_counted result (S.faults source.old) }
    {
        let mut byte = [0; 1];
        if fill(source, &mut byte)? == 0 {
            return Ok(None);
        }
        Err(NgError::TooManyBlocks { limit: BLOCKS }.into())
    }

    // The packet in a block that was taken, if it is one.
    #[inline(always)]
    fn packet(&self, content: Content) -> Option<RecordInfo>
        ensures { result ≡ info_in self.now.position.packets content }
    {
        match content {
            Content::Packet { time, captured, .. } => Some(RecordInfo {
                number: self.packets,
                time,
                length: captured,
            }),
            _ => None,
        }
    }

    // Takes the next block; a packet is answered, whose bytes `frame` then holds.
    #[inline(always)]
    fn advance<S: Source>(&mut self, source: &mut S, frame: &mut FrameBuf) -> Option<RecordInfo>
        requires { self.old.progress ≡ Progress.Reading }
        ensures steps { Steps self.old (S.left source.old) (S.faults source.old) self.new (S.left source.new) (S.faults source.new) frame.new result }
        ensures on { self.new.progress ≡ Progress.Reading → self.new.position.blocks ≡ self.old.position.blocks + 1 }
    {
        match self.take_block(source, frame) {
            Ok(Some(content)) => self.packet(content),
            Ok(None) => {
                self.progress = Progress::Ended;
                None
            }
            Err(error) => {
                self.progress = Progress::Refused(error);
                None
            }
        }
    }

    // Takes blocks up to the next packet, whose bytes `frame` then holds; `None` at the end or at an error.
    #[inline(always)]
    fn take_packet<S: Source>(&mut self, source: &mut S, frame: &mut FrameBuf) -> Option<RecordInfo>
        requires { self.old.progress ≡ Progress.Reading }
        ensures steps { Steps self.old (S.left source.old) (S.faults source.old) self.new (S.left source.new) (S.faults source.new) frame.new result }
        ensures stops { result ≡ None → self.new.progress ≢ Progress.Reading }
    {
        let mut found = None;
        while found.is_none() && self.progress == Progress::Reading {
            found = self.advance(source, frame);
        }
        found
    }

    // What a reader answers that found this. It has come no further than is taken.
    fn answer(&self, found: Option<RecordInfo>) -> Result<Option<RecordInfo>, AnyError>
        ensures told { result ≡ answer_with self.now.progress found }
        ensures few_packets { self.now.position.packets ≤ RECORDS }
        ensures few_blocks { self.now.position.blocks ≤ BLOCKS }
    {
        match self.progress {
            Progress::Reading => Ok(found),
            Progress::Ended => Ok(None),
            Progress::Refused(error) => Err(error),
        }
    }

    /// Takes the next packet, whose bytes `frame` then holds; `None` at the end. An error is answered again by each
    /// later call, which reads nothing; `frame` then holds some bytes.
    pub(crate) fn next<S: Source>(
        &mut self,
        source: &mut S,
        frame: &mut FrameBuf,
    ) -> Result<Option<RecordInfo>, AnyError>
        ensures again { IfSome (answer_of self.old.progress) (λ answer. (result ≡ answer) × (self.new ≡ self.old) × (source.new ≡ source.old)) }
        ensures answers { self.old.progress ≡ Progress.Reading
            → Answers (rest_in_blocks self.old.position (S.left source.old)) (rest_in_blocks self.new.position (S.left source.new)) frame.new result }
        ensures named { self.old.progress ≡ Progress.Reading → IfErr result IsBlockCause }
        ensures counted { self.old.progress ≡ Progress.Reading
            → IsCounted self.old.position.packets self.new.position.packets frame.new result }
        ensures progress { self.old.progress ≡ Progress.Reading → self.new.progress ≡ progress_behind result }
        ensures end { self.old.progress ≡ Progress.Reading → result ≡ Ok None → IsAtEnd (S.left source.new) }
        ensures few_packets { self.new.position.packets ≤ RECORDS }
        ensures few_blocks { self.new.position.blocks ≤ BLOCKS }
        ensures reach { (start : Option (List ℕ)) → GivesAtMost (reach self.old) start (left_of self.old (S.left source.old))
            → GivesAtMost (reach self.new) start (left_of self.new (S.left source.new)) }
        ensures counts { self.old.progress ≡ Progress.Reading → S.faults source.new ≡ faults_counted result (S.faults source.old) }
    {
        if self.progress != Progress::Reading {
            return self.answer(None);
        }
        let found = self.take_packet(source, frame);
        self.answer(found)
    }
}
