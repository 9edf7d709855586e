ghost use Rattle.std.specs.Prelude.{◌≡◌, ◌≢◌, ◌≤◌, ◌<◌, ◌+◌, [], ◌∷◌, ◌++◌, drop, take, length, Some, None, IfOk, IfSome, IfNone, OnErr, OnOk, if◌then◌else◌};
ghost use Rattle.std.specs.Option.{option_to_list};
ghost use Rattle.circular_buffer.specs.Buffer.{keep_last};
ghost use Rattle.scr_plan.specs.Limits.{most_packets, most_cores, longest_history};
ghost use Rattle.scr_plan.specs.Delays.{greatest_delay};
ghost use Rattle.scr_plan.specs.Link.{delay_in};
ghost use Rattle.scr_plan.specs.Plan.{Plan, frame_count};
ghost use Rattle.scr_plan.specs.Order.{has_beacon};
ghost use Rattle.scr_wire.specs.declared.message.Message.TheVariants.{Frame};
ghost use Rattle.scr_wire.specs.Spelling.{HasSpelling, Spells};
ghost use Rattle.scr_sequencer.specs.Sequence.{Sequence, IsSequence, begun, after, carried_next, arriving, next_frame};
ghost use Rattle.scr_sequencer.specs.Answers.{IsAnswer, Follows, IsNext, Adds, AddsFrom};

use crate::holding::{Held, hold_late, take_due};
use crate::outgoing::{Arriving, Outgoing};
use circular_buffer::HeapCircularBuffer;
use scr_base::{OutOfMemory, Row};
use scr_plan::Fate;
use scr_wire::{Packet, encode_frame};
use std::alloc::Global;
use std::marker::Model;

/// After how many numbers a beacon comes.
const BEACON: u32 = 256;

/// For how many steps frames are held: the greatest delay, and the step at hand.
const STEPS: usize = 1_001;

/// Numbers frames, gives them to the cores in turn, and attaches to each the rows of the packets before it.
#[derive(Drop)]
pub struct Sequencer {
    alloc: Global,
    cores: u32,
    history: u32,
    taken: u32,
    rows: HeapCircularBuffer<Row>,
    held: Held,
}

impl Model for Sequencer {
    ghost use Rattle.std.specs.Prelude.{◌≡◌, ◌+◌, map};
    ghost use Rattle.scr_sequencer.specs.Sequence.{Sequence, IsSequence, steps_ahead};

    ghost Value = { Sequence };

    ghost view = { λ sequencer. record {
      cores = sequencer.cores;
      history = sequencer.history;
      taken = sequencer.taken;
      rows = sequencer.rows.items;
      held = map (λ frames. frames.items) sequencer.held.items;
    } };

    ghost invariant = { λ sequencer. IsSequence (record {
      cores = sequencer.cores;
      history = sequencer.history;
      taken = sequencer.taken;
      rows = sequencer.rows.items;
      held = map (λ frames. frames.items) sequencer.held.items;
    }) × (sequencer.rows.capacity ≡ sequencer.history + 1) × (sequencer.held.capacity ≡ steps_ahead) };
}

// Two pieces without the first row.
fn without_first<'a>(front: &'a [Row], back: &'a [Row]) -> (&'a [Row], &'a [Row])
    requires { 1 ≤ length (front.now ++ back.now) }
    ensures { result.0.now ++ result.1.now ≡ drop 1 (front.now ++ back.now) }
{
    match front {
        [_, rest @ ..] => (rest, back),
        [] => (front, &back[1..]),
    }
}

// The last rows, in two pieces.
fn last_rows(rows: &HeapCircularBuffer<Row>, count: usize) -> (&[Row], &[Row])
    requires { length rows.now.items ≤ count + 1 }
    ensures { result.0.now ++ result.1.now ≡ keep_last count rows.now.items }
{
    let (front, back) = rows.as_slices();
    if front.len() + back.len() <= count {
        (front, back)
    } else {
        without_first(front, back)
    }
}

impl Sequencer {
    /// A sequencer for so many cores, whose frames carry so many packets before their own. No row was given yet.
    pub fn make(alloc: Global, cores: u32, history: u32) -> Result<Self, OutOfMemory>
        requires a_core { 1 ≤ cores }
        requires few_cores { cores ≤ most_cores }
        requires short_history { history ≤ longest_history }
        ensures { IfOk result (λ sequencer. sequencer ≡ begun cores history) }
    {
        let rows = HeapCircularBuffer::with_capacity(alloc, history as usize + 1)?;
        let mut held = HeapCircularBuffer::with_capacity(alloc, STEPS)?;
        for _ in 0..STEPS {
            held.push_back(Vec::new(alloc));
        }
        Ok(Sequencer {
            alloc,
            cores,
            history,
            taken: 0,
            rows,
            held,
        })
    }

    // The beacon before the next frame.
    fn beacon(&self) -> Option<u32>
        ensures { result ≡ (if has_beacon (self.now.taken + 1) then Some self.now.taken else None) }
    {
        (self.taken > 0 && self.taken % BEACON == 0).then_some(self.taken)
    }

    // The message of the next frame, whose row this is.
    fn packet(&self, row: &Row) -> Result<Packet, OutOfMemory>
        requires { self.now.taken < most_packets }
        ensures { IfOk result (Spells (Frame (self.now.taken + 1) (carried_next self.now row.now))) }
    {
        let (front, back) = last_rows(&self.rows, self.history as usize);
        encode_frame(self.alloc, self.taken + 1, front, back, row)
    }

    // The next frame, once or twice, on its way to its core.
    fn arriving(&self, row: &Row, twice: bool) -> Result<Arriving, OutOfMemory>
        requires { self.now.taken < most_packets }
        ensures frame { IfOk result (λ it. it ≡ arriving self.now row.now twice) }
        ensures fits { OnOk result (HasSpelling (Frame (self.now.taken + 1) (carried_next self.now row.now))) }
    {
        let copy = if twice { Some(self.packet(row)?) } else { None };
        Ok(Arriving {
            core: self.taken % self.cores,
            packet: self.packet(row)?,
            copy,
        })
    }

    // The next frame, where it arrives.
    fn frame(&self, row: &Row, fate: Fate) -> Result<Option<Arriving>, OutOfMemory>
        requires { self.now.taken < most_packets }
        ensures frame { IfOk result (λ frame. frame ≡ next_frame self.now row.now fate) }
        ensures fits { OnOk result (fate ≢ Fate.Lost → HasSpelling (Frame (self.now.taken + 1) (carried_next self.now row.now))) }
    {
        match fate {
            Fate::Lost => Ok(None),
            Fate::Once { .. } => Ok(Some(self.arriving(row, false)?)),
            Fate::Twice { .. } => Ok(Some(self.arriving(row, true)?)),
        }
    }

    // What the next step adds to the lanes.
    fn take(&mut self, row: Row, fate: Fate) -> Result<Outgoing, OutOfMemory>
        requires few { self.old.taken < most_packets }
        requires near { delay_in fate ≤ greatest_delay }
        ensures answer { IfOk result (IsAnswer self.old row fate) }
        ensures ok { OnOk result (self.new ≡ after self.old row fate) }
        ensures err { OnErr result (self.new ≡ self.old) }
    {
        let beacon = self.beacon();
        let frame = self.frame(&row, fate)?;
        let own = hold_late(&mut self.held, fate.delay(), frame)?;
        let late = take_due(self.alloc, &mut self.held);
        self.rows.push_back(row);
        self.taken += 1;
        Ok(Outgoing { beacon, own, late })
    }

    /// What the next step adds to the lanes: its packet has this row, and the link does this with its frame. After an
    /// error nothing has changed. A frame that comes once and in its turn costs one allocation, that of its packet.
    pub fn next(&mut self, row: Row, fate: Fate) -> Result<Outgoing, OutOfMemory>
        requires few { self.old.taken < most_packets }
        requires near { delay_in fate ≤ greatest_delay }
        ensures answer { IfOk result (IsAnswer self.old row fate) }
        ensures ok { OnOk result (self.new ≡ after self.old row fate) }
        ensures err { OnErr result (self.new ≡ self.old) }
        // Behind the first rows of a plan, its next row gives what the next step adds to the lanes of that plan.
        ensures lanes { (plan : Plan) → Follows plan self.old → IsNext plan self.old row fate → IfOk result (Adds plan (self.old.taken + 1)) × OnOk result (Follows plan self.new) }
    {
        self.take(row, fate)
    }

    /// What is held after the last row, and the number of the end, which is how many rows were given.
    pub fn finish(self) -> Rest
        ensures rest { result ≡ record { held = take greatest_delay self.held; end = self.taken } }
        // Behind the last row of a plan, these are what the later steps add to the lanes of that plan.
        ensures lanes { (plan : Plan) → Follows plan self → self.taken ≡ frame_count plan → AddsFrom plan (self.taken + 1) result.held × (length result.held ≡ greatest_delay) }
    {
        let mut held = self.held;
        held.pop_back();
        Rest {
            held,
            end: self.taken,
        }
    }
}

/// What goes out behind the last step.
#[derive(Drop)]
pub struct Rest {
    held: Held,
    end: u32,
}

impl Model for Rest {
    ghost use Rattle.std.specs.Prelude.{map};
    ghost use Rattle.scr_sequencer.specs.Answers.{Behind};

    ghost Value = { Behind };

    ghost view = { λ rest. record { held = map (λ frames. frames.items) rest.held.items; end = rest.end } };
}

impl Rest {
    /// The frames that come at the next step, where there is one.
    pub fn step(&mut self) -> Option<Vec<Arriving>>
        ensures some { IfSome result (λ frames. self.old.held ≡ frames.items ∷ self.new.held) }
        ensures none { IfNone result (self.old.held ≡ []) }
        ensures over { IfNone result (self.new ≡ self.old) }
        ensures end { self.new.end ≡ self.old.end }
    {
        self.held.pop_front()
    }

    /// The number of the end.
    pub fn end(&self) -> u32
        ensures { result ≡ self.now.end }
    {
        self.end
    }
}
