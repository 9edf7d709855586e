ghost use Rattle.std.specs.Prelude.{◌≡◌, ◌≤◌, ◌<◌, ◌∷◌, [], map, false, ◌+◌, IfOk, OnOk, OnErr, IfSome, IfNone, MatchOption};
ghost use Rattle.scr_plan.specs.Plan.{frame_count};
ghost use Rattle.scr_wire.specs.Spelling.{spelling};
ghost use Rattle.scr_lane.specs.Ends.{most_waiting};
ghost use Rattle.scr_feed.specs.Feeding.{Feeding, IsFeeding};
ghost use Rattle.scr_feed.specs.Left.{NoneToAll};
ghost use Rattle.scr_feed.specs.Steps.{StepTells};
ghost use Rattle.scr_feed.specs.declared.step.Step.TheVariants.{Taken};
ghost use Rattle.scr_feed.specs.Made.{AreLanes};

use crate::making::make_lanes;
use crate::offering::offer;
use crate::source::Source;
use crate::step::Step;
use crate::to_all::{ToAll, beacon_to_all, packet_to_all};
use crate::waiting::{second, take_first};
use scr_base::OutOfMemory;
use scr_lane::{ReceiveEnd, SendEnd};
use scr_plan::{Fate, RunPlan};
use scr_sequencer::{Arriving, Sequencer};
use scr_wire::Packet;
use std::alloc::Global;
use std::marker::Model;
use std::sync::Wait;

/// Gives the lanes of a plan their messages.
#[derive(Drop)]
pub struct Feed<'a> {
    alloc: Global,
    plan: &'a RunPlan,
    fates: Vec<Fate>,
    source: Source,
    taken: u32,
    ended: bool,
    ends: Vec<SendEnd>,
    // A message for the lanes of all cores from one on, and then frames, each for the lane of its core.
    to_all: ToAll,
    from: u32,
    own: Option<Arriving>,
    late: Vec<Arriving>,
}

impl<'a> Model for Feed<'a> {
    ghost use Rattle.std.specs.Prelude.{◌≡◌, ◌<◌, ◌≤◌, ◌+◌, ◌++◌, ℕ, All, length, slice_index_or};
    ghost use Rattle.std.specs.Option.{option_to_list};
    ghost use Rattle.scr_plan.specs.Delays.{greatest_delay};
    ghost use Rattle.scr_plan.specs.Link.{fate_of, delay_in};
    ghost use Rattle.scr_plan.specs.Plan.{frame_count};
    ghost use Rattle.scr_plan.specs.declared.link.Fate.{Fate};
    ghost use Rattle.scr_feed.specs.Left.{messages_of};
    ghost use Rattle.scr_feed.specs.Source.{Gives};
    ghost use Rattle.scr_feed.specs.Feeding.{Feeding, IsFeeding};

    ghost Value = { Feeding };

    ghost view = { λ feed. record {
      plan = feed.plan.now;
      taken = feed.taken;
      ended = feed.ended;
      ends = feed.ends.items;
      left = record { to_all = messages_of feed.to_all; from = feed.from; frames = option_to_list feed.own ++ feed.late.items };
    } };

    ghost invariant = { λ feed. IsFeeding (record {
      plan = feed.plan.now;
      taken = feed.taken;
      ended = feed.ended;
      ends = feed.ends.items;
      left = record { to_all = messages_of feed.to_all; from = feed.from; frames = option_to_list feed.own ++ feed.late.items };
    })
        × Gives feed.plan.now feed.taken feed.source
        × (length feed.fates.items ≡ frame_count feed.plan.now)
        × ((k : ℕ) (d : Fate) → k < frame_count feed.plan.now → slice_index_or feed.fates.items k d ≡ fate_of feed.plan.now.link (k + 1))
        × All (λ fate. delay_in fate ≤ greatest_delay) feed.fates.items };
}

impl<'a> Feed<'a> {
    /// A feed that has sent nothing, and the receiving ends of the lanes, core by core. Each lane has room for so many
    /// packets.
    pub fn make(
        alloc: Global,
        plan: &'a RunPlan,
        capacity: u32,
    ) -> Result<(Feed<'a>, Vec<ReceiveEnd>), OutOfMemory>
        requires some_room { 1 ≤ capacity }
        requires little_room { capacity ≤ most_waiting }
        ensures plan { IfOk result (λ made. made.0.plan ≡ plan.now) }
        ensures taken { IfOk result (λ made. made.0.taken ≡ 0) }
        ensures ended { IfOk result (λ made. made.0.ended ≡ false) }
        ensures ends { IfOk result (λ made. AreLanes plan.now capacity plan.now.cores made.0.ends made.1.items) }
        ensures feed { IfOk result (λ made. IsFeeding made.0) }
    {
        let fates = plan.fates(alloc)?;
        let sequencer = Sequencer::make(alloc, plan.cores(), plan.history())?;
        let (ends, receives) = make_lanes(alloc, plan, capacity)?;
        let feed = Feed {
            alloc,
            plan,
            fates,
            source: Source::Rows(sequencer),
            taken: 0,
            ended: false,
            ends,
            to_all: ToAll::Nothing,
            from: 0,
            own: None,
            late: Vec::new(alloc),
        };
        Ok((feed, receives))
    }

    // The packet that is still to be sent to the lanes of all cores from one on.
    fn next_to_all(&self) -> Result<Option<Packet>, OutOfMemory>
        ensures feed { IsFeeding self.now }
        ensures packet { IfOk result (λ packet. MatchOption packet (NoneToAll self.now.plan.cores self.now.left)
            (λ bytes. (self.now.left.from < self.now.plan.cores) × (map spelling self.now.left.to_all ≡ bytes ∷ []))) }
    {
        if self.from as usize >= self.ends.len() {
            return Ok(None);
        }
        packet_to_all(self.alloc, self.to_all)
    }

    // Sends this packet to the lane whose turn it is.
    fn send_to_all<R: Wait>(&mut self, rt: &R, packet: Packet) -> Step
        requires turn { self.old.left.from < self.old.plan.cores }
        requires packet { map spelling self.old.left.to_all ≡ packet ∷ [] }
        ensures tells { StepTells self.old self.new result }
        ensures feed { IsFeeding self.new }
    {
        let core = self.from;
        if offer(rt, &mut self.ends[core as usize], packet).is_err() {
            return Step::Full { core };
        }
        self.from += 1;
        Step::Sent { core }
    }

    // Sends the next packet for one core, where one is left.
    fn send_to_one<R: Wait>(&mut self, rt: &R) -> Option<Step>
        requires { NoneToAll self.old.plan.cores self.old.left }
        ensures tells { IfSome result (StepTells self.old self.new) }
        ensures same { IfNone result (self.new ≡ self.old) }
        ensures none { IfNone result (self.old.left.frames ≡ []) }
        ensures feed { IsFeeding self.new }
    {
        let Arriving { core, packet, copy } = take_first(&mut self.own, &mut self.late)?;
        match offer(rt, &mut self.ends[core as usize], packet) {
            Ok(()) => {
                self.own = second(core, copy);
                Some(Step::Sent { core })
            }
            Err(packet) => {
                self.own = Some(Arriving { core, packet, copy });
                Some(Step::Full { core })
            }
        }
    }

    // Takes what the next step adds, which has a row.
    fn take_row(&mut self) -> Result<(), OutOfMemory>
        requires all { NoneToAll self.old.plan.cores self.old.left }
        requires one { self.old.left.frames ≡ [] }
        requires more { (self.old.taken < frame_count self.old.plan) × (self.old.ended ≡ false) }
        ensures ok { OnOk result ((self.new ≡ record self.old { taken = self.new.taken; left = self.new.left }) × (self.new.taken ≡ self.old.taken + 1)) }
        ensures err { OnErr result (self.new ≡ self.old) }
        ensures feed { IsFeeding self.new }
    {
        let place = self.taken as usize;
        let next = self
            .source
            .next(self.plan.rows()[place], self.fates[place])?;
        self.to_all = beacon_to_all(next.beacon);
        self.from = 0;
        self.own = next.own;
        self.late = next.late;
        self.taken += 1;
        Ok(())
    }

    // Takes what the next step adds behind the last row, or the end behind the last step.
    fn take_behind(&mut self)
        requires all { NoneToAll self.old.plan.cores self.old.left }
        requires one { self.old.left.frames ≡ [] }
        requires last { (frame_count self.old.plan ≤ self.old.taken) × (self.old.ended ≡ false) }
        ensures tells { StepTells self.old self.new Taken }
        ensures feed { IsFeeding self.new }
    {
        match self.source.next_held() {
            Some(frames) => {
                self.to_all = ToAll::Nothing;
                self.own = None;
                self.late = frames;
                self.taken += 1;
            }
            None => {
                self.to_all = ToAll::End {
                    number: self.plan.rows().len() as u32,
                };
                self.from = 0;
                self.ended = true;
            }
        }
    }

    // Takes what comes next, where nothing is left.
    fn take_next(&mut self) -> Result<Step, OutOfMemory>
        requires all { NoneToAll self.old.plan.cores self.old.left }
        requires one { self.old.left.frames ≡ [] }
        ensures tells { IfOk result (StepTells self.old self.new) }
        ensures err { OnErr result (self.new ≡ self.old) }
        ensures feed { IsFeeding self.new }
    {
        if self.ended {
            return Ok(Step::Done);
        }
        if (self.taken as usize) < self.plan.rows().len() {
            self.take_row()?;
        } else {
            self.take_behind();
        }
        Ok(Step::Taken)
    }

    /// Sends the next packet, or takes what the next step adds to the lanes where nothing is left to be sent.
    pub fn step<R: Wait>(&mut self, rt: &R) -> Result<Step, OutOfMemory>
        ensures tells { IfOk result (StepTells self.old self.new) }
        ensures err { OnErr result (self.new ≡ self.old) }
        ensures feed { IsFeeding self.new }
    {
        if let Some(packet) = self.next_to_all()? {
            return Ok(self.send_to_all(rt, packet));
        }
        match self.send_to_one(rt) {
            Some(step) => Ok(step),
            None => self.take_next(),
        }
    }
}
