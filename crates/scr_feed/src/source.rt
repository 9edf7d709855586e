ghost use Rattle.std.specs.Prelude.{◌≡◌, ◌<◌, ◌≤◌, ◌+◌, ℕ, Some, slice_get, OnOk, OnErr, IfOk, IfSome, IsSome, MatchOption};
ghost use Rattle.scr_plan.specs.Delays.{greatest_delay};
ghost use Rattle.scr_plan.specs.Link.{delay_in, fate_of};
ghost use Rattle.scr_plan.specs.Plan.{Plan, frame_count};
ghost use Rattle.scr_plan.specs.declared.link.Fate.{Fate};
ghost use Rattle.scr_wire.specs.Lane.{last_step};
ghost use Rattle.scr_sequencer.specs.Answers.{Adds, late};
ghost use Rattle.scr_feed.specs.Source.{Gives, TakesRow};

use scr_base::{OutOfMemory, Row};
use scr_plan::Fate;
use scr_sequencer::{Arriving, Outgoing, Rest, Sequencer};
use std::mem;

/// Where a feed takes frames from.
#[derive(Drop)]
pub enum Source {
    /// The rows, one after the other.
    Rows(Sequencer),
    /// Behind the last row, what was held back.
    Held(Rest),
    /// Nothing. It stands here only while the one before it becomes the next.
    Nothing,
}

// What is held behind the last row.
fn behind(source: Source) -> Option<Rest>
    ensures { (plan : Plan) (n : ℕ) → Gives plan n source → frame_count plan ≤ n → IfSome result (λ rest. Gives plan n (Source.Held rest)) × IsSome result }
{
    match source {
        Source::Rows(sequencer) => Some(sequencer.finish()),
        Source::Held(rest) => Some(rest),
        Source::Nothing => None,
    }
}

impl Source {
    /// What the next step adds, where there is a row more: its packet has this row, and the link does this with its frame.
    pub fn next(&mut self, row: Row, fate: Fate) -> Result<Outgoing, OutOfMemory>
        requires row { TakesRow self.old }
        requires near { delay_in fate ≤ greatest_delay }
        ensures err { OnErr result (self.new ≡ self.old) }
        ensures lanes { (plan : Plan) (n : ℕ) → Gives plan n self.old → slice_get plan.rows n ≡ Some row → fate ≡ fate_of plan.link (n + 1) → IfOk result (Adds plan (n + 1)) × OnOk result (Gives plan (n + 1) self.new) }
    {
        match self {
            Source::Rows(sequencer) => sequencer.next(row, fate),
            Source::Held(_) | Source::Nothing => unreachable!(),
        }
    }

    /// The frames of the next step behind the last row, where there is a step more.
    pub fn next_held(&mut self) -> Option<Vec<Arriving>>
        ensures { (plan : Plan) (n : ℕ) → Gives plan n self.old → frame_count plan ≤ n → MatchOption result ((n ≡ last_step plan) × Gives plan n self.new) (λ frames. (n < last_step plan) × Adds plan (n + 1) (late frames.items) × Gives plan (n + 1) self.new) }
    {
        let mut rest = behind(mem::replace(self, Source::Nothing))?;
        let frames = rest.step();
        *self = Source::Held(rest);
        frames
    }
}
