//! Verdicts are taken from the lanes of all cores in the order of the frames.
ghost use Rattle.std.specs.Prelude.{◌≡◌, ◌+◌, ◌≤◌, ◌^◌, false, ◌<◌, List, [], length, slice_set, slice_index_or, IfOk};
ghost use Rattle.scr_base.specs.declared.row.Row.{Row};
ghost use Rattle.scr_base.specs.declared.row.Verdict.{Verdict};
ghost use Rattle.scr_plan.specs.declared.given.Given.{Given};
ghost use Rattle.scr_plan.specs.Delivered.{delivers};
ghost use Rattle.scr_plan.specs.Plan.{Plan, frame_count};
ghost use Rattle.scr_crew.specs.Cores.{OfCores};
ghost use Rattle.scr_crew.specs.Verdicts.{IsNewVerdictEnd};
ghost use Rattle.scr_crew.specs.Takings.{FrontTells, AreToCome, ReadyTells};

use crate::arrivals::{Arrivals, Front};
use crate::verdict_lane::VerdictReceive;
use scr_base::OutOfMemory;
use scr_plan::{Given, RunPlan, core_of};
use scr_program::Program;
use std::alloc::Global;
use std::marker::Model;
use std::sync::Wait;

/// What there is for the frame whose turn it is.
#[derive(Clone, Copy, Debug, PartialEq, Eq)]
pub enum Ready {
    /// Its verdict. The next frame's turn comes.
    Given(Given),
    /// The frame isn't delivered. The next frame's turn comes.
    Passed,
    /// Its verdict isn't there yet.
    NotYet,
    /// No frame is left.
    All,
}

/// Takes the verdicts of all cores, in the order of the frames.
#[derive(Drop)]
pub struct Taking<P: Program> {
    arrivals: Vec<Arrivals<P>>,
    next: u32,
    // The next frame is known to be delivered.
    awaited: bool,
}

impl<P: Program> Model for Taking<P> {
    ghost use Rattle.scr_crew.specs.Takings.{Takings};

    ghost Value = { Takings };

    ghost view = { λ it. record { next = it.next; to_come = it.arrivals.items } };
}

// Takes the verdict of frame n by the lane of its core, where it is the one that comes next there.
#[inline]
fn take_of<P: Program, R: Wait>(rt: &R, arrivals: &mut [Arrivals<P>], core: usize, n: u32) -> Front
    requires { core < length arrivals.old }
    ensures { (after : List Given) × (arrivals.new ≡ slice_set arrivals.old core after) × FrontTells n (slice_index_or arrivals.old core []) after result }
{
    arrivals[core].take_at(rt, n)
}

impl<P: Program> Taking<P> {
    /// Nothing is taken by these ends, which stand core by core.
    pub fn by(alloc: Global, ends: Vec<VerdictReceive<P>>) -> Result<Self, OutOfMemory>
        ensures coming { (verdict_after : List Row → Row → Verdict) (plan : Plan) → OfCores (IsNewVerdictEnd verdict_after plan) plan.cores ends.items
            → IfOk result (AreToCome verdict_after plan) }
        ensures next { IfOk result (λ it. it.next ≡ 1) }
    {
        let mut arrivals = Vec::with_capacity(alloc, ends.len())?;
        for end in ends {
            arrivals.push(Arrivals::by(end))?;
        }
        Ok(Taking {
            arrivals,
            next: 1,
            awaited: false,
        })
    }

    // The next frame's turn comes.
    #[inline]
    fn pass(&mut self)
        requires { self.old.next < 2 ^ 31 }
        ensures { self.new ≡ record self.old { next = self.old.next + 1 } }
    {
        self.next += 1;
        self.awaited = false;
    }

    /// Takes the verdict of the frame whose turn it is, where it is there. Whether a frame is delivered is asked only where
    /// the lane of its core is empty, and once.
    #[inline]
    pub fn take_next<R: Wait>(&mut self, rt: &R, plan: &RunPlan) -> Ready
        requires { (verdict_after : List Row → Row → Verdict) × AreToCome verdict_after plan.now self.old }
        ensures { (verdict_after : List Row → Row → Verdict) → AreToCome verdict_after plan.now self.old → ReadyTells verdict_after plan.now self.old self.new result }
    {
        let n = self.next;
        let frames = plan.rows().len() as u32;
        if n > frames {
            return Ready::All;
        }
        let core = core_of(n, plan.cores()) as usize;
        match take_of(rt, &mut self.arrivals, core, n) {
            Front::Its(given) => {
                self.pass();
                Ready::Given(given)
            }
            Front::Later => {
                self.pass();
                Ready::Passed
            }
            Front::Empty if self.awaits(plan, frames) => Ready::NotYet,
            Front::Empty => {
                self.pass();
                Ready::Passed
            }
        }
    }

    // Whether the frame whose turn it is, of so many, is delivered.
    fn awaits(&mut self, plan: &RunPlan, frames: u32) -> bool
        requires frames { frames ≡ frame_count plan.now }
        requires next { (1 ≤ self.old.next) × (self.old.next ≤ frames) }
        ensures no { result ≡ false → delivers plan.now self.old.next ≡ false }
        ensures same { self.new ≡ self.old }
    {
        if !self.awaited {
            self.awaited = plan.link().delivered(plan.cores(), frames, self.next);
        }
        self.awaited
    }
}
