//! The lane of a core's verdicts: they leave by it while the core runs.
ghost use Rattle.std.specs.Prelude.{◌≡◌, ◌≤◌, ◌<◌, ◌^◌, List, length, IfOk, IfErr, OnOk, OnErr, IfSome, OnSome, IfNone};
ghost use Rattle.scr_replica.specs.OneCore.{course};
ghost use Rattle.scr_lane.specs.Ends.{most_waiting, begun, FoundNoRoom, FoundNothing};
ghost use Rattle.scr_crew.specs.Verdicts.{StandsIn, HasMoved};

use scr_base::OutOfMemory;
use scr_lane::{Course, Receiver, Sender, make_ends};
use scr_plan::{Given, RunPlan};
use scr_program::Program;
use scr_replica::Outlet;
use scr_wire::Packet;
use std::alloc::Global;
use std::marker::{Model, PhantomData};
use std::snapshot::Snapshot;
use std::sync::Wait;

/// Whose verdicts a lane carries. It keeps nothing of the run.
#[derive(Drop)]
pub struct CourseOf<P: Program> {
    settings: Snapshot<P::Settings>,
    plan: Snapshot<RunPlan>,
    core: u32,
}

impl<P: Program> Model for CourseOf<P> {
    ghost use Rattle.std.specs.Prelude.{List};
    ghost use Rattle.scr_plan.specs.declared.given.Given.{Given};
    ghost use Rattle.scr_replica.specs.OneCore.{course};

    ghost Value = { List Given };

    ghost view = { λ it. course (P.verdict_after it.settings.value) it.plan.value it.core };
}

impl<P: Program> CourseOf<P> {
    // A plan has few rows, so a core has few verdicts.
    fn of(settings: &P::Settings, plan: &RunPlan, core: u32) -> CourseOf<P>
        ensures course { result ≡ course (P.verdict_after settings.now) plan.now core }
        ensures few { length result < 2 ^ 63 }
    {
        let _rows = plan.rows();
        CourseOf {
            settings: Snapshot::of(settings),
            plan: Snapshot::of(plan),
            core,
        }
    }
}

/// A verdict lane carries the verdicts at the frames that are delivered to a core, in the order of the frames.
#[derive(Drop)]
pub struct Verdicts<P> {
    program: PhantomData<P>,
}

impl<P: Program> Course<Given, CourseOf<P>> for Verdicts<P> {
    ghost use Rattle.std.specs.Prelude.{[], length};
    ghost use Rattle.scr_crew.specs.Verdicts.{StandsIn};
    ghost use Rattle.scr_crew.specs.Verdicts.{stands_within};

    ghost total = { λ course. length course };

    ghost fits = { StandsIn };

    ghost nothing = { [] };

    ghost within = { stands_within };
}

/// The end of a verdict lane that a core gives its verdicts by.
#[derive(Drop)]
pub struct VerdictSend<P: Program> {
    end: Sender<Given, CourseOf<P>, Verdicts<P>>,
}

impl<P: Program> Model for VerdictSend<P> {
    ghost use Rattle.std.specs.Prelude.{List};
    ghost use Rattle.scr_plan.specs.declared.given.Given.{Given};
    ghost use Rattle.scr_lane.specs.Ends.{End};

    ghost Value = { End (List Given) };

    ghost view = { λ it. it.end };
}

/// The end of a verdict lane that the verdicts are taken by.
#[derive(Drop)]
pub struct VerdictReceive<P: Program> {
    end: Receiver<Given, CourseOf<P>, Verdicts<P>>,
}

impl<P: Program> Model for VerdictReceive<P> {
    ghost use Rattle.std.specs.Prelude.{List};
    ghost use Rattle.scr_plan.specs.declared.given.Given.{Given};
    ghost use Rattle.scr_lane.specs.Ends.{End};

    ghost Value = { End (List Given) };

    ghost view = { λ it. it.end };
}

/// The lane of a core's verdicts.
pub struct VerdictLane;

impl VerdictLane {
    /// Both ends of the verdict lane of this core, with room for so many verdicts. No call after this one takes memory.
    pub fn make<P: Program>(
        alloc: Global,
        settings: &P::Settings,
        plan: &RunPlan,
        core: u32,
        capacity: u32,
    ) -> Result<(VerdictSend<P>, VerdictReceive<P>), OutOfMemory>
        requires a_core { core < plan.now.cores }
        requires some_room { 1 ≤ capacity }
        requires little_room { capacity ≤ most_waiting }
        ensures one_lane { IfOk result (λ ends. ends.0.lane ≡ ends.1.lane) }
        ensures send { IfOk result (λ ends. ends.0 ≡ begun ends.0.lane (course (P.verdict_after settings.now) plan.now core) capacity) }
        ensures receive { IfOk result (λ ends. ends.1 ≡ begun ends.1.lane (course (P.verdict_after settings.now) plan.now core) capacity) }
    {
        let about = CourseOf::<P>::of(settings, plan, core);
        let (send, receive) = make_ends::<Given, CourseOf<P>, Verdicts<P>>(
            alloc, &about, capacity,
        )?;
        Ok((VerdictSend { end: send }, VerdictReceive { end: receive }))
    }
}

// Sends the item that comes next, or gives it back where the lane has no room. It names no program, so that a method of a
// trait may call it too.
fn offer<A, C: Course<Given, A>, R: Wait>(
    rt: &R,
    end: &mut Sender<Given, A, C>,
    given: Given,
) -> Result<(), Given>
    requires { C.fits end.old.about end.old.count given }
    ensures sent { OnOk result (HasMoved end.old end.new) }
    ensures back { IfErr result (λ back. back ≡ given) }
    ensures full { OnErr result (FoundNoRoom end.old end.new) }
{
    if !end.has_room() {
        return Err(given);
    }
    end.push(rt, given);
    Ok(())
}

impl<P: Program> VerdictSend<P> {
    /// Sends the verdict that comes next, where the lane has room by its newest look. It may wait for the queue, and not for
    /// room.
    ///
    /// # Errors
    /// Where this call's own look found as many verdicts under way as there may be. The verdict comes back.
    pub fn push<R: Wait>(&mut self, rt: &R, given: Given) -> Result<(), Given>
        requires { StandsIn self.old.about self.old.count given }
        ensures sent { OnOk result (HasMoved self.old self.new) }
        ensures back { IfErr result (λ back. back ≡ given) }
        ensures full { OnErr result (FoundNoRoom self.old self.new) }
    {
        offer(rt, &mut self.end, given)
    }
}

impl<P: Program> VerdictReceive<P> {
    /// Takes the verdict that comes next. None where this call's own look found no verdict more than were taken. It may wait
    /// for the queue, and not for a verdict.
    pub fn pop<R: Wait>(&mut self, rt: &R) -> Option<Given>
        ensures next { IfSome result (StandsIn self.old.about self.old.count) }
        ensures taken { OnSome result (HasMoved self.old self.new) }
        ensures empty { IfNone result (FoundNothing self.old self.new) }
    {
        if !self.end.has_item() {
            return None;
        }
        Some(self.end.pop(rt))
    }
}

/// A core gives its verdicts to the lane, one by one.
impl<P: Program> Outlet for VerdictSend<P> {
    ghost use Rattle.scr_crew.specs.Verdicts.{IsToGet};

    ghost Awaits = { IsToGet };

    fn give<R: Wait>(&mut self, rt: &R, given: Given) -> Result<bool, OutOfMemory> {
        Ok(offer(rt, &mut self.end, given).is_ok())
    }

    fn take_back(&mut self, spent: Packet) {
        drop(spent);
    }
}
