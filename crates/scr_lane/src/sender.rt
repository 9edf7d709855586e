//! The end that sends.
ghost use Rattle.std.specs.Prelude.{◌≡◌, ◌<◌, ◌^◌, [], true, false};
ghost use Rattle.std.specs.Arc.{arc_value};
ghost use Rattle.crossbeam_queue.specs.Fifo.{Pushes};
ghost use Rattle.crossbeam_queue.specs.Passes.{view as knows, IsSamePass, IsPassOf, ruled_capacity};
ghost use Rattle.scr_lane.specs.declared.view.Role.TheVariants.{Sender as SenderRole};
ghost use Rattle.scr_lane.specs.Views.{StandsAt};
ghost use Rattle.scr_lane.specs.LaneRule.{InLane, Sends, one_more};
ghost use Rattle.scr_lane.specs.Ends.{begun, moved, HasLooked, ShowsRoom, FoundNoRoom, last_or};

use crate::counts::SenderTally;
use crate::course::{Course, LanePass, LaneQueue, Send};
use crate::ends::Line;
use crossbeam_utils::Backoff;
use std::alloc::Global;
use std::marker::Model;
use std::sync::{Arc, Wait};

/// The end of a lane that sends items, in order.
#[derive(Drop)]
pub struct Sender<T: Drop, A, C: Course<T, A>> {
    line: Arc<Line<T, A, C>, Global>,
    pass: LanePass<T, A>,
    tally: SenderTally,
    capacity: u64,
    count: u64,
    // What the last look found. The other's count never falls, so room that was seen once is still there.
    taken: u64,
}

impl<T: Drop, A, C: Course<T, A>> Model for Sender<T, A, C> {
    ghost use Rattle.std.specs.Prelude.{◌≡◌, ◌<◌, ◌^◌};
    ghost use Rattle.std.specs.Arc.{arc_value};
    ghost use Rattle.crossbeam_queue.specs.Passes.{view as knows, IsPassOf, ruled_capacity};
    ghost use Rattle.scr_lane.specs.declared.view.Role.TheVariants.{Sender as SenderRole};
    ghost use Rattle.scr_lane.specs.Views.{StandsAt};
    ghost use Rattle.scr_lane.specs.Ends.{End, last_or};

    ghost Value = { End A };

    ghost view = { λ e. record {
      lane = record { queue = e.pass.table_id; counts = e.tally.seat.table_id };
      about = (knows e.pass).about;
      capacity = e.capacity;
      count = e.count;
      looks = e.tally.seat.me.0.looks;
    } };

    ghost invariant = { λ e.
        (IsPassOf (arc_value e.line).queue e.pass)
        × (StandsAt SenderRole (knows e.pass) e.tally.seat.me.0 e.tally.seat.table_id (arc_value e.line).counts.table.shared.table_id e.capacity e.count)
        × (ruled_capacity (arc_value e.line).queue ≡ e.capacity)
        × (C.total (knows e.pass).about < 2 ^ 63)
        × (0 < e.capacity)
        × (e.taken ≡ last_or 0 e.tally.seat.me.0.looks) };
}

// Tries until the queue takes the item.
fn put<T, A, C: Course<T, A>, R: Wait>(
    rt: &R,
    queue: &LaneQueue<T, A, C>,
    pass: &mut LanePass<T, A>,
    mut item: T,
)
    requires queue { IsPassOf queue.now pass.old }
    requires rule { Pushes (InLane C.total C.fits C.nothing) (ruled_capacity queue.now) pass.old.id (knows pass.old) item (Sends (knows pass.old) item) }
    ensures queue { IsSamePass pass.old pass.new }
    ensures rule { knows pass.new ≡ one_more (knows pass.old) }
{
    let pause = Backoff::new();
    for _ in rt.forever() {
        match queue.try_push_as::<Send>(pass, item) {
            Ok(()) => return,
            Err(back) => item = back,
        }
        pause.snooze();
    }
    unreachable!()
}

impl<T: Drop, A, C: Course<T, A>> Sender<T, A, C> {
    #[tactic(auto, using(crate::proofs::LastLook::last_or_none))]
    pub(crate) fn new(
        line: Arc<Line<T, A, C>, Global>,
        pass: LanePass<T, A>,
        seat: SenderTally,
        capacity: u32,
    ) -> Self
        requires pass { IsPassOf (arc_value line).queue pass }
        requires queue { ruled_capacity (arc_value line).queue ≡ capacity }
        requires stands { StandsAt SenderRole (knows pass) seat.seat.me.0 seat.seat.table_id (arc_value line).counts.table.shared.table_id capacity 0 }
        requires unseen { seat.seat.me.0.looks ≡ [] }
        requires few { C.total (knows pass).about < 2 ^ 63 }
        requires room { 0 < capacity }
        ensures { result ≡ begun (record { queue = pass.table_id; counts = seat.seat.table_id }) (knows pass).about capacity }
    {
        Sender {
            line,
            pass,
            tally: seat,
            capacity: u64::from(capacity),
            count: 0,
            taken: 0,
        }
    }

    /// Whether by the newest look fewer items are under way than there may be. It looks again where the last look shows no
    /// room. It doesn't wait.
    #[tactic(auto, using(crate::proofs::LastLook::last_or_snoc))]
    pub fn has_room(&mut self) -> bool
        ensures same { HasLooked self.old self.new }
        ensures room { result ≡ true → ShowsRoom self.new }
        ensures full { result ≡ false → FoundNoRoom self.old self.new }
    {
        if self.count.saturating_sub(self.taken) < self.capacity {
            return true;
        }
        self.taken = self.tally.look(&self.line.counts);
        self.count.saturating_sub(self.taken) < self.capacity
    }

    /// Sends the lane's next item, for which [`Sender::has_room`] has shown room.
    pub fn push<R: Wait>(&mut self, rt: &R, item: T)
        requires next { C.fits self.old.about self.old.count item }
        requires room { ShowsRoom self.old }
        ensures { self.new ≡ moved self.old }
    {
        put(rt, &self.line.queue, &mut self.pass, item);
        self.count += 1;
        self.tally.store(&self.line.counts, &self.pass, self.count);
    }
}
