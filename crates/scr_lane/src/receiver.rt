//! The end that takes.
ghost use Rattle.std.specs.Prelude.{◌≡◌, ◌<◌, ◌^◌, [], true, false};
ghost use Rattle.std.specs.Arc.{arc_value};
ghost use Rattle.crossbeam_queue.specs.Fifo.{Pops};
ghost use Rattle.crossbeam_queue.specs.Passes.{view as knows, IsSamePass, IsPassOf};
ghost use Rattle.scr_lane.specs.declared.view.Role.TheVariants.{Receiver as ReceiverRole};
ghost use Rattle.scr_lane.specs.Views.{StandsAt};
ghost use Rattle.scr_lane.specs.LaneRule.{InLane, Takes};
ghost use Rattle.scr_lane.specs.Ends.{begun, moved, HasLooked, ShowsItem, FoundNothing, last_or};

use crate::counts::ReceiverTally;
use crate::course::{Course, LanePass, LaneQueue, Take};
use crate::ends::Line;
use crossbeam_utils::Backoff;
use std::alloc::Global;
use std::marker::Model;
use std::sync::{Arc, Wait};

/// The end of a lane that takes items, in order.
#[derive(Drop)]
pub struct Receiver<T: Drop, A, C: Course<T, A>> {
    line: Arc<Line<T, A, C>, Global>,
    pass: LanePass<T, A>,
    tally: ReceiverTally,
    capacity: u64,
    count: u64,
    // What the last look found. The other's count never falls, so an item that was seen once is still there.
    sent: u64,
}

impl<T: Drop, A, C: Course<T, A>> Model for Receiver<T, A, C> {
    ghost use Rattle.std.specs.Prelude.{◌≡◌, ◌<◌, ◌^◌};
    ghost use Rattle.std.specs.Arc.{arc_value};
    ghost use Rattle.crossbeam_queue.specs.Passes.{view as knows, IsPassOf};
    ghost use Rattle.scr_lane.specs.declared.view.Role.TheVariants.{Receiver as ReceiverRole};
    ghost use Rattle.scr_lane.specs.Views.{StandsAt};
    ghost use Rattle.scr_lane.specs.Ends.{End, last_or};

    ghost Value = { End A };

    ghost view = { λ e. record {
      lane = record { queue = e.pass.table_id; counts = e.tally.seat.table_id };
      about = (knows e.pass).about;
      capacity = e.capacity;
      count = e.count;
      looks = e.tally.seat.me.0.looks;
    } };

    ghost invariant = { λ e.
        (IsPassOf (arc_value e.line).queue e.pass)
        × (StandsAt ReceiverRole (knows e.pass) e.tally.seat.me.0 e.tally.seat.table_id (arc_value e.line).counts.table.shared.table_id e.capacity e.count)
        × (C.total (knows e.pass).about < 2 ^ 63)
        × (e.sent ≡ last_or 0 e.tally.seat.me.0.looks) };
}

// Tries until the queue gives an item.
fn fetch<T, A, C: Course<T, A>, R: Wait>(
    rt: &R,
    queue: &LaneQueue<T, A, C>,
    pass: &mut LanePass<T, A>,
) -> T
    requires queue { IsPassOf queue.now pass.old }
    requires rule { Pops (InLane C.total C.fits C.nothing) pass.old.id (knows pass.old) (Takes C.total C.fits (knows pass.old)) }
    ensures queue { IsSamePass pass.old pass.new }
    ensures rule { Takes C.total C.fits (knows pass.old) result (knows pass.new) }
{
    let pause = Backoff::new();
    for _ in rt.forever() {
        if let Some(item) = queue.try_pop_as::<Take<C>>(pass) {
            return item;
        }
        pause.snooze();
    }
    unreachable!()
}

impl<T: Drop, A, C: Course<T, A>> Receiver<T, A, C> {
    #[tactic(auto, using(crate::proofs::LastLook::last_or_none))]
    pub(crate) fn new(
        line: Arc<Line<T, A, C>, Global>,
        pass: LanePass<T, A>,
        seat: ReceiverTally,
        capacity: u32,
    ) -> Self
        requires pass { IsPassOf (arc_value line).queue pass }
        requires stands { StandsAt ReceiverRole (knows pass) seat.seat.me.0 seat.seat.table_id (arc_value line).counts.table.shared.table_id capacity 0 }
        requires unseen { seat.seat.me.0.looks ≡ [] }
        requires few { C.total (knows pass).about < 2 ^ 63 }
        ensures { result ≡ begun (record { queue = pass.table_id; counts = seat.seat.table_id }) (knows pass).about capacity }
    {
        Receiver {
            line,
            pass,
            tally: seat,
            capacity: u64::from(capacity),
            count: 0,
            sent: 0,
        }
    }

    /// Whether by the newest look more items were sent than were taken. It looks again where the last look shows none. It
    /// doesn't wait.
    #[tactic(auto, using(crate::proofs::LastLook::last_or_snoc))]
    pub fn has_item(&mut self) -> bool
        ensures same { HasLooked self.old self.new }
        ensures item { result ≡ true → ShowsItem self.new }
        ensures empty { result ≡ false → FoundNothing self.old self.new }
    {
        if self.count < self.sent {
            return true;
        }
        self.sent = self.tally.look(&self.line.counts);
        self.count < self.sent
    }

    /// Takes the lane's next item, which [`Receiver::has_item`] has shown.
    pub fn pop<R: Wait>(&mut self, rt: &R) -> T
        requires { ShowsItem self.old }
        ensures item { C.fits self.old.about self.old.count result }
        ensures count { self.new ≡ moved self.old }
    {
        let item = fetch(rt, &self.line.queue, &mut self.pass);
        self.count += 1;
        self.tally.store(&self.line.counts, &self.pass, self.count);
        item
    }
}
