//! The two ends of a lane, whatever it carries.
ghost use Rattle.std.specs.Prelude.{◌≡◌, ◌<◌, ◌^◌, Some, IfOk};
ghost use Rattle.crossbeam_queue.specs.Passes.{view as knows, IsSamePass, IsPassOf, ruled_capacity};
ghost use Rattle.scr_lane.specs.declared.view.Role.TheVariants.{Sender as SenderRole, Receiver as ReceiverRole};
ghost use Rattle.scr_lane.specs.Views.{hand, blank};
ghost use Rattle.scr_lane.specs.Ends.{begun};

use crate::counts::Counts;
use crate::course::{Course, Cut, LanePass, LaneQueue, Parting};
use crate::receiver::Receiver;
use crate::sender::Sender;
use std::alloc::{AllocError, Global};
use std::marker::Brand;
use std::sync::Arc;

/// What the two ends of a lane share.
#[derive(Drop)]
pub struct Line<T, A, C: Course<T, A>> {
    pub(crate) queue: LaneQueue<T, A, C>,
    pub(crate) counts: Counts,
}

// Cuts the pass of a new queue into the ends of a lane.
fn part<T, A, C: Course<T, A>, B: Cut<A>>(
    queue: &LaneQueue<T, A, C>,
    pass: &mut LanePass<T, A>,
    about: &A,
    capacity: u32,
) -> LanePass<T, A>
    requires queue { IsPassOf queue.now pass.old × (knows pass.old ≡ blank C.nothing) }
    requires picked { (B.about ≡ Some about.now) × (B.capacity ≡ capacity) }
    ensures same { IsSamePass pass.old pass.new × IsPassOf queue.now result }
    ensures sender { knows pass.new ≡ hand SenderRole about.now capacity 0 }
    ensures receiver { knows result ≡ hand ReceiverRole about.now capacity 0 }
{
    queue.another::<Parting<B>>(pass)
}

/// The two ends of a new lane, whose queue has room for so many items. All memory of the lane is taken here.
pub fn make_ends<T: Drop, A, C: Course<T, A>>(
    alloc: Global,
    about: &A,
    capacity: u32,
) -> Result<(Sender<T, A, C>, Receiver<T, A, C>), AllocError>
    requires room { 0 < capacity }
    requires few { C.total about.now < 2 ^ 63 }
    ensures one_lane { IfOk result (λ ends. ends.0.lane ≡ ends.1.lane) }
    ensures sender { IfOk result (λ ends. ends.0 ≡ begun ends.0.lane about.now capacity) }
    ensures receiver { IfOk result (λ ends. ends.1 ≡ begun ends.1.lane about.now capacity) }
{
    let (queue, mut pass) = LaneQueue::<T, A, C>::ruled(alloc, capacity as usize)?;
    let other = part::<T, A, C, Brand>(&queue, &mut pass, about, capacity);
    let (counts, sending, receiving) = Counts::begin(alloc)?;
    let line = Arc::new(alloc, Line { queue, counts })?;
    let theirs = Arc::try_clone(&line)?;
    Ok((
        Sender::new(line, pass, sending, capacity),
        Receiver::new(theirs, other, receiving, capacity),
    ))
}
