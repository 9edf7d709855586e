//! What a lane carries, and the rule of its queue.
use crate::view::Hand;
use crossbeam_queue::protocol::{Outcome, Protocol, Split};
use crossbeam_queue::{Pass, RuledArrayQueue};
use std::marker::{Brand, PhantomData};

/// What a lane carries: items of type `T`, of which what the lane is about says which stands where.
pub trait Course<T, A> {
    ghost use Rattle.std.specs.Prelude.{ℕ, ◌<◌};

    /// How many items there are.
    ghost total: { A → ℕ };

    /// The item may stand at this place, counted from 0.
    ghost fits: { A → ℕ → T → Type 0 };

    /// What a queue is about before its ends are parted. It means nothing.
    ghost nothing: { A };

    /// No item stands behind the last.
    ghost within: { (about : A) (place : ℕ) (item : T) → fits about place item → place < total about };
}

/// What was taken, what is under way and what was sent follow one another in the lane.
pub struct LaneRule<C> {
    course: PhantomData<C>,
}

impl<T, A, C: Course<T, A>> Protocol<T, Hand<A>> for LaneRule<C> {
    ghost use Rattle.scr_lane.specs.Views.{blank};
    ghost use Rattle.scr_lane.specs.LaneRule.{InLane};

    ghost holds = { InLane C.total C.fits C.nothing };

    ghost first = { blank C.nothing };
}

/// The queue of a lane, and what one end knows of it.
pub type LaneQueue<T, A, C> = RuledArrayQueue<T, Hand<A>, LaneRule<C>>;

pub type LanePass<T, A> = Pass<T, Hand<A>>;

/// A push.
pub struct Send;

impl<T, A> Outcome<T, Hand<A>> for Send {
    ghost use Rattle.scr_lane.specs.LaneRule.{Sends};

    ghost then = { Sends };
}

/// A pop.
pub struct Take<C> {
    course: PhantomData<C>,
}

impl<T, A, C: Course<T, A>> Outcome<T, Hand<A>> for Take<C> {
    ghost use Rattle.scr_lane.specs.LaneRule.{Takes};

    ghost then = { Takes C.total C.fits };
}

/// What a new lane is about, and its capacity. Each call that makes a lane picks them.
pub trait Cut<A> {
    ghost use Rattle.std.specs.Prelude.{ℕ, Option};

    ghost about: { Option A };

    ghost capacity: { ℕ };
}

impl<A> Cut<A> for Brand {
    ghost use Rattle.std.specs.Prelude.{None};

    ghost about = { None };

    ghost capacity = { 0 };
}

/// The one pass of a new queue is cut into the two ends.
pub struct Parting<B> {
    cut: PhantomData<B>,
}

impl<A, B: Cut<A>> Split<Hand<A>> for Parting<B> {
    ghost use Rattle.scr_lane.specs.declared.view.Role.TheVariants.{Sender, Receiver};
    ghost use Rattle.scr_lane.specs.Views.{hand};
    ghost use Rattle.scr_lane.specs.LaneRule.{picked_or};

    ghost left = { λ v. hand Sender (picked_or v.about B.about) B.capacity 0 };

    ghost right = { λ v. hand Receiver (picked_or v.about B.about) B.capacity 0 };
}
