//! The two words beside a queue: how many items the sender has sent, and how many the receiver has taken.
ghost use Rattle.std.specs.Prelude.{◌≡◌, ◌≤◌, ℕ, List, [], ◌∷◌, ◌++◌, IfOk};
ghost use Rattle.scr_lane.specs.declared.view.Role.TheVariants.{Sender, Receiver};
ghost use Rattle.crossbeam_queue.specs.Passes.{view as knows};
ghost use Rattle.scr_lane.specs.Views.{tally};

use crate::course::LanePass;
use crate::view::Tally;
use atomic_table::{Play, Seat, Split, Table, TableRule};
use std::alloc::{AllocError, Global};

/// The words lie two cache lines apart, so that a store to one doesn't slow down loads of what lies by the other.
const SENT: usize = 0;

const TAKEN: usize = 16;

const WORDS: [u64; 17] = [0; 17];

/// Each word grows, and no end has seen more of the other's than stands there.
pub struct CountsRule;

impl TableRule<(), Tally, ()> for CountsRule {
    ghost use Rattle.std.specs.Prelude.{[]};
    ghost use Rattle.scr_lane.specs.declared.view.Role.TheVariants.{Both};
    ghost use Rattle.scr_lane.specs.Views.{tally};
    ghost use Rattle.scr_lane.specs.CountsRule.{KeepsCounts};

    ghost holds = { λ _. KeepsCounts };

    ghost first = { λ _. tally Both 0 [] };
}

struct Store;

impl Play<(), Tally> for Store {
    ghost use Rattle.scr_lane.specs.CountsRule.{Stores};

    ghost then = { Stores };
}

struct Look;

impl Play<(), Tally> for Look {
    ghost use Rattle.scr_lane.specs.CountsRule.{Looks};

    ghost then = { Looks };
}

struct Parting;

impl Split<Tally> for Parting {
    ghost use Rattle.std.specs.Prelude.{[]};
    ghost use Rattle.scr_lane.specs.declared.view.Role.TheVariants.{Sender, Receiver};
    ghost use Rattle.scr_lane.specs.Views.{tally};

    ghost left = { λ _. tally Sender 0 [] };

    ghost right = { λ _. tally Receiver 0 [] };
}

/// The two words, which both ends share.
#[derive(Drop)]
pub struct Counts {
    table: Table<(), Tally, (), CountsRule, Global>,
    ghost sized: { table.shared.table_id.words ≡ 17 },
}

/// The sender's seat: it stores the sent word and looks at the taken word. It has no bytes.
#[derive(Drop)]
pub struct SenderTally {
    seat: Seat<(), Tally>,
    ghost sends: { seat.me.0.role ≡ Sender },
}

/// The receiver's seat: it stores the taken word and looks at the sent word. It has no bytes.
#[derive(Drop)]
pub struct ReceiverTally {
    seat: Seat<(), Tally>,
    ghost takes: { seat.me.0.role ≡ Receiver },
}

impl Counts {
    /// Both words at 0, and a seat for each end.
    pub fn begin(alloc: Global) -> Result<(Counts, SenderTally, ReceiverTally), AllocError>
        ensures sender { IfOk result (λ c. (c.1.seat.table_id ≡ c.0.table.shared.table_id) × (c.1.seat.me.0 ≡ tally Sender 0 [])) }
        ensures receiver { IfOk result (λ c. (c.2.seat.table_id ≡ c.0.table.shared.table_id) × (c.2.seat.me.0 ≡ tally Receiver 0 [])) }
    {
        let (table, mut seat) = Table::of_words(alloc, &WORDS, &())?;
        let other = table.shared.split_seat::<Parting>(&mut seat);
        Ok((
            Counts { table },
            SenderTally { seat },
            ReceiverTally { seat: other },
        ))
    }
}

impl SenderTally {
    /// Stores how many items were sent. The pass shows that they were.
    pub fn store<T, A>(&mut self, counts: &Counts, pass: &LanePass<T, A>, sent: u64)
        requires shown { (knows pass.now).count ≡ sent }
        requires table { self.old.seat.table_id ≡ counts.now.table.shared.table_id }
        requires grows { self.old.seat.me.0.stored ≤ sent }
        ensures table { self.new.seat.table_id ≡ self.old.seat.table_id }
        ensures stored { self.new.seat.me.0 ≡ tally Sender sent self.old.seat.me.0.looks }
    {
        let _ = pass;
        counts
            .table
            .shared
            .store::<Store>(&mut self.seat, SENT, sent);
    }

    /// Looks how many items were taken.
    pub fn look(&mut self, counts: &Counts) -> u64
        requires table { self.old.seat.table_id ≡ counts.now.table.shared.table_id }
        ensures table { self.new.seat.table_id ≡ self.old.seat.table_id }
        ensures look { self.new.seat.me.0 ≡ tally Sender self.old.seat.me.0.stored (self.old.seat.me.0.looks ++ result ∷ []) }
    {
        counts.table.shared.load::<Look>(&mut self.seat, TAKEN)
    }
}

impl ReceiverTally {
    /// Stores how many items were taken. The pass shows that they were.
    pub fn store<T, A>(&mut self, counts: &Counts, pass: &LanePass<T, A>, taken: u64)
        requires shown { (knows pass.now).count ≡ taken }
        requires table { self.old.seat.table_id ≡ counts.now.table.shared.table_id }
        requires grows { self.old.seat.me.0.stored ≤ taken }
        ensures table { self.new.seat.table_id ≡ self.old.seat.table_id }
        ensures stored { self.new.seat.me.0 ≡ tally Receiver taken self.old.seat.me.0.looks }
    {
        let _ = pass;
        counts
            .table
            .shared
            .store::<Store>(&mut self.seat, TAKEN, taken);
    }

    /// Looks how many items were sent.
    pub fn look(&mut self, counts: &Counts) -> u64
        requires table { self.old.seat.table_id ≡ counts.now.table.shared.table_id }
        ensures table { self.new.seat.table_id ≡ self.old.seat.table_id }
        ensures look { self.new.seat.me.0 ≡ tally Receiver self.old.seat.me.0.stored (self.old.seat.me.0.looks ++ result ∷ []) }
    {
        counts.table.shared.load::<Look>(&mut self.seat, SENT)
    }
}
