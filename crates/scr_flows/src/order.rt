ghost use Rattle.std.specs.Prelude.{◌≡◌, ℕ, ◌<◌, List, [], ◌∷◌, ◌++◌, length, Contains, IfOk};
ghost use Rattle.scr_flows.specs.Ring.{first_or, last_or};

use scr_base::OutOfMemory;
use std::alloc::Global;
use std::marker::Model;

/// Places below a bound, each at most once, the most recently used first.
///
/// A contract sees the bound (`end`) and the places.
#[derive(Drop)]
pub struct Order {
    // At each place the one behind it and the one before it. At `end` the first and the last: the links are a ring.
    older: Vec<u32>,
    newer: Vec<u32>,
    end: u32,
    len: u32,
}

impl Model for Order {
    ghost use Rattle.std.specs.Prelude.{◌+◌, ◌≤◌};
    ghost use Rattle.scr_flows.specs.Order.{Places, places_code, walk};
    ghost use Rattle.scr_flows.specs.Ring.{IsRing};

    ghost Value = { Places };

    ghost coded = { places_code };

    ghost view = { λ o. record { end = o.end; places = walk o.older.items o.end o.len } };

    ghost invariant = { λ o. IsRing o.older.items o.newer.items o.end (walk o.older.items o.end o.len) };
}

impl Order {
    /// No places, of those below `end`.
    pub fn new(alloc: Global, end: u32) -> Result<Self, OutOfMemory>
        ensures { IfOk result (λ order. order ≡ record { end = end; places = [] }) }
    {
        let count = end as usize + 1;
        Ok(Order {
            older: vec![in alloc; end; count]?,
            newer: vec![in alloc; end; count]?,
            end,
            len: 0,
        })
    }

    /// How many places there are.
    #[inline(always)]
    pub fn len(&self) -> u32
        ensures { result ≡ length self.now.places }
    {
        self.len
    }

    /// The place that was used last, or `end` where there is none.
    #[inline(always)]
    pub fn first(&self) -> u32
        ensures { result ≡ first_or self.now.places self.now.end }
    {
        self.older[self.end as usize]
    }

    /// The place that was used longest ago, or `end` where there is none.
    #[inline(always)]
    pub fn last(&self) -> u32
        ensures { result ≡ last_or self.now.end self.now.places }
    {
        self.newer[self.end as usize]
    }

    /// Takes a place out.
    #[inline(always)]
    pub fn take_out(&mut self, place: u32)
        requires { Contains self.old.places place }
        ensures places { (before after : List ℕ) → self.old.places ≡ before ++ place ∷ after → self.new.places ≡ before ++ after }
        ensures end { self.new.end ≡ self.old.end }
    {
        let older = self.older[place as usize];
        let newer = self.newer[place as usize];
        self.older[newer as usize] = older;
        self.newer[older as usize] = newer;
        self.len -= 1;
    }

    /// Puts a place in front that isn't there.
    #[inline(always)]
    pub fn put_first(&mut self, place: u32)
        requires below { place < self.old.end }
        requires absent { Contains self.old.places place → ⊥ }
        requires fits { length self.old.places < self.old.end }
        ensures { self.new ≡ record self.old { places = place ∷ self.old.places } }
    {
        let first = self.older[self.end as usize];
        self.older[place as usize] = first;
        self.newer[place as usize] = self.end;
        self.older[self.end as usize] = place;
        self.newer[first as usize] = place;
        self.len += 1;
    }
}
