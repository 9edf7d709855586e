ghost use Rattle.std.specs.Prelude.{◌≡◌, ◌<◌, ◌≤◌, true, [], ◌∷◌, length, take, slice_get, Some, IfOk, OnOk, OnErr, IsOk, MatchOption};
ghost use Rattle.std.specs.List.{IsDistinct};
ghost use Rattle.std.specs.Map.{keys_of, remove_entry};
ghost use Rattle.scr_flows.specs.Flows.{list_of, IsAbsent, IsAt};

use crate::order::Order;
use indexmap::IndexMap;
use scr_base::OutOfMemory;
use std::alloc::Global;
use std::hash::Hash;
use std::marker::Model;

/// The flows that were used last: a key and an entry each, at a place that stays its own while it is there.
#[derive(Drop)]
pub struct Flows<K: Eq + Hash + Copy + Drop, V: Copy + Drop> {
    map: IndexMap<K, V>,
    order: Order,
    most: u32,
}

impl<K: Eq + Hash + Copy + Drop, V: Copy + Drop> Model for Flows<K, V> {
    ghost use Rattle.scr_flows.specs.Flows.{Known, known_code, IsKnown};
    ghost use Rattle.indexmap.specs.IndexMap.{spare};

    ghost Value = { Known K V };

    ghost coded = { known_code K.code V.code };

    ghost view = { λ f. record { most = f.most; pairs = f.map.entries; places = f.order.places; spare = spare f.map } };

    ghost invariant = { λ f. IsKnown K.eq f.most f.map.entries f.order.end f.order.places };
}

impl<K: Eq + Hash + Copy + Drop, V: Copy + Drop> Flows<K, V> {
    /// No flows, and at most so many. Their memory is taken at once, and that for one more, so that there is room in full
    /// flows too: a new one is put in before the one that was used longest ago goes.
    pub fn make(alloc: Global, most: u32) -> Result<Self, OutOfMemory>
        requires { 1 ≤ most }
        ensures flows { IfOk result (λ flows. (flows.most ≡ most) × (list_of flows ≡ [])) }
        ensures room { IfOk result (λ flows. flows.most < flows.spare) }
    {
        Ok(Flows {
            map: IndexMap::with_capacity(alloc, most as usize + 1)?,
            order: Order::new(alloc, most)?,
            most,
        })
    }

    /// How many flows there are.
    pub fn len(&self) -> u32
        ensures len { result ≡ length (list_of self.now) }
        ensures few { result ≤ self.now.most }
        ensures distinct { IsDistinct K.eq (keys_of (list_of self.now)) }
    {
        self.order.len()
    }

    /// The place of a key.
    #[inline(always)]
    pub fn place_of(&self, key: &K) -> Option<usize>
        ensures { MatchOption result (IsAbsent K.eq self.now key.now) (IsAt K.eq self.now key.now) }
    {
        self.map.get_index_of(key)
    }

    /// Whether the flow at a place has this key.
    #[inline(always)]
    pub fn is_at(&self, place: usize, key: &K) -> bool
        ensures { result ≡ true → IsAt K.eq self.now key.now place }
    {
        match self.map.get_index(place) {
            Some((held, _)) => held == key,
            None => false,
        }
    }

    /// The place of a key, which is compared with that of the flow at the place `likely` before it is hashed.
    #[inline(always)]
    pub fn find(&self, likely: usize, key: &K) -> Option<usize>
        ensures { MatchOption result (IsAbsent K.eq self.now key.now) (IsAt K.eq self.now key.now) }
    {
        if self.is_at(likely, key) {
            Some(likely)
        } else {
            self.place_of(key)
        }
    }

    /// The entry at a place.
    #[inline(always)]
    pub fn entry(&self, place: usize) -> V
        requires { place < length self.now.pairs }
        ensures { (pair : K × V) → slice_get self.now.pairs place ≡ Some pair → result ≡ pair.1 }
    {
        self.map[place]
    }

    /// Gives the flow at a place this entry, and makes it the most recently used.
    #[inline(always)]
    pub fn use_at(&mut self, place: usize, entry: V)
        requires { place < length self.old.pairs }
        ensures list { (pair : K × V) → slice_get self.old.pairs place ≡ Some pair → list_of self.new ≡ take self.old.most ((pair.0, entry) ∷ remove_entry (K.eq pair.0) (list_of self.old)) }
        ensures most { self.new.most ≡ self.old.most }
        ensures spare { self.new.spare ≡ self.old.spare }
    {
        self.map[place] = entry;
        let place = place as u32;
        if place != self.order.first() {
            self.order.take_out(place);
            self.order.put_first(place);
        }
    }

    /// Whether memory was taken for one more key.
    #[inline(always)]
    pub fn has_room(&self) -> bool
        ensures room { result ≡ true → 0 < self.now.spare }
        ensures none { 0 < self.now.spare → result ≡ true }
    {
        self.map.len() < self.map.capacity()
    }

    /// Takes the memory that one more key may need.
    ///
    /// # Errors
    /// Nothing changes.
    pub fn reserve(&mut self) -> Result<(), OutOfMemory>
        ensures flows { self.new ≡ record self.old { spare = self.new.spare } }
        ensures ok { OnOk result (0 < self.new.spare) }
        ensures succeeds { 0 < self.old.spare → IsOk result }
    {
        self.map.reserve(1)?;
        Ok(())
    }

    /// Puts a new flow in front. Where there are as many as may be, the one that was used longest ago goes. Answers its place.
    ///
    /// # Errors
    /// The flows are as they were. There is none where memory was taken before.
    pub fn add(&mut self, key: K, entry: V) -> Result<usize, OutOfMemory>
        requires { IsAbsent K.eq self.old key }
        ensures list { OnOk result (list_of self.new ≡ take self.old.most ((key, entry) ∷ list_of self.old)) }
        ensures err { OnErr result (list_of self.new ≡ list_of self.old) }
        ensures most { self.new.most ≡ self.old.most }
        ensures succeeds { 0 < self.old.spare → IsOk result }
    {
        self.map.reserve(1)?;
        let count = self.map.len();
        self.map.insert(key, entry)?;
        if count < self.most as usize {
            self.order.put_first(count as u32);
            return Ok(count);
        }
        let last = self.order.last();
        self.map.swap_remove_index(last as usize);
        self.order.take_out(last);
        self.order.put_first(last);
        Ok(last as usize)
    }
}
