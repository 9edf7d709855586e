ghost use Rattle.std.specs.Prelude.{◌≡◌, true, ◌≤◌, ◌⊎◌, ◌+◌, ◌<◌, [], Option, None, length, slice_get, Some, IfOk, OnOk, OnErr, IsOk, IsSome, IfSome, MatchOption};
ghost use Rattle.std.specs.List.{IsDistinct};
ghost use Rattle.std.specs.Map.{lookup, keys_of};
ghost use Rattle.scr_flows.specs.Flows.{list_of, IsAbsent, IsAt};
ghost use Rattle.scr_program.specs.FlowList.{set_key, entered_list};

use crate::key::FlowKey;
use crate::ready::Ready;
use scr_base::OutOfMemory;
use scr_flows::Flows;
use std::alloc::Global;
use std::marker::Model;

/// The most flows that a table may hold.
pub const MOST_FLOWS: u32 = 65_536;

/// The flows that were used last: a key and an entry each.
///
/// A contract sees the most flows that there may be, the list of flows with the most recently used first, the ready key,
/// for which the memory of a [`FlowTable::set`] was taken before, and how many more keys memory was taken for.
#[derive(Drop)]
pub struct FlowTable<K: FlowKey, V: Copy + Drop> {
    flows: Flows<K, V>,
    // Where a key is looked for first: the place of the ready key, or that of the newest.
    likely: usize,
    // A ready key that is a flow's isn't copied: its place tells it.
    ready: Ready,
    apart: Option<K>,
}

impl<K: FlowKey, V: Copy + Drop> Model for FlowTable<K, V> {
    ghost use Rattle.scr_flows.specs.Flows.{list_of};
    ghost use Rattle.scr_program.specs.FlowTable.{Table, table_code};
    ghost use Rattle.scr_program.specs.Kept.{IsReady, ready_key};

    ghost Value = { Table K V };

    ghost coded = { table_code K.code V.code };

    ghost view = { λ t. record { flows = t.flows.most; list = list_of t.flows; ready = ready_key t.flows t.likely t.apart t.ready; spare = t.flows.spare } };

    ghost invariant = { λ t. IsReady K.eq t.flows (ready_key t.flows t.likely t.apart t.ready) };
}

impl<K: FlowKey, V: Copy + Drop> FlowTable<K, V> {
    /// An empty table that holds so many flows at most. No key is ready, but memory is taken for one flow more than it holds.
    pub fn make(alloc: Global, flows: u32) -> Result<Self, OutOfMemory>
        requires some { 1 ≤ flows }
        requires few { flows ≤ MOST_FLOWS }
        ensures table { IfOk result (λ table. table ≡ record { flows = flows; list = []; ready = None; spare = table.spare }) }
        ensures room { IfOk result (λ table. table.flows < table.spare) }
    {
        Ok(FlowTable {
            flows: Flows::make(alloc, flows)?,
            likely: 0,
            ready: Ready::Nothing,
            apart: None,
        })
    }

    /// The entry of a key. The order stays.
    #[inline(always)]
    pub fn look(&self, key: &K) -> Option<V>
        ensures { result ≡ lookup (K.eq key.now) self.now.list }
    {
        entry_at(&self.flows, self.flows.find(self.likely, key))
    }

    /// How many flows there are. Their keys are distinct.
    pub fn len(&self) -> u32
        ensures len { result ≡ length self.now.list }
        ensures few { result ≤ self.now.flows }
        ensures distinct { IsDistinct K.eq (keys_of self.now.list) }
    {
        self.flows.len()
    }

    /// Whether memory was taken for one more key, whichever it is.
    #[inline(always)]
    pub fn has_room(&self) -> bool
        ensures room { result ≡ true → 0 < self.now.spare }
        ensures none { 0 < self.now.spare → result ≡ true }
    {
        self.flows.has_room()
    }

    /// Gives a key this entry, and makes it the most recently used. In a full table the least recently used flow goes
    /// where the key is new. No key is ready afterwards.
    ///
    /// # Errors
    /// The flows are as they were. A key that is a flow's, or is ready, meets no error, and none does where there is room.
    pub fn set(&mut self, key: K, entry: V) -> Result<(), OutOfMemory>
        ensures set { OnOk result (self.new.list ≡ set_key K.eq self.old.flows self.old.list key entry) }
        ensures err { OnErr result (self.new.list ≡ self.old.list) }
        ensures flows { self.new.flows ≡ self.old.flows }
        ensures ready { self.new.ready ≡ None }
        ensures known_succeeds { IsSome (lookup (K.eq key) self.old.list) → IsOk result }
        ensures ready_succeeds { self.old.ready ≡ Some key → IsOk result }
        ensures room_succeeds { 0 < self.old.spare → IsOk result }
    {
        self.update(&key, |_| (entry, ()))
    }

    /// Gives a key the entry that `next` makes of the one it has, and makes it the most recently used, as [`FlowTable::set`]
    /// does. Answers what `next` tells besides. A key that is a flow's is looked up once.
    ///
    /// # Errors
    /// As [`FlowTable::set`] has them; `next` was called.
    #[inline(always)]
    pub fn update<T: Drop, F: FnOnce(Option<V>) -> (V, T)>(
        &mut self,
        key: &K,
        next: F,
    ) -> Result<T, OutOfMemory>
        requires { F.IsAlwaysCallable next }
        ensures updated { IfOk result (λ told. (entry : V) × F.post next (lookup (K.eq key.now) self.old.list) (entry, told)
            × (self.new.list ≡ set_key K.eq self.old.flows self.old.list key.now entry)) }
        ensures err { OnErr result (self.new.list ≡ self.old.list) }
        ensures flows { self.new.flows ≡ self.old.flows }
        ensures ready { self.new.ready ≡ None }
        ensures known_succeeds { IsSome (lookup (K.eq key.now) self.old.list) → IsOk result }
        ensures ready_succeeds { self.old.ready ≡ Some key.now → IsOk result }
        ensures room_succeeds { 0 < self.old.spare → IsOk result }
    {
        self.ready = Ready::Nothing;
        let place = self.flows.find(self.likely, key);
        let (entry, told) = next(entry_at(&self.flows, place));
        self.likely = enter(&mut self.flows, place, key, entry)?;
        Ok(told)
    }

    /// Gives a key the entry that `next` makes of the one it has, as [`FlowTable::update`] does. Where `next` makes none,
    /// nothing changes, the order included.
    ///
    /// # Errors
    /// As [`FlowTable::update`] has them.
    #[inline(always)]
    pub fn update_where<T: Drop, F: FnOnce(Option<V>) -> (Option<V>, T)>(
        &mut self,
        key: &K,
        next: F,
    ) -> Result<T, OutOfMemory>
        requires { F.IsAlwaysCallable next }
        ensures updated { IfOk result (λ told. (after : Option V) × F.post next (lookup (K.eq key.now) self.old.list) (after, told)
            × (self.new.list ≡ entered_list K.eq self.old.flows self.old.list key.now after)) }
        ensures err { OnErr result (self.new.list ≡ self.old.list) }
        ensures flows { self.new.flows ≡ self.old.flows }
        ensures known_succeeds { IsSome (lookup (K.eq key.now) self.old.list) → IsOk result }
        ensures ready_succeeds { self.old.ready ≡ Some key.now → IsOk result }
        ensures room_succeeds { 0 < self.old.spare → IsOk result }
    {
        let place = self.flows.find(self.likely, key);
        let (after, told) = next(entry_at(&self.flows, place));
        let Some(entry) = after else {
            return Ok(told);
        };
        self.ready = Ready::Nothing;
        self.likely = enter(&mut self.flows, place, key, entry)?;
        Ok(told)
    }

    /// Makes a key ready, in place of the one that was: takes the memory that its `set` may need. The flows and their
    /// order stay as they are, also in a full table. A key that is a flow's needs none.
    ///
    /// # Errors
    /// No key is ready then. A key that is a flow's, or is ready, meets no error, and none does where there is room.
    #[inline(always)]
    pub fn prepare(&mut self, key: K) -> Result<(), OutOfMemory>
        ensures ok { OnOk result (self.new ≡ record self.old { ready = Some key; spare = self.new.spare }) }
        ensures err { OnErr result (self.new ≡ record self.old { ready = None; spare = self.new.spare }) }
        ensures known_succeeds { IsSome (lookup (K.eq key) self.old.list) → IsOk result }
        ensures ready_succeeds { self.old.ready ≡ Some key → IsOk result }
        ensures room_succeeds { 0 < self.old.spare → IsOk result }
    {
        let Some(place) = self.flows.find(self.likely, &key) else {
            return self.prepare_new(key);
        };
        self.likely = place;
        self.ready = Ready::Likely;
        Ok(())
    }

    // The same of a key that is no flow's.
    #[cold]
    #[inline(never)]
    fn prepare_new(&mut self, key: K) -> Result<(), OutOfMemory>
        requires { lookup (K.eq key) self.old.list ≡ None }
        ensures ok { OnOk result (self.new ≡ record self.old { ready = Some key; spare = self.new.spare }) }
        ensures err { OnErr result (self.new ≡ record self.old { ready = None; spare = self.new.spare }) }
        ensures ready_succeeds { self.old.ready ≡ Some key → IsOk result }
        ensures room_succeeds { 0 < self.old.spare → IsOk result }
    {
        self.ready = Ready::Nothing;
        self.flows.reserve()?;
        self.apart = Some(key);
        self.ready = Ready::Apart;
        Ok(())
    }
}

// The entry at a place, where there is one.
#[inline(always)]
fn entry_at<K: FlowKey, V: Copy + Drop>(flows: &Flows<K, V>, place: Option<usize>) -> Option<V>
    requires { IfSome place (λ at. at < length flows.now.pairs) }
    ensures { MatchOption place (result ≡ None) (λ at. (pair : K × V) → slice_get flows.now.pairs at ≡ Some pair → result ≡ Some pair.1) }
{
    match place {
        Some(place) => Some(flows.entry(place)),
        None => None,
    }
}

// Gives the key at a place, or a new one, this entry, and puts it in front. Answers its place.
#[inline(always)]
fn enter<K: FlowKey, V: Copy + Drop>(
    flows: &mut Flows<K, V>,
    place: Option<usize>,
    key: &K,
    entry: V,
) -> Result<usize, OutOfMemory>
    requires { MatchOption place (IsAbsent K.eq flows.old key.now) (IsAt K.eq flows.old key.now) }
    ensures set { OnOk result (list_of flows.new ≡ set_key K.eq flows.old.most (list_of flows.old) key.now entry) }
    ensures err { OnErr result (list_of flows.new ≡ list_of flows.old) }
    ensures most { flows.new.most ≡ flows.old.most }
    ensures known_succeeds { IsSome (lookup (K.eq key.now) (list_of flows.old)) → IsOk result }
    ensures spare_succeeds { 0 < flows.old.spare → IsOk result }
{
    let Some(place) = place else {
        return add(flows, *key, entry);
    };
    flows.use_at(place, entry);
    Ok(place)
}

// Puts a new flow in front. It stands apart, as a step mostly finds its key.
#[cold]
#[inline(never)]
fn add<K: FlowKey, V: Copy + Drop>(
    flows: &mut Flows<K, V>,
    key: K,
    entry: V,
) -> Result<usize, OutOfMemory>
    requires { IsAbsent K.eq flows.old key }
    ensures set { OnOk result (list_of flows.new ≡ set_key K.eq flows.old.most (list_of flows.old) key entry) }
    ensures err { OnErr result (list_of flows.new ≡ list_of flows.old) }
    ensures most { flows.new.most ≡ flows.old.most }
    ensures spare_succeeds { 0 < flows.old.spare → IsOk result }
{
    flows.add(key, entry)
}
