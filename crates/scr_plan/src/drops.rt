ghost use Rattle.std.specs.Prelude.{◌≡◌, ◌≤◌, ◌<◌, ◌+◌, ℕ, false, ◌||◌, List, [], All, length, slice_index_or, MatchResult, IfOk, None, IfSome};
ghost use Rattle.scr_plan.specs.Drops.{IsDropList, IsRange, has_number, range_has};
ghost use Rattle.scr_plan.specs.Spelling.{SpellsRanges, RefusedBy};
ghost use Rattle.scr_plan.specs.declared.drops.DropRange.{DropRange};

use crate::reading::{DropError, read_ranges};
use scr_base::OutOfMemory;
use std::alloc::Global;
use std::marker::Model;

/// Frame numbers in equal steps: `first`, `first + step`, and so on up to `last`.
#[derive(Clone, Copy, Debug, PartialEq, Eq)]
pub struct DropRange {
    /// The first number.
    pub first: u32,
    /// No number is above this one.
    pub last: u32,
    /// From one number to the next.
    pub step: u32,
}

impl DropRange {
    fn has(&self, n: u32) -> bool
        requires { 1 ≤ self.now.step }
        ensures { result ≡ range_has self.now n }
    {
        self.first <= n && n <= self.last && (n - self.first) % self.step == 0
    }

    // Marks the numbers that it has, of those from 1 on.
    fn mark(&self, marks: &mut [bool])
        requires { IsRange self.now }
        ensures { (k : ℕ) → k < length marks.old → slice_index_or marks.new k false ≡ (slice_index_or marks.old k false || range_has self.now (k + 1)) }
    {
        let last = (self.last as usize).min(marks.len());
        let mut n = self.first as usize;
        while n <= last {
            marks[n - 1] = true;
            n += self.step as usize;
        }
    }

    // The range that has the numbers of both, where the other one goes in the same steps and begins at a number of this
    // one.
    fn joined(&self, other: &DropRange) -> Option<DropRange>
        requires own { IsRange self.now }
        requires other { IsRange other.now }
        ensures range { IfSome result IsRange }
        ensures numbers { IfSome result (λ both. (n : ℕ) → range_has both n ≡ (range_has self.now n || range_has other.now n)) }
        ensures apart { result ≡ None → self.now.step ≡ other.now.step → range_has self.now other.now.first ≡ false }
    {
        if self.step != other.step || !self.has(other.first) {
            return None;
        }
        Some(DropRange {
            first: self.first,
            last: self.last.max(other.last),
            step: self.step,
        })
    }

    // Ranges sorted by this have each that can be joined to another behind it: they go in the same steps, from the same
    // remainder on, and the first number grows.
    fn rank(&self) -> (u32, Option<u32>, u32) {
        (self.step, self.first.checked_rem(self.step), self.first)
    }
}

// Marks the numbers of these ranges, of those from 1 on. Where one can be joined to those before it, they are gone
// through as one.
fn mark_all(ranges: &[DropRange], marks: &mut [bool])
    requires { All IsRange ranges.now }
    ensures { (k : ℕ) → k < length marks.old → slice_index_or marks.new k false ≡ (slice_index_or marks.old k false || has_number ranges.now (k + 1)) }
{
    let Some((first, others)) = ranges.split_first() else {
        return;
    };
    let mut whole = *first;
    for next in others {
        match whole.joined(next) {
            Some(both) => whole = both,
            None => {
                whole.mark(marks);
                whole = *next;
            }
        }
    }
    whole.mark(marks);
}

/// The frames that are dropped on their way to the cores.
#[derive(Debug, Drop)]
pub struct Drops {
    ranges: Vec<DropRange>,
}

impl Model for Drops {
    ghost Value = { List DropRange };

    ghost view = { λ drops. drops.ranges.items };

    ghost invariant = { λ drops. IsDropList drops.ranges.items };
}

impl Drops {
    /// No frame is dropped.
    pub fn none(alloc: Global) -> Self
        ensures { result ≡ [] }
    {
        Drops {
            ranges: Vec::new(alloc),
        }
    }

    /// The list that a text spells: it is empty, or pieces parted by commas, each `a`, `a-b` (from a to b) or `a-b/s`
    /// (in steps of s). Numbers are decimal, of any length and with any zeros in front.
    pub fn read(alloc: Global, text: &[u8]) -> Result<Self, DropError>
        ensures { MatchResult result (λ drops. SpellsRanges text.now drops) (λ error. RefusedBy text.now error) }
    {
        let ranges = read_ranges(alloc, text)?;
        Ok(Drops { ranges })
    }

    /// Whether one of the ranges has this number.
    pub fn has(&self, n: u32) -> bool
        ensures answer { result ≡ has_number self.now n }
        ensures ranges { IsDropList self.now }
    {
        for range in &self.ranges {
            if range.has(n) {
                return true;
            }
        }
        false
    }

    /// Of the numbers from 1 to `count`, in order, whether one of the ranges has each. Ranges that overlap in the same
    /// steps are gone through as one, so no number is marked twice by ranges of one step. It costs the numbers times the
    /// steps that have as many ranges as remainders, and 256 ranges are too few for 23 such steps.
    pub fn marks(&self, alloc: Global, count: usize) -> Result<Vec<bool>, OutOfMemory>
        ensures count { IfOk result (λ marks. length marks.items ≡ count) }
        ensures marks { IfOk result (λ marks. (k : ℕ) → k < count → slice_index_or marks.items k false ≡ has_number self.now (k + 1)) }
    {
        let mut marks = vec![in alloc; false; count]?;
        let mut sorted = Vec::from_slice(alloc, &self.ranges)?;
        sorted.sort_unstable_by_key(DropRange::rank);
        mark_all(&sorted, &mut marks);
        Ok(marks)
    }
}
