ghost use Rattle.std.specs.Prelude.{◌≡◌, ◌≤◌, ◌<◌, ◌+◌, ℕ, All, length, slice_index_or, IfOk};
ghost use Rattle.scr_plan.specs.Delays.{greatest_delay};
ghost use Rattle.scr_plan.specs.Link.{fate_of, delay_in};
ghost use Rattle.scr_plan.specs.declared.link.Fate.{Fate};
ghost use Rattle.scr_plan.specs.Limits.{most_packets, most_cores, longest_history};
ghost use Rattle.scr_plan.specs.Plan.{Plan, IsPlan};
ghost use Rattle.scr_plan.specs.Kept.{carries_to};
ghost use Rattle.scr_plan.specs.FinalEntry.{final_entry};

use crate::carrying::core_of;
use crate::link::{Fate, Link};
use scr_base::{OutOfMemory, Row};
use std::alloc::Global;
use std::marker::Model;

/// What a run is made of: the rows of its packets, the cores, how many earlier packets a frame carries besides its own,
/// and the link that the frames go over.
#[derive(Debug, Drop)]
pub struct RunPlan {
    rows: Vec<Row>,
    cores: u32,
    history: u32,
    link: Link,
}

impl Model for RunPlan {
    ghost Value = { Plan };

    ghost view = { λ plan. record {
      rows = plan.rows.items;
      cores = plan.cores;
      history = plan.history;
      link = plan.link;
    } };

    ghost invariant = { λ plan. IsPlan (record {
      rows = plan.rows.items;
      cores = plan.cores;
      history = plan.history;
      link = plan.link;
    }) };
}

impl RunPlan {
    /// The plan with these parts. Row 1 stands first.
    pub fn make(rows: Vec<Row>, cores: u32, history: u32, link: Link) -> Self
        requires few_rows { length rows.items ≤ most_packets }
        requires a_core { 1 ≤ cores }
        requires few_cores { cores ≤ most_cores }
        requires short_history { history ≤ longest_history }
        ensures rows { result.rows ≡ rows.items }
        ensures cores { result.cores ≡ cores }
        ensures history { result.history ≡ history }
        ensures link { result.link ≡ link }
        ensures ranges { IsPlan result }
    {
        RunPlan {
            rows,
            cores,
            history,
            link,
        }
    }

    /// The rows, from packet 1 on.
    pub fn rows(&self) -> &[Row]
        ensures rows { result.now ≡ self.now.rows }
        ensures ranges { IsPlan self.now }
    {
        &self.rows
    }

    /// How many cores there are.
    pub fn cores(&self) -> u32
        ensures cores { result ≡ self.now.cores }
        ensures ranges { IsPlan self.now }
    {
        self.cores
    }

    /// How many packets before its own a frame carries.
    pub fn history(&self) -> u32
        ensures history { result ≡ self.now.history }
        ensures ranges { IsPlan self.now }
    {
        self.history
    }

    /// What lies between the sequencer and the cores.
    pub fn link(&self) -> &Link
        ensures link { result.now ≡ self.now.link }
        ensures ranges { IsPlan self.now }
    {
        &self.link
    }

    /// What becomes of each frame on the link, from frame 1 on. The link's lists are gone through once.
    pub fn fates(&self, alloc: Global) -> Result<Vec<Fate>, OutOfMemory>
        ensures count { IfOk result (λ fates. length fates.items ≡ length self.now.rows) }
        ensures fates { IfOk result (λ fates. (k : ℕ) (d : Fate) → k < length self.now.rows → slice_index_or fates.items k d ≡ fate_of self.now.link (k + 1)) }
        ensures near { IfOk result (λ fates. All (λ fate. delay_in fate ≤ greatest_delay) fates.items) }
        ensures ranges { IsPlan self.now }
    {
        self.link.fates(alloc, self.rows.len())
    }

    /// Whether a frame that is delivered to this core carries packet p.
    pub fn carries(&self, core: u32, p: u32) -> bool
        requires a_packet { 1 ≤ p }
        requires of_the_run { p ≤ length self.now.rows }
        ensures answer { result ≡ carries_to self.now core p }
        ensures ranges { IsPlan self.now }
    {
        let count = self.rows.len() as u32;
        let last = count.min(p + self.history);
        for frame in p..last + 1 {
            if core_of(frame, self.cores) == core && self.link.delivered(self.cores, count, frame) {
                return true;
            }
        }
        false
    }

    /// The row of packet p, where a frame that is delivered to this core carries it. Else the packet is lost to the
    /// core, which then has to ask the others.
    pub fn final_entry(&self, core: u32, p: u32) -> Option<Row>
        requires a_packet { 1 ≤ p }
        requires of_the_run { p ≤ length self.now.rows }
        ensures entry { result ≡ final_entry self.now core p }
        ensures ranges { IsPlan self.now }
    {
        if self.carries(core, p) {
            Some(self.rows[p as usize - 1])
        } else {
            None
        }
    }
}
