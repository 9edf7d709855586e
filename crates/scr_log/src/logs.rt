ghost use Rattle.std.specs.Prelude.{◌≡◌, ◌≤◌, IfOk};
ghost use Rattle.scr_log.specs.Layout.{most_slots, word_count};
ghost use Rattle.scr_log.specs.Passes.{IsLogs, first_pass};

use crate::pass::FreePass;
use crate::places::core_words;
use crate::rule::LogRules;
use crate::view::{About, PassView};
use atomic_table::Table;
use scr_base::OutOfMemory;
use scr_plan::RunPlan;
use std::alloc::Global;
use std::marker::Model;
use std::snapshot::Snapshot;

/// The logs of all cores of a run. Threads share them, and each core writes its own log alone, by its pass.
#[derive(Drop)]
pub struct Logs {
    pub(crate) table: Table<(), PassView, About, LogRules, Global>,
    pub(crate) cores: u32,
    history: u32,
    pub(crate) slots: u32,
}

impl Model for Logs {
    ghost use Rattle.std.specs.Prelude.{◌≡◌};
    ghost use Rattle.scr_log.specs.Passes.{LogsOf, IsLogs};

    ghost Value = { LogsOf };

    ghost view = { λ logs. record {
      plan = logs.table.shared.key.plan.value;
      slots = logs.table.shared.key.slots;
      table = logs.table.shared.table_id;
    } };

    ghost invariant = { λ logs. (logs.cores ≡ logs.table.shared.key.plan.value.cores)
        × (logs.history ≡ logs.table.shared.key.plan.value.history)
        × (logs.slots ≡ logs.table.shared.key.slots)
        × IsLogs (record {
          plan = logs.table.shared.key.plan.value;
          slots = logs.table.shared.key.slots;
          table = logs.table.shared.table_id;
        }) };
}

impl Logs {
    /// New logs for this plan, in which each core has so many slots, with a pass that has all draws.
    pub fn make(alloc: Global, plan: &RunPlan, slots: u32) -> Result<(Logs, FreePass), OutOfMemory>
        requires some_slots { 1 ≤ slots }
        requires few_slots { slots ≤ most_slots }
        ensures plan { IfOk result (λ made. made.0.plan ≡ plan.now) }
        ensures slots { IfOk result (λ made. made.0.slots ≡ slots) }
        ensures words { IfOk result (λ made. made.0.table.words ≡ word_count plan.now.cores slots) }
        ensures logs { IfOk result (λ made. IsLogs made.0) }
        ensures pass { IfOk result (λ made. made.1 ≡ first_pass made.0) }
    {
        let cores = plan.cores();
        let history = plan.history();
        let count = cores as usize * core_words(slots) + 2;
        let zeros = vec![in alloc; 0u64; count]?;
        let about = About {
            plan: Snapshot::of(plan),
            slots,
        };
        let (table, seat) = Table::of_words(alloc, zeros.as_slice(), &about)?;
        let logs = Logs {
            table,
            cores,
            history,
            slots,
        };
        Ok((logs, FreePass::of(seat)))
    }

    /// How many cores the plan has.
    pub fn cores(&self) -> u32
        ensures cores { result ≡ self.now.plan.cores }
        ensures logs { IsLogs self.now }
    {
        self.cores
    }

    /// How many packets before its own a frame of the plan carries.
    pub fn history(&self) -> u32
        ensures history { result ≡ self.now.plan.history }
        ensures logs { IsLogs self.now }
    {
        self.history
    }
}
