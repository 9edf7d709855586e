ghost use Rattle.std.specs.Prelude.{◌≡◌, ◌≤◌, ◌<◌, ◌-◌, IfOk, IfErr};
ghost use Rattle.scr_log.specs.Passes.{split_off, claimed, came_late};

use crate::logs::Logs;
use crate::pass::{CorePass, FreePass};
use crate::rule::{DrawsNumber, HandsOn};

/// A pass came too late for a core. It drew this number: all cores have lower ones.
#[derive(Drop)]
pub struct Late {
    pub pass: FreePass,
    pub number: u64,
}

impl FreePass {
    /// Another free pass, which has one draw of this one's stock.
    pub fn split(&mut self, logs: &Logs) -> FreePass
        requires of_these { self.old.logs ≡ logs.now }
        requires stock { 2 ≤ self.old.stock }
        ensures new_pass { result ≡ split_off logs.now }
        ensures this_pass { self.new ≡ record self.old { stock = self.old.stock - 1 } }
    {
        let seat = logs.table.shared.split_seat::<HandsOn>(&mut self.seat);
        FreePass { seat }
    }
}

impl Logs {
    /// Draws a number for the pass. It is the pass's core, or no core's, and then the pass comes back with it.
    pub fn claim(&self, pass: FreePass) -> Result<CorePass, Late>
        requires of_these { pass.logs ≡ self.now }
        requires stock { 1 ≤ pass.stock }
        ensures core { IfOk result (λ core_pass. core_pass ≡ claimed pass core_pass.core) }
        ensures below { IfOk result (λ core_pass. core_pass.core < self.now.plan.cores) }
        ensures late { IfErr result (λ late. late.pass ≡ came_late pass late.number) }
        ensures above { IfErr result (λ late. self.now.plan.cores ≤ late.number) }
    {
        let FreePass { mut seat } = pass;
        let number = self
            .table
            .shared
            .fetch_add::<DrawsNumber>(&mut seat, self.claim_place(), 1);
        if number < u64::from(self.cores) {
            Ok(CorePass {
                core: number as u32,
                published: 0,
                known: 0,
                seat,
            })
        } else {
            Err(Late {
                pass: FreePass { seat },
                number,
            })
        }
    }
}
