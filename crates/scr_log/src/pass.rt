ghost use Rattle.std.specs.Prelude.{◌≡◌, ◌<◌};
ghost use Rattle.scr_log.specs.Seats.{free_seen, IsFreeSeat};

use crate::rule::Place;
use std::marker::Model;

/// A pass with no core yet. It can be split, and each part can claim a core.
#[derive(Drop)]
pub struct FreePass {
    pub(crate) seat: Place,
}

impl Model for FreePass {
    ghost use Rattle.scr_log.specs.Passes.{Free};
    ghost use Rattle.scr_log.specs.Seats.{free_seen, IsFreeSeat};

    ghost Value = { Free };

    ghost view = { λ pass. free_seen pass.seat.table_id pass.seat.me.0 };

    ghost invariant = { λ pass. IsFreeSeat pass.seat.me };
}

impl FreePass {
    pub(crate) fn of(seat: Place) -> FreePass
        requires { IsFreeSeat seat.me }
        ensures { result ≡ free_seen seat.table_id seat.me.0 }
    {
        FreePass { seat }
    }
}

/// The pass of a core, by which it writes its log and looks at the others'.
#[derive(Drop)]
pub struct CorePass {
    pub(crate) core: u32,
    pub(crate) published: u32,
    // each other core has finished this number, as far as the pass has noted
    pub(crate) known: u64,
    pub(crate) seat: Place,
}

impl Model for CorePass {
    ghost use Rattle.scr_log.specs.Passes.{OfCore};
    ghost use Rattle.scr_log.specs.Seats.{core_seen, IsCoreSeat};

    ghost Value = { OfCore };

    ghost view = { λ pass. core_seen pass.seat.table_id pass.seat.me.0 pass.core };

    ghost invariant = { λ pass. IsCoreSeat pass.seat.me pass.core pass.published pass.known };
}

impl CorePass {
    /// Its core.
    pub fn core(&self) -> u32
        ensures core { result ≡ self.now.core }
        ensures below { result < self.now.logs.plan.cores }
    {
        self.core
    }

    /// The number up to which it has published.
    pub fn published(&self) -> u32
        ensures { result ≡ self.now.published }
    {
        self.published
    }
}
