ghost use Rattle.std.specs.Prelude.{◌≡◌};
ghost use Rattle.scr_plan.specs.Plan.{frame_count};

use scr_log::CorePass;
use std::sync::Wait;

/// What each core of a run goes through at its begin and at its end. A test sees by it how cores run beside each other.
pub trait Gate {
    /// A core begins. Its pass has done nothing.
    fn enter<R: Wait>(&self, rt: &R, pass: &CorePass)
        requires unpublished { pass.now.published ≡ 0 }
        requires unfinished { pass.now.finished ≡ 0 };

    /// A core has published and finished every packet.
    fn leave<R: Wait>(&self, rt: &R, pass: &CorePass)
        requires published { pass.now.published ≡ frame_count pass.now.logs.plan }
        requires finished { pass.now.finished ≡ frame_count pass.now.logs.plan };
}
