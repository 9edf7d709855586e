//! What is done with the verdicts of a run, one after the other.
ghost use Rattle.std.specs.Prelude.{◌≡◌, ◌≤◌, ◌++◌, ◌∷◌, [], List, length, drop, OnOk, MatchResult};
ghost use Rattle.scr_plan.specs.declared.given.Given.{Given};

use crate::run_stop::RunStop;
use scr_base::OutOfMemory;
use scr_plan::Given;

/// Takes the verdicts of a run in the order of the frames, and makes something of them for `out`.
pub trait Taker<O> {
    ghost use Rattle.std.specs.Prelude.{List};
    ghost use Rattle.scr_base.specs.declared.out_of_memory.OutOfMemory.{OutOfMemory as Want};
    ghost use Rattle.scr_plan.specs.declared.given.Given.{Given};
    ghost use Rattle.scr_crew.specs.declared.run_stop.RunStop.{RunStop};
    ghost use Rattle.scr_crew.specs.declared.run_stop.RunStop.TheVariants.{OutOfMemory};

    /// Of this whole list it is still to take the rest. `out` was so before the first of them, and is now so.
    ghost IsToTake: { Self → (before now : O) → (whole rest : List Given) → Type 0 };

    /// It keeps nothing back that is for `out`.
    ghost IsOut: { Self → Type 0 };

    /// It has stopped for this on its way through the list.
    ghost Stopped: { RunStop → (before now : O) → (whole : List Given) → Type 0 };

    /// It may stop anywhere where there is no memory.
    ghost may_lack: { (it : Self) (before now : O) (whole rest : List Given) (want : Want) → IsToTake it before now whole rest → Stopped (OutOfMemory want) before now whole };

    /// Takes the verdict that comes next.
    fn take(&mut self, out: &mut O, given: Given) -> Result<(), RunStop>
        requires { (before : O) × (whole : List Given) × (rest : List Given) × IsToTake self.old before out.old whole (given ∷ rest) }
        ensures { (before : O) (whole rest : List Given) → IsToTake self.old before out.old whole (given ∷ rest)
            → MatchResult result (λ _. IsToTake self.new before out.new whole rest) (λ stop. Stopped stop before out.new whole) };

    /// Gives out what it keeps back.
    fn flush(&mut self, out: &mut O) -> Result<(), RunStop>
        ensures { (before : O) (whole rest : List Given) → IsToTake self.old before out.old whole rest
            → MatchResult result (λ _. IsToTake self.new before out.new whole rest × IsOut self.new) (λ stop. Stopped stop before out.new whole) };

    /// How many verdicts it has taken.
    fn taken(&self) -> usize
        ensures { (before now : O) (whole rest : List Given) → IsToTake self.now before now whole rest → (result ≤ length whole) × (rest ≡ drop result whole) };
}

// Puts a verdict behind those of a list.
fn keep(list: &mut Vec<Given>, given: Given) -> Result<(), OutOfMemory>
    ensures { OnOk result (list.new.items ≡ list.old.items ++ given ∷ []) }
{
    list.push(given)?;
    Ok(())
}

/// A list keeps them.
impl Taker<()> for Vec<Given> {
    ghost use Rattle.std.specs.Prelude.{◌≡◌, ◌≢◌, ◌++◌};
    ghost use Rattle.scr_crew.specs.Streamed.{no-fault};
    ghost use Rattle.scr_crew.specs.declared.run_stop.RunStop.TheVariants.{WriteFault};

    ghost IsToTake = { λ list _ _ whole rest. whole ≡ list.items ++ rest };

    ghost IsOut = { λ _. Unit {0} };

    ghost Stopped = { λ stop _ _ _. stop ≢ WriteFault };

    ghost may_lack = { λ list before now whole rest want is. no-fault want };

    fn take(&mut self, _out: &mut (), given: Given) -> Result<(), RunStop> {
        Ok(keep(self, given)?)
    }

    fn flush(&mut self, _out: &mut ()) -> Result<(), RunStop> {
        Ok(())
    }

    fn taken(&self) -> usize {
        self.len()
    }
}
