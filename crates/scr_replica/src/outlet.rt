ghost use Rattle.std.specs.Prelude.{◌∷◌, List, IfOk, if◌then◌else◌};
ghost use Rattle.scr_plan.specs.declared.given.Given.{Given};

use scr_base::OutOfMemory;
use scr_plan::Given;
use scr_wire::Packet;
use std::sync::Wait;

/// Where the verdicts of a core go, in the order of the frames.
pub trait Outlet {
    ghost use Rattle.std.specs.Prelude.{List};
    ghost use Rattle.scr_plan.specs.declared.given.Given.{Given};

    /// It is an outlet for this whole list, and what it is to get next is the rest of that.
    ghost Awaits: { Self → (whole rest : List Given) → Type 0 };

    /// Gives it the verdict that comes next. False where it has no room for that now. It doesn't wait for room.
    fn give<R: Wait>(&mut self, rt: &R, given: Given) -> Result<bool, OutOfMemory>
        requires { (whole : List Given) × (rest : List Given) × Awaits self.old whole (given ∷ rest) }
        ensures { (whole rest : List Given) → Awaits self.old whole (given ∷ rest) → IfOk result (λ taken. Awaits self.new whole (if taken then rest else given ∷ rest)) };

    /// Takes a packet that the core needs no more. Where it goes is the outlet's: it may be dropped.
    fn take_back(&mut self, spent: Packet)
        ensures { (whole rest : List Given) → Awaits self.old whole rest → Awaits self.new whole rest };
}

/// A list takes all that it is given.
impl Outlet for Vec<Given> {
    ghost use Rattle.std.specs.Prelude.{◌≡◌, ◌++◌};

    ghost Awaits = { λ list whole rest. whole ≡ list.items ++ rest };

    fn give<R: Wait>(&mut self, _rt: &R, given: Given) -> Result<bool, OutOfMemory> {
        self.push(given)?;
        Ok(true)
    }

    fn take_back(&mut self, spent: Packet) {
        drop(spent);
    }
}
