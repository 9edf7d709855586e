ghost use Rattle.std.specs.Prelude.{◌≡◌, ◌↔◌, ◌+◌, ◌++◌, ◌∷◌, [], ℕ, IsTrue};
ghost use Rattle.scr_log.specs.Passes.{looked};
ghost use Rattle.scr_log.specs.declared.view.Noted.TheVariants.{Halt};

use crate::logs::Logs;
use crate::pass::{CorePass, FreePass};
use crate::rule::{Halts, Place, ReadsHalt};

impl Logs {
    // Sets the halt word by this seat.
    fn set_halt(&self, seat: &mut Place)
        requires { seat.old.table_id ≡ self.now.table }
        ensures table { seat.new.table_id ≡ seat.old.table_id }
        ensures me { seat.new.me ≡ (record seat.old.me.0 { halts = seat.old.me.0.halts + 1 }, seat.old.me.1) }
    {
        let at = self.halt_place();
        self.table.shared.fetch_or::<Halts>(seat, at, 1);
    }

    // Loads the halt word.
    fn load_halt(&self, seat: &mut Place) -> u64
        requires { seat.old.table_id ≡ self.now.table }
        ensures table { seat.new.table_id ≡ seat.old.table_id }
        ensures me { seat.new.me ≡ (record seat.old.me.0 { looks = seat.old.me.0.looks ++ Halt result ∷ [] }, seat.old.me.1) }
    {
        let at = self.halt_place();
        self.table.shared.load::<ReadsHalt>(seat, at)
    }

    /// Sets the halt word.
    pub fn halt(&self, pass: &mut CorePass)
        requires { pass.old.logs ≡ self.now }
        ensures { pass.new ≡ record pass.old { halts = pass.old.halts + 1 } }
    {
        self.set_halt(&mut pass.seat);
    }

    /// The same by a pass that has no core.
    pub fn halt_by_main(&self, pass: &mut FreePass)
        requires { pass.old.logs ≡ self.now }
        ensures { pass.new ≡ record pass.old { halts = pass.old.halts + 1 } }
    {
        self.set_halt(&mut pass.seat);
    }

    /// Whether the halt word was 1 when this call loaded it.
    pub fn halted(&self, pass: &mut CorePass) -> bool
        requires { pass.old.logs ≡ self.now }
        ensures { (value : ℕ) × (pass.new ≡ looked pass.old (Halt value)) × (IsTrue result ↔ (value ≡ 1)) }
    {
        let value = self.load_halt(&mut pass.seat);
        value == 1
    }

    /// The same by a pass that has no core.
    pub fn halted_by_main(&self, pass: &mut FreePass) -> bool
        requires { pass.old.logs ≡ self.now }
        ensures { (value : ℕ) × (pass.new ≡ record pass.old { looks = pass.old.looks ++ Halt value ∷ [] }) × (IsTrue result ↔ (value ≡ 1)) }
    {
        let word = self.load_halt(&mut pass.seat);
        word == 1
    }
}
