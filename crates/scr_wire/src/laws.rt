ghost use Rattle.std.specs.Prelude.{◌≡◌, ℕ, List};
ghost use Rattle.scr_wire.specs.Spelling.{Spells};
ghost use Rattle.scr_wire.specs.declared.message.Message.{Message};

/// Bytes are spelled by one message at most. So what was encoded is decoded to the same message.
pub fn one_message()
    ensures { (one other : Message) (bytes : List ℕ) → Spells one bytes → Spells other bytes → one ≡ other }
{}
