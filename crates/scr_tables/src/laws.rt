ghost use Rattle.std.specs.Prelude.{◌≡◌, ℕ, List, ◌⊎◌, IsSome, true};
ghost use Rattle.scr_base.specs.declared.row.Row.{Row};
ghost use Rattle.scr_program.specs.Folds.{flows_after};
ghost use Rattle.scr_program.specs.Kinds.{is_packet};
ghost use Rattle.scr_program.specs.Rows.{kind_in, source_in, unpacked};
ghost use Rattle.scr_tables.specs.Rules.{first_rule};
ghost use Rattle.scr_tables.specs.Spelling.{SpellsTable, IsRefused};
ghost use Rattle.scr_tables.specs.Step.{step, state_of};
ghost use Rattle.scr_tables.specs.declared.reading.TableCause.{TableCause};
ghost use Rattle.scr_tables.specs.declared.rule.Rule.{Rule};
ghost use Rattle.scr_tables.specs.declared.settings.TableSettings.{TableSettings};

/// Any text spells a table, or is refused.
pub fn some_reading()
    ensures { (text : List ℕ) → ((rules : List Rule) × SpellsTable text rules) ⊎ ((cause : TableCause) × (place : ℕ) × IsRefused text cause place) }
{}

/// A text spells one table, or is refused with one cause at one place, and never both.
pub fn one_reading()
    ensures spelled { (text : List ℕ) (one other : List Rule) → SpellsTable text one → SpellsTable text other → one ≡ other }
    ensures refused { (text : List ℕ) (one other : TableCause) (here there : ℕ) → IsRefused text one here → IsRefused text other there → (one ≡ other) × (here ≡ there) }
    ensures not_both { (text : List ℕ) (rules : List Rule) (cause : TableCause) (place : ℕ) → SpellsTable text rules → IsRefused text cause place → ⊥ }
{}

/// After any rows some rule is for the next packet, whatever packet that is.
pub fn some_rule()
    ensures { (settings : TableSettings) (rows : List Row) (row : Row) →
        IsSome (first_rule settings.table (state_of (flows_after (step settings) rows) (source_in row)) (unpacked row)) }
{}
