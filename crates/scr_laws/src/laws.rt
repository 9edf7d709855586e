ghost use Rattle.std.specs.Prelude.{◌≡◌, List, All, true};
ghost use Rattle.scr_base.specs.declared.row.Row.{Row};
ghost use Rattle.scr_knock.specs.Step.{step as door_step};
ghost use Rattle.scr_knock.specs.declared.settings.KnockSettings.{KnockSettings};
ghost use Rattle.scr_laws.specs.DoorRules.{IsDoor, door_rules, door_text};
ghost use Rattle.scr_program.specs.Folds.{verdict_after, count_after};
ghost use Rattle.scr_program.specs.Kinds.{has_ports};
ghost use Rattle.scr_program.specs.Rows.{kind_in};
ghost use Rattle.scr_tables.specs.Spelling.{SpellsTable};
ghost use Rattle.scr_tables.specs.Step.{verdict_after_rows, count_after_rows};
ghost use Rattle.scr_tables.specs.declared.settings.TableSettings.{TableSettings};

/// A table with the rules of the door does what the door does: over any rows of TCP and UDP it gives the same verdicts,
/// and has as many sources, for all ports and every number of flows.
pub fn door_is_a_table()
    ensures verdicts { (table : TableSettings) (door : KnockSettings) (rows : List Row) (row : Row) → IsDoor table door
        → All (λ row. has_ports (kind_in row) ≡ true) rows → has_ports (kind_in row) ≡ true
        → verdict_after_rows table rows row ≡ verdict_after (door_step door) rows row }
    ensures flows { (table : TableSettings) (door : KnockSettings) (rows : List Row) → IsDoor table door
        → All (λ row. has_ports (kind_in row) ≡ true) rows
        → count_after_rows table rows ≡ count_after (door_step door) rows }
    ensures text { SpellsTable door_text (door_rules 7000 8000 9000) }
{}
