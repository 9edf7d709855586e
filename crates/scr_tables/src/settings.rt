ghost use Rattle.std.specs.Prelude.{◌≡◌, ◌≤◌};
ghost use Rattle.scr_program.specs.declared.table.TheConstants.{MOST_FLOWS};
ghost use Rattle.scr_tables.specs.Rules.{IsTable};

use crate::table::Table;

/// What a user of a program given as a table chooses.
#[derive(Debug, Drop)]
pub struct TableSettings {
    /// The rules.
    pub table: Table,
    /// How many sources are kept at most, from 1 to 65,536.
    pub flows: u32,
    ghost valid: { IsTable table },
    ghost some: { 1 ≤ flows },
    ghost few: { flows ≤ MOST_FLOWS },
}

impl TableSettings {
    /// The settings with this table and so many sources.
    pub fn new(table: Table, flows: u32) -> Self
        requires some { 1 ≤ flows }
        requires few { flows ≤ MOST_FLOWS }
        ensures table { result.table ≡ table }
        ensures flows { result.flows ≡ flows }
    {
        // What is true of every table is known where its rules are looked at.
        let _ = table.rules();
        TableSettings { table, flows }
    }
}
