ghost use Rattle.std.specs.Prelude.{◌≤◌};
ghost use Rattle.scr_program.specs.declared.table.TheConstants.{MOST_FLOWS};

/// What a user of the guard may choose.
#[derive(Clone, Copy, Debug, PartialEq, Eq)]
pub struct PortSettings {
    /// The port that is guarded.
    pub port: u16,
    /// How many packets of a source to the port may pass.
    pub most: u64,
    /// How many sources are counted at most, from 1 to 65,536.
    pub flows: u32,
    ghost some: { 1 ≤ flows },
    ghost few: { flows ≤ MOST_FLOWS },
}
