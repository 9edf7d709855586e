ghost use Rattle.std.specs.Prelude.{◌≡◌, ◌≢◌, ◌≤◌, OnErr, Ok, Err, MatchResult, codes};
ghost use Rattle.scr_program.specs.declared.setting.SettingError.TheVariants.{UnknownName};
ghost use Rattle.scr_program.specs.declared.table.TheConstants.{MOST_FLOWS};
ghost use Rattle.scr_knock.specs.Ports.{ports_in};

use crate::ports::ports_in;
use scr_program::SettingError;

/// The numbers that a user of the door may choose.
#[derive(Clone, Copy, Debug, PartialEq, Eq)]
pub struct KnockSettings {
    /// The port of the first knock, at least 1.
    pub first: u16,
    /// The port of the second knock, at least 1.
    pub second: u16,
    /// The port of the third knock, at least 1.
    pub third: u16,
    /// How many sources are kept at most, from 1 to 65,536.
    pub flows: u32,
    ghost some_first: { 1 ≤ first },
    ghost some_second: { 1 ≤ second },
    ghost some_third: { 1 ≤ third },
    ghost some_flows: { 1 ≤ flows },
    ghost few_flows: { flows ≤ MOST_FLOWS },
}

impl KnockSettings {
    /// The settings where the user chooses no more than the number of flows.
    pub fn new(flows: u32) -> Self
        requires some { 1 ≤ flows }
        requires few { flows ≤ MOST_FLOWS }
        ensures first { result.first ≡ 7000 }
        ensures second { result.second ≡ 8000 }
        ensures third { result.third ≡ 9000 }
        ensures flows { result.flows ≡ flows }
    {
        KnockSettings {
            first: 7000,
            second: 8000,
            third: 9000,
            flows,
        }
    }

    /// Gives the setting `ports` the three numbers that the value spells, parted by commas. At `Err` nothing has
    /// changed.
    pub fn set(&mut self, name: &[u8], value: &[u8]) -> Result<(), SettingError>
        ensures unknown { name.now ≢ codes "ports" → result ≡ Err UnknownName }
        ensures ports { name.now ≡ codes "ports" → MatchResult (ports_in value.now)
            (λ ports. (result ≡ Ok tt) × (self.new.first ≡ ports.0) × (self.new.second ≡ ports.1) × (self.new.third ≡ ports.2))
            (λ refusal. result ≡ Err refusal) }
        ensures flows { self.new.flows ≡ self.old.flows }
        ensures err { OnErr result (self.new ≡ self.old) }
    {
        if name != b"ports".as_slice() {
            return Err(SettingError::UnknownName);
        }
        let (first, second, third) = ports_in(value)?;
        self.first = first;
        self.second = second;
        self.third = third;
        Ok(())
    }
}
