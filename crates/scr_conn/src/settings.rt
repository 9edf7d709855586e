ghost use Rattle.std.specs.Prelude.{◌≡◌, ◌≢◌, ◌≤◌, OnErr, Err, codes};
ghost use Rattle.scr_program.specs.declared.setting.SettingError.TheVariants.{UnknownName};
ghost use Rattle.scr_program.specs.declared.table.TheConstants.{MOST_FLOWS};
ghost use Rattle.scr_program.specs.Settings.{IsSetTo, setting_within};
ghost use Rattle.scr_conn.specs.declared.settings.TheConstants.{MOST_IDLE};

use scr_program::{SettingError, read_setting};

/// The longest time without a packet that may be asked for, in microseconds.
pub const MOST_IDLE: u64 = 10_000_000_000_000;

/// The numbers that a user of the tracker may choose.
#[derive(Clone, Copy, Debug, PartialEq, Eq)]
pub struct ConnSettings {
    /// How long a connection may be without a packet, in microseconds, from 1 to 10,000,000,000,000.
    pub idle: u64,
    /// How many connections are kept at most, from 1 to 65,536.
    pub flows: u32,
    ghost some_time: { 1 ≤ idle },
    ghost few_time: { idle ≤ MOST_IDLE },
    ghost some_flows: { 1 ≤ flows },
    ghost few_flows: { flows ≤ MOST_FLOWS },
}

impl ConnSettings {
    /// The settings where the user chooses no more than the number of flows.
    pub fn new(flows: u32) -> Self
        requires some { 1 ≤ flows }
        requires few { flows ≤ MOST_FLOWS }
        ensures idle { result.idle ≡ 60000000 }
        ensures flows { result.flows ≡ flows }
    {
        ConnSettings {
            idle: 60_000_000,
            flows,
        }
    }

    /// Gives the setting `idle` the number that the value spells. At `Err` nothing has changed.
    pub fn set(&mut self, name: &[u8], value: &[u8]) -> Result<(), SettingError>
        ensures unknown { name.now ≢ codes "idle" → result ≡ Err UnknownName }
        ensures idle { name.now ≡ codes "idle" → IsSetTo result self.new.idle (setting_within value.now 1 MOST_IDLE) }
        ensures flows { self.new.flows ≡ self.old.flows }
        ensures err { OnErr result (self.new ≡ self.old) }
    {
        if name != b"idle".as_slice() {
            return Err(SettingError::UnknownName);
        }
        self.idle = read_setting(value, 1, MOST_IDLE)?;
        Ok(())
    }
}
