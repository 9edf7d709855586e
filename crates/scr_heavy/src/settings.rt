ghost use Rattle.std.specs.Prelude.{◌≡◌, ◌≢◌, ◌≤◌, OnErr, Err, codes};
ghost use Rattle.scr_program.specs.declared.setting.SettingError.TheVariants.{UnknownName};
ghost use Rattle.scr_program.specs.declared.table.TheConstants.{MOST_FLOWS};
ghost use Rattle.scr_program.specs.Settings.{IsSetTo, setting_within};
ghost use Rattle.scr_heavy.specs.declared.settings.TheConstants.{MOST_BYTES};

use scr_program::{SettingError, read_setting};

/// The greatest number of bytes that may be asked for.
pub const MOST_BYTES: u64 = 1_000_000_000_000;

/// The numbers that a user of the count of heavy flows may choose.
#[derive(Clone, Copy, Debug, PartialEq, Eq)]
pub struct HeavySettings {
    /// How many bytes make a flow heavy, from 1 to 1,000,000,000,000.
    pub bytes: u64,
    /// How many flows are counted at most, from 1 to 65,536.
    pub flows: u32,
    ghost bytes_some: { 1 ≤ bytes },
    ghost bytes_fits: { bytes ≤ MOST_BYTES },
    ghost some: { 1 ≤ flows },
    ghost few: { flows ≤ MOST_FLOWS },
}

impl HeavySettings {
    /// The settings where the user chooses no more than the number of flows.
    pub fn new(flows: u32) -> Self
        requires some { 1 ≤ flows }
        requires few { flows ≤ MOST_FLOWS }
        ensures bytes { result.bytes ≡ 1000000 }
        ensures flows { result.flows ≡ flows }
    {
        HeavySettings {
            bytes: 1_000_000,
            flows,
        }
    }

    /// Gives the setting `bytes` the number that the value spells. At `Err` nothing has changed.
    pub fn set(&mut self, name: &[u8], value: &[u8]) -> Result<(), SettingError>
        ensures unknown { name.now ≢ codes "bytes" → result ≡ Err UnknownName }
        ensures bytes { name.now ≡ codes "bytes" → IsSetTo result self.new.bytes (setting_within value.now 1 MOST_BYTES) }
        ensures flows { self.new.flows ≡ self.old.flows }
        ensures err { OnErr result (self.new ≡ self.old) }
    {
        if name != b"bytes".as_slice() {
            return Err(SettingError::UnknownName);
        }
        self.bytes = read_setting(value, 1, MOST_BYTES)?;
        Ok(())
    }
}
