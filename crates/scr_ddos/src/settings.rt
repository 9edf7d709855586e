ghost use Rattle.std.specs.Prelude.{◌≡◌, ◌≢◌, ◌≤◌, OnErr, Err, codes};
ghost use Rattle.scr_program.specs.declared.setting.SettingError.TheVariants.{UnknownName};
ghost use Rattle.scr_program.specs.declared.table.TheConstants.{MOST_FLOWS};
ghost use Rattle.scr_program.specs.Settings.{IsSetTo, setting_within};
ghost use Rattle.scr_ddos.specs.declared.settings.TheConstants.{MOST_THRESHOLD};

use scr_program::{SettingError, read_setting};

/// The greatest threshold that may be asked for.
pub const MOST_THRESHOLD: u64 = 4_294_967_295;

/// The numbers that a user of the flood counter may choose.
#[derive(Clone, Copy, Debug, PartialEq, Eq)]
pub struct DdosSettings {
    /// How many packets of a source may pass, at most 4,294,967,295.
    pub threshold: u64,
    /// How many sources are counted at most, from 1 to 65,536.
    pub flows: u32,
    ghost threshold_fits: { threshold ≤ MOST_THRESHOLD },
    ghost some: { 1 ≤ flows },
    ghost few: { flows ≤ MOST_FLOWS },
}

impl DdosSettings {
    /// The settings where the user chooses no more than the number of flows.
    pub fn new(flows: u32) -> Self
        requires some { 1 ≤ flows }
        requires few { flows ≤ MOST_FLOWS }
        ensures threshold { result.threshold ≡ 1000 }
        ensures flows { result.flows ≡ flows }
    {
        DdosSettings {
            threshold: 1000,
            flows,
        }
    }

    /// Gives the setting `threshold` the number that the value spells. At `Err` nothing has changed.
    pub fn set(&mut self, name: &[u8], value: &[u8]) -> Result<(), SettingError>
        ensures unknown { name.now ≢ codes "threshold" → result ≡ Err UnknownName }
        ensures threshold { name.now ≡ codes "threshold" → IsSetTo result self.new.threshold (setting_within value.now 0 MOST_THRESHOLD) }
        ensures flows { self.new.flows ≡ self.old.flows }
        ensures err { OnErr result (self.new ≡ self.old) }
    {
        if name != b"threshold".as_slice() {
            return Err(SettingError::UnknownName);
        }
        self.threshold = read_setting(value, 0, MOST_THRESHOLD)?;
        Ok(())
    }
}
