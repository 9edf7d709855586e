ghost use Rattle.std.specs.Prelude.{◌≡◌, ◌≢◌, ◌≤◌, OnErr, Err, codes};
ghost use Rattle.scr_program.specs.declared.setting.SettingError.TheVariants.{UnknownName};
ghost use Rattle.scr_program.specs.declared.table.TheConstants.{MOST_FLOWS};
ghost use Rattle.scr_program.specs.Settings.{IsSetTo, setting_within};
ghost use Rattle.scr_bucket.specs.declared.settings.TheConstants.{MOST_TOKENS};

use scr_program::{SettingError, read_setting};

/// The greatest rate that may be asked for, and the greatest burst.
pub const MOST_TOKENS: u64 = 1_000_000_000;

/// The numbers that a user of the token bucket may choose.
#[derive(Clone, Copy, Debug, PartialEq, Eq)]
pub struct BucketSettings {
    /// How many tokens a bucket gains in a second, at most 1,000,000,000.
    pub rate: u64,
    /// How many tokens a full bucket holds, from 1 to 1,000,000,000.
    pub burst: u64,
    /// How many flows have a bucket at most, from 1 to 65,536.
    pub flows: u32,
    ghost rate_fits: { rate ≤ MOST_TOKENS },
    ghost burst_some: { 1 ≤ burst },
    ghost burst_fits: { burst ≤ MOST_TOKENS },
    ghost some: { 1 ≤ flows },
    ghost few: { flows ≤ MOST_FLOWS },
}

impl BucketSettings {
    /// The settings where the user chooses no more than the number of flows.
    pub fn new(flows: u32) -> Self
        requires some { 1 ≤ flows }
        requires few { flows ≤ MOST_FLOWS }
        ensures rate { result.rate ≡ 1000 }
        ensures burst { result.burst ≡ 100 }
        ensures flows { result.flows ≡ flows }
    {
        BucketSettings {
            rate: 1000,
            burst: 100,
            flows,
        }
    }

    /// Gives the setting `rate` or `burst` the number that the value spells. At `Err` nothing has changed.
    pub fn set(&mut self, name: &[u8], value: &[u8]) -> Result<(), SettingError>
        ensures unknown { name.now ≢ codes "rate" → name.now ≢ codes "burst" → result ≡ Err UnknownName }
        ensures rate { name.now ≡ codes "rate" → IsSetTo result self.new.rate (setting_within value.now 0 MOST_TOKENS) }
        ensures rate_stays { name.now ≢ codes "rate" → self.new.rate ≡ self.old.rate }
        ensures burst { name.now ≡ codes "burst" → IsSetTo result self.new.burst (setting_within value.now 1 MOST_TOKENS) }
        ensures burst_stays { name.now ≢ codes "burst" → self.new.burst ≡ self.old.burst }
        ensures flows { self.new.flows ≡ self.old.flows }
        ensures err { OnErr result (self.new ≡ self.old) }
    {
        if name == b"rate".as_slice() {
            self.rate = read_setting(value, 0, MOST_TOKENS)?;
        } else if name == b"burst".as_slice() {
            self.burst = read_setting(value, 1, MOST_TOKENS)?;
        } else {
            return Err(SettingError::UnknownName);
        }
        Ok(())
    }
}
