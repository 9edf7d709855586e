ghost use Rattle.std.specs.Prelude.{◌≡◌, ◌≤◌};
ghost use Rattle.scr_program.specs.Settings.{setting_within};

use scr_base::{NumberError, read_number};

/// Why a setting of a program is refused.
#[derive(Clone, Copy, Debug, PartialEq, Eq)]
pub enum SettingError {
    /// The program has no setting of this name.
    UnknownName,
    /// The value is not of its form.
    Value,
    /// A number is outside its range.
    Range,
}

/// The number that is the value of a setting: one decimal digit or more, zeros in front allowed.
pub fn read_setting(value: &[u8], least: u64, greatest: u64) -> Result<u64, SettingError>
    requires { least ≤ greatest }
    ensures { result ≡ setting_within value.now least greatest }
{
    match read_number(value, least, greatest) {
        Ok(number) => Ok(number),
        Err(NumberError::Digit) => Err(SettingError::Value),
        Err(NumberError::Range) => Err(SettingError::Range),
    }
}
