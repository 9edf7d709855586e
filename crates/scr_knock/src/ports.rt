ghost use Rattle.std.specs.Prelude.{◌≡◌, ◌≤◌, IfOk};
ghost use Rattle.std.specs.List.{before_first, after_first, position};
ghost use Rattle.scr_program.specs.Settings.{setting_within};
ghost use Rattle.scr_knock.specs.Ports.{greatest_port, is_comma, ports_in};

use scr_program::{SettingError, read_setting};

const GREATEST_PORT: u64 = 65_535;

/// The three ports of a text, from 1 to 65,535 and parted by commas.
pub(crate) fn ports_in(text: &[u8]) -> Result<(u16, u16, u16), SettingError>
    ensures ports { result ≡ ports_in text.now }
    ensures some { IfOk result (λ ports. (1 ≤ ports.0) × (1 ≤ ports.1) × (1 ≤ ports.2)) }
{
    let (first, rest) = cut_at_comma(text);
    let (second, third) = cut_at_comma(rest);
    match (port_in(first), port_in(second), port_in(third)) {
        (Ok(first), Ok(second), Ok(third)) => Ok((first, second, third)),
        (Err(SettingError::Value), _, _)
        | (_, Err(SettingError::Value), _)
        | (_, _, Err(SettingError::Value)) => Err(SettingError::Value),
        _ => Err(SettingError::Range),
    }
}

// What stands before the first comma, and what behind it, if there is one.
fn cut_at_comma(text: &[u8]) -> (&[u8], &[u8])
    ensures front { result.0.now ≡ before_first is_comma text.now }
    ensures back { result.1.now ≡ after_first is_comma text.now }
{
    match first_comma(text) {
        Some(at) => (&text[..at], &text[at + 1..]),
        None => (text, &[]),
    }
}

fn first_comma(text: &[u8]) -> Option<usize>
    ensures { result ≡ position is_comma text.now }
{
    text.iter().position(|c| *c == b',')
}

fn port_in(text: &[u8]) -> Result<u16, SettingError>
    ensures port { result ≡ setting_within text.now 1 greatest_port }
    ensures some { IfOk result (λ port. 1 ≤ port) }
{
    Ok(read_setting(text, 1, GREATEST_PORT)? as u16)
}
