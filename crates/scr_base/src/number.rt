ghost use Rattle.std.specs.Prelude.{◌≡◌, ◌^◌, ◌<◌, ◌≤◌, true, SomeIff};
ghost use Rattle.scr_base.specs.Numbers.{is_number, number_of, number_within};

/// Why a text is no number of a range.
#[derive(Clone, Copy, Debug, PartialEq, Eq)]
pub enum NumberError {
    /// The text is empty, or has a byte that is no decimal digit.
    Digit,
    /// The number is outside its range.
    Range,
}

/// The number that decimal digits spell, where it is in the range. Zeros in front and any length are allowed.
pub fn read_number(text: &[u8], least: u64, greatest: u64) -> Result<u64, NumberError>
    requires { least ≤ greatest }
    ensures { result ≡ number_within text.now least greatest }
{
    if !spells_number(text) {
        return Err(NumberError::Digit);
    }
    match value_of(text) {
        Some(number) if least <= number && number <= greatest => Ok(number),
        _ => Err(NumberError::Range),
    }
}

// Whether there is a digit, and nothing else.
fn spells_number(text: &[u8]) -> bool
    ensures { result ≡ is_number text.now }
{
    !text.is_empty() && text.iter().all(|c| c.is_ascii_digit())
}

// The value of digits, or nothing where it needs more than 64 bits.
fn value_of(digits: &[u8]) -> Option<u64>
    requires { is_number digits.now ≡ true }
    ensures { SomeIff result (number_of digits.now < 2 ^ 64) (number_of digits.now) }
{
    let mut value = 0u64;
    for digit in digits {
        let next = u64::from(*digit - b'0');
        value = value.checked_mul(10)?.checked_add(next)?;
    }
    Some(value)
}
