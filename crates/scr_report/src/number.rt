ghost use Rattle.std.specs.Prelude.{◌≡◌, ◌≢◌, ℕ, ◌≤◌, ◌++◌, ◌∷◌, [], List, true, false, length, decimal, MatchOption};
ghost use Rattle.std.specs.Str.{all_ascii_digits};
ghost use Rattle.scr_report.specs.Parts.{begins_with_digit, IsLabelled};

use scr_base::read_number;

// The number that stands behind a label, and what stands behind the number.
pub fn number_behind<'a>(label: &[u8], greatest: u64, text: &'a [u8]) -> Option<(u64, &'a [u8])>
    ensures { MatchOption result
        ((number : ℕ) (rest : List ℕ) → IsLabelled label.now greatest text.now number rest → ⊥)
        (λ found. IsLabelled label.now greatest text.now found.0 found.1.now) }
{
    let (digits, rest) = split_digits(behind(label, text)?);
    let number = decimal_of(digits, greatest)?;
    Some((number, rest))
}

// What stands behind a label at the front of a text.
pub fn behind<'a>(label: &[u8], text: &'a [u8]) -> Option<&'a [u8]>
    ensures { MatchOption result ((rest : List ℕ) → text.now ≢ label.now ++ rest) (λ rest. text.now ≡ label.now ++ rest.now) }
{
    text.strip_prefix(label)
}

// What stands before a line feed at the end of a text.
pub fn before_feed(text: &[u8]) -> Option<&[u8]>
    ensures { MatchOption result ((front : List ℕ) → text.now ≢ front ++ 10 ∷ []) (λ front. text.now ≡ front.now ++ 10 ∷ []) }
{
    text.strip_suffix(b"\n")
}

// The digits at the front of a text, and what stands behind them.
fn split_digits(text: &[u8]) -> (&[u8], &[u8])
    ensures parts { text.now ≡ result.0.now ++ result.1.now }
    ensures digits { all_ascii_digits result.0.now ≡ true }
    ensures ends { begins_with_digit result.1.now ≡ false }
{
    let end = text.iter().position(|byte| !byte.is_ascii_digit());
    text.split_at(end.unwrap_or(text.len()))
}

// The number of digits without zeros in front, where it isn't above a bound.
fn decimal_of(digits: &[u8], greatest: u64) -> Option<u64>
    requires { all_ascii_digits digits.now ≡ true }
    ensures { MatchOption result ((number : ℕ) → number ≤ greatest → digits.now ≢ decimal number)
        (λ number. (number ≤ greatest) × (digits.now ≡ decimal number)) }
{
    if digits.len() > 1 && digits[0] == b'0' {
        return None;
    }
    read_number(digits, 0, greatest).ok()
}
