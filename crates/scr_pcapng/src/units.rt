ghost use Rattle.std.specs.Prelude.{◌≡◌, ◌<◌, false};
ghost use Rattle.scr_pcapng.specs.Units.{is_beyond, microseconds, units_of};

// How many units a second has without a value.
pub(crate) const MICROSECONDS: u64 = 1_000_000;

// How many nanoseconds a second has, a unit that captures often take.
const NANOSECONDS: u64 = 1_000_000_000;

// Whether a value tells no unit that is taken.
pub(crate) fn is_beyond(value: u8) -> bool
    ensures { result ≡ is_beyond value }
{
    (20..128).contains(&value) || value > 191
}

// How many units a second has by this value.
pub(crate) fn units_of(value: u8) -> u64
    requires { is_beyond value ≡ false }
    ensures value { result ≡ units_of value }
    ensures some { 0 < result }
{
    if value < 128 {
        10u64.pow(u32::from(value))
    } else {
        1 << (value - 128)
    }
}

// A time of so many units a second, in microseconds.
#[inline(always)]
#[tactic(auto, using(crate::proofs::Times::thousandth))]
pub(crate) fn microseconds(units: u64, time: u64) -> u64
    requires { 0 < units }
    ensures { result ≡ microseconds units time }
{
    if units == MICROSECONDS {
        return time;
    }
    if units == NANOSECONDS {
        return time / 1_000;
    }
    converted(units, time)
}

// The same, for any unit.
#[inline(never)]
fn converted(units: u64, time: u64) -> u64
    requires { 0 < units }
    ensures { result ≡ microseconds units time }
{
    let exact = u128::from(time) * 1_000_000 / u128::from(units);
    u64::try_from(exact).unwrap_or(u64::MAX)
}
