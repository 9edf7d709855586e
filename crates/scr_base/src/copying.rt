ghost use Rattle.std.specs.Prelude.{◌≡◌, ◌≤◌, length, min, take, drop};

/// Copies as many bytes as both have from the front of one to the front of the other, and answers how many.
// Where enough bytes are there, and they nearly always are, a caller that asks for a fixed number has it without a call.
#[inline(always)]
pub fn copy_front(from: &[u8], to: &mut [u8]) -> usize
    ensures count { result ≡ min (length from.now) (length to.old) }
    ensures front { take result to.new ≡ take result from.now }
    ensures rest { drop result to.new ≡ drop result to.old }
{
    let wanted = to.len();
    if from.len() >= wanted {
        to.copy_from_slice(&from[..wanted]);
        return wanted;
    }
    copy_short(from, to)
}

// Copies all that there is, where that is less than was asked for.
#[inline(never)]
fn copy_short(from: &[u8], to: &mut [u8]) -> usize
    requires short { length from.now ≤ length to.now }
    ensures count { result ≡ length from.now }
    ensures front { take result to.new ≡ take result from.now }
    ensures rest { drop result to.new ≡ drop result to.old }
{
    to[..from.len()].copy_from_slice(from);
    from.len()
}
