ghost use Rattle.std.specs.Prelude.{◌≡◌, ◌+◌, ◌≤◌, length};
ghost use Rattle.std.specs.Int.{w16, w32, w128};
ghost use Rattle.scr_frame.specs.Fields.{network_number};

/// The 16-bit number in network order from a place on.
pub(crate) fn u16_at(bytes: &[u8], place: usize) -> u16
    requires { place + 2 ≤ length bytes.now }
    ensures { result ≡ network_number w16 place bytes.now }
{
    let field = &bytes[place..];
    u16::from_be_bytes([field[0], field[1]])
}

/// The 32-bit number in network order from a place on.
pub(crate) fn u32_at(bytes: &[u8], place: usize) -> u32
    requires { place + 4 ≤ length bytes.now }
    ensures { result ≡ network_number w32 place bytes.now }
{
    let field = &bytes[place..];
    u32::from_be_bytes([field[0], field[1], field[2], field[3]])
}

/// The 128-bit number in network order from a place on.
pub(crate) fn u128_at(bytes: &[u8], place: usize) -> u128
    requires { place + 16 ≤ length bytes.now }
    ensures { result ≡ network_number w128 place bytes.now }
{
    let field = &bytes[place..];
    u128::from_be_bytes([
        field[0], field[1], field[2], field[3], field[4], field[5], field[6], field[7], field[8],
        field[9], field[10], field[11], field[12], field[13], field[14], field[15],
    ])
}
