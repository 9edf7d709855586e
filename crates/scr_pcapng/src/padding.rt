ghost use Rattle.std.specs.Prelude.{◌≡◌, ◌≤◌};
ghost use Rattle.scr_pcapng.specs.Options.{padded};

// A length, with its padding.
pub(crate) fn padded(size: u32) -> u32
    requires { size ≤ 262144 }
    ensures { result ≡ padded size }
{
    (size + 3) / 4 * 4
}
