ghost use Rattle.std.specs.Prelude.{◌≤◌, length};
ghost use Rattle.std.proofs.Common.{lit≤};

use scr_bucket::Bucket;
use scr_conn::Conn;
use scr_ddos::Ddos;
use scr_heavy::Heavy;
use scr_knock::Knock;
use scr_program::Program;

/// A program that can stand second in a chain, which has one verdict more than it.
pub trait Second: Program {
    /// There is room for one name more.
    ghost few_names: { length Self.verdict_names ≤ 254 };
}

impl Second for Ddos {
    ghost few_names = { lit≤ tt };
}

impl Second for Heavy {
    ghost few_names = { lit≤ tt };
}

impl Second for Bucket {
    ghost few_names = { lit≤ tt };
}

impl Second for Knock {
    ghost few_names = { lit≤ tt };
}

impl Second for Conn {
    ghost few_names = { lit≤ tt };
}
