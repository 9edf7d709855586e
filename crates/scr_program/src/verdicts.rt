use scr_base::Verdict;

/// The verdict on a packet that may go on, of a program whose names begin with PASS.
pub const PASS: Verdict = Verdict(0);

/// The verdict on a packet that is to be stopped, of a program whose names are PASS, DROP and OTHER.
pub const DROP: Verdict = Verdict(1);

/// The verdict on a packet that isn't looked at, of a program with three names, of which it is the last.
pub const OTHER: Verdict = Verdict(2);

/// The names of [`PASS`], [`DROP`] and [`OTHER`].
pub const PASS_DROP_OTHER: [&str; 3] = ["PASS", "DROP", "OTHER"];
