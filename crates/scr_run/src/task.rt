ghost use Rattle.std.specs.Prelude.{◌≤◌, IsTrue};
ghost use Rattle.scr_words.specs.Limits.{most_frames, most_hosts};
ghost use Rattle.scr_run.specs.Codes.{has_code};

use scr_words::{Command, Shape};

/// What is to be done with a program: all that the settings say but which program it is; and the number that it has in a
/// stream, which a chain and a table have not.
#[derive(Drop)]
pub(crate) struct Task {
    pub(crate) command: Command,
    pub(crate) code: Option<u8>,
    pub(crate) shape: Shape,
    pub(crate) start: u64,
    pub(crate) frames: u32,
    pub(crate) hosts: u32,
    ghost few_frames: { frames ≤ most_frames },
    ghost some_hosts: { 1 ≤ hosts },
    ghost few_hosts: { hosts ≤ most_hosts },
    ghost has_code: { IsTrue (has_code command code) },
}
