ghost use Rattle.std.specs.Prelude.{◌≤◌};
ghost use Rattle.scr_plan.specs.Limits.{most_cores, longest_history};
ghost use Rattle.scr_words.specs.Limits.{most_ring, most_frames, most_hosts};

use scr_bucket::BucketSettings;
use scr_conn::ConnSettings;
use scr_ddos::DdosSettings;
use scr_heavy::HeavySettings;
use scr_knock::KnockSettings;
use scr_plan::Link;
use scr_tables::TableSettings;

/// What the program is to do.
#[derive(Clone, Copy, Debug, PartialEq, Eq)]
pub enum Command {
    /// Read a capture, and let cores give each frame a verdict.
    Run,
    /// Read a capture, and take it as one program without cores does.
    Plain,
    /// Let cores take a capture that is made up.
    Load,
    /// Read a capture, and write what the cores are delivered as a stream.
    Spray,
    /// Read such a stream, and let its cores give each frame a verdict.
    Replay,
}

/// One of the five programs, with the numbers that are chosen for it.
#[derive(Clone, Copy, Debug, PartialEq, Eq)]
pub enum OneSettings {
    /// The flood counter.
    Ddos(DdosSettings),
    /// Heavy flows.
    Heavy(HeavySettings),
    /// The token bucket.
    Bucket(BucketSettings),
    /// The knocking at ports.
    Knock(KnockSettings),
    /// The connection tracker.
    Conn(ConnSettings),
}

/// What runs.
#[derive(Debug, Drop)]
pub enum ProgramSettings {
    /// One program.
    One(OneSettings),
    /// A chain: the second program sees what the first lets pass. In accepted words the first is never the connection
    /// tracker, and the two differ.
    Chain {
        first: OneSettings,
        second: OneSettings,
    },
    /// A table of rules.
    Table(TableSettings),
}

/// How the frames of a run go to its cores. A stream that is read says itself how many cores there are, what its frames
/// carry and which of them are lost; the words tell nothing of that then, and these have their defaults.
#[derive(Debug, Drop)]
pub struct Shape {
    /// How many cores there are, from 1 to 16.
    pub cores: u32,
    /// How many packets before its own a frame carries, at most 64.
    pub history: u32,
    /// What lies between the sequencer and the cores.
    pub link: Link,
    /// How many slots the log of a core has, from 1 to 4,096.
    pub ring: u32,
    /// Whether each core has a thread of its own.
    pub threads: bool,
    ghost some_cores: { 1 ≤ cores },
    ghost few_cores: { cores ≤ most_cores },
    ghost short_history: { history ≤ longest_history },
    ghost some_ring: { 1 ≤ ring },
    ghost short_ring: { ring ≤ most_ring },
}

/// All that the words of a command line choose, with the defaults for what they leave out.
#[derive(Debug, Drop)]
pub struct RunSettings {
    /// What to do.
    pub command: Command,
    /// The program, with its numbers. To write or read a stream, it is one of the five.
    pub program: ProgramSettings,
    /// How frames go to the cores.
    pub shape: Shape,
    /// What the made-up capture begins with.
    pub start: u64,
    /// How many frames it has, at most 1,000,000.
    pub frames: u32,
    /// How many hosts send in it, from 1 to 65,536.
    pub hosts: u32,
    ghost few_frames: { frames ≤ most_frames },
    ghost some_hosts: { 1 ≤ hosts },
    ghost few_hosts: { hosts ≤ most_hosts },
}
