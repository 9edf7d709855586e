ghost use Rattle.std.specs.Prelude.{◌≡◌};

use scr_base::{Failed, OutOfMemory};
use scr_wire::WireError;

/// Why a stream can't be read: the first of these tests that fails, in this order, or the source or the memory failed.
/// Entries are the messages, numbered from 1.
#[derive(Clone, Copy, Debug, PartialEq, Eq)]
pub enum StreamError {
    /// There are fewer bytes than the header has.
    ShortHeader,
    /// They don't begin with the mark.
    Mark,
    /// The version is another one.
    Version,
    /// It is the stream of another program.
    Program,
    /// The cores or the history are out of their bounds.
    Shape,
    /// The bytes end within this entry, or where it should begin.
    Cut { entry: u32 },
    /// This entry doesn't begin as a message does.
    Message { entry: u32, cause: WireError },
    /// This entry is a beacon.
    Beacon { entry: u32 },
    /// The number of this entry is too large, or not above those of the frames before it.
    Number { entry: u32 },
    /// This frame has more or fewer rows than the history says.
    Rows { entry: u32 },
    /// This frame has another row of a packet than an earlier frame.
    Differs { entry: u32 },
    /// A byte follows the end.
    Trailing,
    /// The source failed.
    ReadFault,
    /// There was no memory.
    OutOfMemory(OutOfMemory),
}

impl From<Failed> for StreamError {
    ghost use Rattle.scr_stream.specs.declared.error.StreamError.TheVariants.{ReadFault};

    ghost from_gives = { λ _ error. error ≡ ReadFault };

    fn from(_: Failed) -> Self {
        StreamError::ReadFault
    }
}

impl From<OutOfMemory> for StreamError {
    ghost use Rattle.scr_stream.specs.declared.error.StreamError.TheVariants.{OutOfMemory};

    ghost from_gives = { λ want error. error ≡ OutOfMemory want };

    fn from(want: OutOfMemory) -> Self {
        StreamError::OutOfMemory(want)
    }
}
