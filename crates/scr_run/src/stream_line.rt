ghost use Rattle.std.specs.Prelude.{◌≡◌};
ghost use Rattle.std.specs.List.{flat_map};
ghost use Rattle.scr_base.specs.Pieces.{text_of};
ghost use Rattle.scr_run.specs.FaultLines.{stream_line, stream_cause_line, wire_cause};

use crate::fault_line::{Line, numbered_line, text_line};
use scr_base::Piece;
use scr_stream::StreamError;
use scr_wire::WireError;

const ENTRY: &[u8] = b"scr: entry ";

/// The line of a stream that is refused.
pub(crate) fn stream_line(error: &StreamError) -> Line
    ensures { flat_map text_of result ≡ stream_line error.now }
{
    match error {
        StreamError::ShortHeader => cause_line(b"ShortHeader"),
        StreamError::Mark => cause_line(b"Mark"),
        StreamError::Version => cause_line(b"Version"),
        StreamError::Program => cause_line(b"Program"),
        StreamError::Shape => cause_line(b"Shape"),
        StreamError::Cut { entry } => numbered_line(ENTRY, *entry, b": ", b"Cut"),
        StreamError::Message { entry, cause } => {
            numbered_line(ENTRY, *entry, b": Message ", wire_cause(*cause))
        }
        StreamError::Beacon { entry } => numbered_line(ENTRY, *entry, b": ", b"Beacon"),
        StreamError::Number { entry } => numbered_line(ENTRY, *entry, b": ", b"Number"),
        StreamError::Rows { entry } => numbered_line(ENTRY, *entry, b": ", b"Rows"),
        StreamError::Differs { entry } => numbered_line(ENTRY, *entry, b": ", b"Differs"),
        StreamError::Trailing => cause_line(b"Trailing"),
        // No status holds these two; their lines are those of their own statuses.
        StreamError::ReadFault => text_line(b"scr: read fault\n"),
        StreamError::OutOfMemory(_) => text_line(b"scr: out of memory\n"),
    }
}

fn cause_line(cause: &'static [u8]) -> Line
    ensures { flat_map text_of result ≡ stream_cause_line cause.now }
{
    let nothing = Piece::Text(b"");
    [
        nothing,
        nothing,
        Piece::Text(b"scr: stream: "),
        Piece::Text(cause),
        Piece::Text(b"\n"),
    ]
}

fn wire_cause(cause: WireError) -> &'static [u8]
    ensures { result.now ≡ wire_cause cause }
{
    match cause {
        WireError::Short => b"Short",
        WireError::Mark => b"Mark",
        WireError::Version => b"Version",
        WireError::Kind => b"Kind",
        WireError::Count => b"Count",
        WireError::Length => b"Length",
    }
}
