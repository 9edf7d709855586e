ghost use Rattle.std.specs.Prelude.{◌≡◌, ◌≢◌, ◌++◌, codes, decimal};
ghost use Rattle.std.specs.List.{flat_map};
ghost use Rattle.scr_base.specs.Causes.{CountsError};
ghost use Rattle.scr_base.specs.Pieces.{text_of};
ghost use Rattle.scr_base.specs.Streams.{WritesText, BatchesText};
ghost use Rattle.scr_words.specs.declared.word_fault.WordFault.{WordFault};
ghost use Rattle.scr_run.specs.FaultLines.{blocks_line, capture_line, fault_line, want_code, want_line, IsTold};

use crate::status::{Status, WANT_CODE};
use crate::stream_line::stream_line;
use scr_base::{Batch, Piece, Sink, SinkError, put_all};
use scr_pcap::CaptureError;
use scr_pcapng::NgError;
use scr_words::put_word_line;

/// The pieces of a line. Those that it doesn't need have no bytes.
pub(crate) type Line = [Piece<'static>; 5];

const BLOCK: &[u8] = b"scr: block ";

const WANT_LINE: &[u8] = b"scr: out of memory\n";

/// What is told of a program that had no memory for its words: the line of a run out of memory, and its code.
pub fn tell_want<E: Sink>(err: &mut E) -> u8
    ensures code { result ≡ want_code }
    ensures line { IsTold E.written E.faults E.wants err.old err.new want_line }
{
    let _ = put_all(err, WANT_LINE);
    WANT_CODE
}

/// Writes the line of a status, which tells how a run ended; one that is done has none, and then the sink isn't called. At
/// `Err` a front of the line is written: the sink failed, or it wanted memory.
pub fn write_fault_line<E: Sink>(err: &mut E, status: &Status) -> Result<(), SinkError>
    ensures text { WritesText (E.written err.old) (E.written err.new) result (fault_line status.now) }
    ensures counts { CountsError E.faults E.wants err.old err.new result }
    ensures silent { status.now ≡ Status.Done → err.new ≡ err.old }
{
    if matches!(status, Status::Done) {
        return Ok(());
    }
    let mut batch = Batch::new();
    put_fault_line(&mut batch, err, status)?;
    batch.finish(err)
}

fn put_fault_line<E: Sink>(batch: &mut Batch, err: &mut E, status: &Status) -> Result<(), SinkError>
    ensures text { BatchesText (E.written err.old) (E.written err.new) batch.old batch.new result (fault_line status.now) }
    ensures counts { CountsError E.faults E.wants err.old err.new result }
{
    match status {
        Status::Words(fault) => put_word_line(batch, err, fault),
        other => batch.put_pieces(err, &line_of(other)),
    }
}

// The line of a status, but for that of words.
fn line_of(status: &Status) -> Line
    requires { (fault : WordFault) → status.now ≢ Status.Words fault }
    ensures { flat_map text_of result ≡ fault_line status.now }
{
    match status {
        Status::Done => text_line(b""),
        Status::Words(_) => unreachable!(),
        Status::Capture(error) => capture_line(error),
        Status::ReadFault => text_line(b"scr: read fault\n"),
        Status::WriteFault => text_line(b"scr: write fault\n"),
        Status::OutOfMemory(_) => text_line(WANT_LINE),
        Status::TooMany { limit } => numbered_line(b"scr: more than ", *limit, b" records", b""),
        Status::Pcapng(error) => blocks_line(error),
        Status::Stream(error) => stream_line(error),
    }
}

fn capture_line(error: &CaptureError) -> Line
    ensures { flat_map text_of result ≡ capture_line error.now }
{
    match error {
        CaptureError::ShortHeader => text_line(b"scr: header: ShortHeader\n"),
        CaptureError::Magic => text_line(b"scr: header: Magic\n"),
        CaptureError::Version => text_line(b"scr: header: Version\n"),
        CaptureError::LinkType => text_line(b"scr: header: LinkType\n"),
        CaptureError::ShortRecord { number } => {
            numbered_line(b"scr: record ", *number, b": ", b"ShortRecord")
        }
        CaptureError::LongRecord { number, length } => {
            length_line(b"scr: record ", *number, b": LongRecord ", *length)
        }
        CaptureError::TooMany { limit } => {
            numbered_line(b"scr: more than ", *limit, b" records", b"")
        }
        CaptureError::ReadFault => text_line(b"scr: read fault\n"),
    }
}

fn blocks_line(error: &NgError) -> Line
    ensures { flat_map text_of result ≡ blocks_line error.now }
{
    match error {
        NgError::Cut { block } => numbered_line(BLOCK, *block, b": ", b"Cut"),
        NgError::Mark { block } => numbered_line(BLOCK, *block, b": ", b"Mark"),
        NgError::Length { block } => numbered_line(BLOCK, *block, b": ", b"Length"),
        NgError::Version { block } => numbered_line(BLOCK, *block, b": ", b"Version"),
        NgError::Resolution { block } => numbered_line(BLOCK, *block, b": ", b"Resolution"),
        NgError::Interface { block } => numbered_line(BLOCK, *block, b": ", b"Interface"),
        NgError::Captured { block, length } => {
            length_line(BLOCK, *block, b": Captured ", *length)
        }
        NgError::LinkType { block } => numbered_line(BLOCK, *block, b": ", b"LinkType"),
        NgError::TooMany { limit } => numbered_line(b"scr: more than ", *limit, b" records", b""),
        NgError::TooManyBlocks { limit } => {
            numbered_line(b"scr: more than ", *limit, b" blocks", b"")
        }
    }
}

/// A line that is known whole.
pub(crate) fn text_line(text: &'static [u8]) -> Line
    ensures { flat_map text_of result ≡ text.now }
{
    let nothing = Piece::Text(b"");
    [nothing, nothing, nothing, nothing, Piece::Text(text)]
}

/// A line with a number, which has no zeros in front, and a cause.
pub(crate) fn numbered_line(
    front: &'static [u8],
    number: u32,
    middle: &'static [u8],
    cause: &'static [u8],
) -> Line
    ensures { flat_map text_of result ≡ front.now ++ (decimal number ++ (middle.now ++ (cause.now ++ codes "\n"))) }
{
    [
        Piece::Text(front),
        Piece::Number(u64::from(number)),
        Piece::Text(middle),
        Piece::Text(cause),
        Piece::Text(b"\n"),
    ]
}

// A line with two numbers.
fn length_line(front: &'static [u8], number: u32, middle: &'static [u8], length: u32) -> Line
    ensures { flat_map text_of result ≡ front.now ++ (decimal number ++ (middle.now ++ (decimal length ++ codes "\n"))) }
{
    [
        Piece::Text(front),
        Piece::Number(u64::from(number)),
        Piece::Text(middle),
        Piece::Number(u64::from(length)),
        Piece::Text(b"\n"),
    ]
}
