ghost use Rattle.std.specs.Prelude.{◌≡◌, ◌++◌};
ghost use Rattle.scr_base.specs.Causes.{CountsError};
ghost use Rattle.scr_base.specs.Streams.{BatchesText};
ghost use Rattle.scr_words.specs.WordLines.{word_line, cause_line, drop_cause_name, delay_cause_name, table_cause_name, placed};

use crate::word_fault::{WordCause, WordFault};
use scr_base::{Batch, Piece, Sink, SinkError};
use scr_plan::{DelayCause, DropCause};
use scr_tables::TableCause;

/// Puts the line of a refused word into a batch. At `Err` a front of the line is in the batch and the sink: the sink failed,
/// or it wanted memory.
pub fn put_word_line<E: Sink>(
    batch: &mut Batch,
    err: &mut E,
    fault: &WordFault,
) -> Result<(), SinkError>
    ensures text { BatchesText (E.written err.old) (E.written err.new) batch.old batch.new result (word_line fault.now) }
    ensures cause { CountsError E.faults E.wants err.old err.new result }
{
    batch.put_pieces(
        err,
        &[
            Piece::Text(b"scr: word "),
            Piece::Number(u64::from(fault.word)),
            Piece::Text(b": "),
        ],
    )?;
    put_cause(batch, err, fault.cause)
}

fn put_cause<E: Sink>(batch: &mut Batch, err: &mut E, cause: WordCause) -> Result<(), SinkError>
    ensures text { BatchesText (E.written err.old) (E.written err.new) batch.old batch.new result (cause_line cause) }
    ensures cause { CountsError E.faults E.wants err.old err.new result }
{
    match cause {
        WordCause::NoCommand => batch.put(err, b"NoCommand\n"),
        WordCause::Command => batch.put(err, b"Command\n"),
        WordCause::NoEquals => batch.put(err, b"NoEquals\n"),
        WordCause::UnknownName => batch.put(err, b"UnknownName\n"),
        WordCause::NotHere => batch.put(err, b"NotHere\n"),
        WordCause::Twice => batch.put(err, b"Twice\n"),
        WordCause::Program => batch.put(err, b"Program\n"),
        WordCause::Value => batch.put(err, b"Value\n"),
        WordCause::Range => batch.put(err, b"Range\n"),
        WordCause::Drop { cause, place } => {
            put_placed(batch, err, b"Drop ", drop_cause_name(cause), place)
        }
        WordCause::Missing => batch.put(err, b"Missing\n"),
        WordCause::Repeat { cause, place } => {
            put_placed(batch, err, b"Repeat ", drop_cause_name(cause), place)
        }
        WordCause::Delay { cause, place } => {
            put_placed(batch, err, b"Delay ", delay_cause_name(cause), place)
        }
        WordCause::Same => batch.put(err, b"Same\n"),
        WordCause::Table { cause, place } => {
            put_placed(batch, err, b"Table ", table_cause_name(cause), place)
        }
    }
}

// Puts the cause of a text that is refused, and where it is met.
fn put_placed<E: Sink>(
    batch: &mut Batch,
    err: &mut E,
    text: &'static [u8],
    name: &'static [u8],
    place: u64,
) -> Result<(), SinkError>
    ensures text { BatchesText (E.written err.old) (E.written err.new) batch.old batch.new result (text.now ++ placed name.now place) }
    ensures cause { CountsError E.faults E.wants err.old err.new result }
{
    batch.put_pieces(
        err,
        &[
            Piece::Text(text),
            Piece::Text(name),
            Piece::Text(b" at "),
            Piece::Number(place),
            Piece::Text(b"\n"),
        ],
    )
}

fn drop_cause_name(cause: DropCause) -> &'static [u8]
    ensures { result.now ≡ drop_cause_name cause }
{
    match cause {
        DropCause::Empty => b"Empty",
        DropCause::Digit => b"Digit",
        DropCause::Zero => b"Zero",
        DropCause::TooLarge => b"TooLarge",
        DropCause::Range => b"Range",
        DropCause::Pieces => b"Pieces",
    }
}

fn delay_cause_name(cause: DelayCause) -> &'static [u8]
    ensures { result.now ≡ delay_cause_name cause }
{
    match cause {
        DelayCause::Empty => b"Empty",
        DelayCause::Digit => b"Digit",
        DelayCause::Zero => b"Zero",
        DelayCause::TooLarge => b"TooLarge",
        DelayCause::Twice => b"Twice",
        DelayCause::Pieces => b"Pieces",
    }
}

fn table_cause_name(cause: TableCause) -> &'static [u8]
    ensures { result.now ≡ table_cause_name cause }
{
    match cause {
        TableCause::Empty => b"Empty",
        TableCause::Form => b"Form",
        TableCause::Range => b"Range",
        TableCause::Rules => b"Rules",
        TableCause::NoAny => b"NoAny",
    }
}
