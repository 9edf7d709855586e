ghost use Rattle.std.specs.Prelude.{◌≡◌, ◌≢◌, ◌≤◌, length, Option, Some, None, OnOk, IfOk, IfErr, MatchResult};
ghost use Rattle.scr_plan.specs.Limits.{longest_history};
ghost use Rattle.scr_wire.specs.Kinds.{kind_with};
ghost use Rattle.scr_wire.specs.Refusals.{refusal};
ghost use Rattle.scr_wire.specs.Spelling.{spelling};
ghost use Rattle.scr_wire.specs.declared.message.Message.TheVariants as message;
ghost use Rattle.scr_stream.specs.declared.error.StreamError.{StreamError};
ghost use Rattle.scr_wire.specs.Reading.{number_in, count_in};
ghost use Rattle.scr_stream.specs.Tests.{kind_in, header_refusal, message_fault, field_fault, header_fault};

use crate::error::StreamError;
use crate::format::HEADER;
use byteorder::{BigEndian, ByteOrder};
use scr_wire::{MessageKind, WireError, decode};

/// The most packets of a run.
pub(crate) const LIMIT: u32 = 1_000_000;

// The fields in the header of an entry.
#[derive(Clone, Copy)]
pub(crate) struct Fields {
    pub(crate) kind: MessageKind,
    pub(crate) number: u32,
    pub(crate) count: u16,
}

// Where an entry stands: its number, the history, and the number of the last frame before it.
#[derive(Clone, Copy)]
pub(crate) struct Place {
    pub(crate) history: u32,
    pub(crate) entry: u32,
    pub(crate) last: u32,
}

// The kind that this byte spells.
fn kind_with(code: u8) -> MessageKind
    ensures { result ≡ kind_with code }
{
    match code {
        1 => MessageKind::Frame,
        2 => MessageKind::Beacon,
        _ => MessageKind::End,
    }
}

impl Place {
    // The fields of an entry whose first bytes these are, at most ten, or the first test that fails.
    #[tactic(auto, unfolding(crate::specs::Tests::header_fault))]
    pub(crate) fn fields_of(&self, header: &[u8]) -> Result<Fields, StreamError>
        requires few { length header.now ≤ 10 }
        requires short_history { self.now.history ≤ longest_history }
        ensures passed { OnOk result (header_fault self.now.history self.now.entry self.now.last header.now ≡ None) }
        ensures kind { IfOk result (λ fields. fields.kind ≡ kind_in header.now) }
        ensures number { IfOk result (λ fields. fields.number ≡ number_in header.now) }
        ensures count { IfOk result (λ fields. fields.count ≡ count_in header.now) }
        ensures spelled { IfOk result (λ fields. fields.kind ≡ MessageKind.End → header.now ≡ spelling (message.End fields.number)) }
        ensures refused { IfErr result (λ error. header_fault self.now.history self.now.entry self.now.last header.now ≡ Some error) }
        ensures no_fault { IfErr result (λ error. error ≢ StreamError.ReadFault) }
    {
        let entry = self.entry;
        if header.len() < HEADER {
            return Err(StreamError::Cut { entry });
        }
        self.test_message(header)?;
        let fields = fields_in(header);
        self.test_fields(fields)?;
        Ok(fields)
    }

    // Whether a message begins so, as far as its header tells.
    fn test_message(&self, header: &[u8]) -> Result<(), StreamError>
        requires { length header.now ≡ 10 }
        ensures no_fault { IfErr result (λ error. error ≢ StreamError.ReadFault) }
        ensures answer { MatchResult result (λ _. header_refusal (refusal header.now) ≡ None)
            (λ error. (fields : Option StreamError) → message_fault self.now.entry (header_refusal (refusal header.now)) fields ≡ Some error) }
    {
        match decode(header) {
            Ok(_) | Err(WireError::Length) => Ok(()),
            Err(cause) => Err(StreamError::Message {
                entry: self.entry,
                cause,
            }),
        }
    }

    // The tests of the kind, the number and the count of rows.
    fn test_fields(&self, fields: Fields) -> Result<(), StreamError>
        requires { self.now.history ≤ longest_history }
        ensures no_fault { IfErr result (λ error. error ≢ StreamError.ReadFault) }
        ensures answer { MatchResult result
            (λ _. field_fault self.now.history self.now.entry self.now.last fields.kind fields.number fields.count ≡ None)
            (λ error. field_fault self.now.history self.now.entry self.now.last fields.kind fields.number fields.count ≡ Some error) }
    {
        let entry = self.entry;
        match fields.kind {
            MessageKind::Beacon => Err(StreamError::Beacon { entry }),
            MessageKind::Frame => {
                if fields.number > LIMIT || fields.number <= self.last {
                    return Err(StreamError::Number { entry });
                }
                if u32::from(fields.count) != fields.number.min(self.history + 1) {
                    return Err(StreamError::Rows { entry });
                }
                Ok(())
            }
            MessageKind::End => {
                if fields.number > LIMIT || fields.number < self.last {
                    return Err(StreamError::Number { entry });
                }
                Ok(())
            }
        }
    }
}

// The fields in a header.
#[tactic(auto, unfolding(scr_wire::specs::Reading::number_in, scr_wire::specs::Reading::count_in))]
fn fields_in(header: &[u8]) -> Fields
    requires { length header.now ≡ 10 }
    ensures kind { result.kind ≡ kind_in header.now }
    ensures number { result.number ≡ number_in header.now }
    ensures count { result.count ≡ count_in header.now }
{
    Fields {
        kind: kind_with(header[3]),
        number: BigEndian::read_u32(&header[4..]),
        count: BigEndian::read_u16(&header[8..]),
    }
}
