ghost use Rattle.std.specs.Prelude.{◌≡◌, ◌≤◌, ◌<◌, ◌^◌, ◌+◌, ◌++◌, ◌∷◌, [], List, ℕ, length, IfOk, All, IsTrue};
ghost use Rattle.scr_wire.specs.Kinds.{allows, most_rows};
ghost use Rattle.scr_wire.specs.Spelling.{kind_of, number_of, rows_of, header_bytes, rows_bytes, IsRow, Spells};
ghost use Rattle.scr_wire.specs.declared.message.Message.TheVariants as message;

use crate::message::{Message, MessageKind};
use crate::writing::{HEADER, ROW, write_header, write_rows};
use scr_base::{OutOfMemory, Row};
use std::alloc::Global;
use std::marker::Model;

/// The bytes of one message.
#[derive(Debug, Drop)]
pub struct Packet {
    bytes: Vec<u8>,
}

impl Model for Packet {
    ghost Value = { List ℕ };

    ghost view = { λ packet. packet.bytes.items };
}

impl Packet {
    /// The bytes.
    pub fn bytes(&self) -> &[u8]
        ensures { result.now ≡ self.now }
    {
        &self.bytes
    }
}

// The header and the rows in three pieces, one after the other.
fn packet_of(
    alloc: Global,
    kind: MessageKind,
    number: u32,
    front: &[Row],
    back: &[Row],
    last: &[Row],
) -> Result<Packet, OutOfMemory>
    requires { length front.now + length back.now + length last.now ≤ most_rows }
    ensures written { IfOk result (λ packet. packet ≡ header_bytes kind number (length front.now + length back.now + length last.now) ++ rows_bytes front.now ++ rows_bytes back.now ++ rows_bytes last.now) }
    ensures fits { IfOk result (λ _. All IsRow front.now × All IsRow back.now × All IsRow last.now) }
{
    let count = front.len() + back.len() + last.len();
    let mut bytes = vec![in alloc; 0u8; HEADER + ROW * count]?;
    let (header, rows) = bytes.split_at_mut(HEADER);
    write_header(header, kind, number, count as u16);
    let (front_rows, rows) = rows.split_at_mut(ROW * front.len());
    write_rows(front_rows, front);
    let (back_rows, last_rows) = rows.split_at_mut(ROW * back.len());
    write_rows(back_rows, back);
    write_rows(last_rows, last);
    Ok(Packet { bytes })
}

/// The one spelling of a message.
pub fn encode(alloc: Global, message: &Message) -> Result<Packet, OutOfMemory>
    requires { IsTrue (allows (kind_of message.now) (number_of message.now) (length (rows_of message.now))) }
    ensures { IfOk result (Spells message.now) }
{
    match message {
        Message::Frame { number, rows } => {
            packet_of(
                alloc,
                MessageKind::Frame,
                *number,
                rows.as_slice(),
                &[],
                &[],
            )
        }
        Message::Beacon { number } => packet_of(alloc, MessageKind::Beacon, *number, &[], &[], &[]),
        Message::End { number } => packet_of(alloc, MessageKind::End, *number, &[], &[], &[]),
    }
}

/// The one spelling of a frame's message, whose rows stand in two pieces and the frame's own behind them.
pub fn encode_frame(
    alloc: Global,
    number: u32,
    front: &[Row],
    back: &[Row],
    last: &Row,
) -> Result<Packet, OutOfMemory>
    requires few_rows { length front.now + length back.now + 1 ≤ most_rows }
    requires at_most_its_number { length front.now + length back.now + 1 ≤ number }
    ensures { IfOk result (Spells (message.Frame number (front.now ++ back.now ++ last.now ∷ []))) }
{
    packet_of(alloc, MessageKind::Frame, number, front, back, &[*last])
}
