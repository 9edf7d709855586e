ghost use Rattle.std.specs.Prelude.{◌≡◌};
ghost use Rattle.scr_conn.specs.Transitions.{transition};

use crate::class::Class;
use crate::entry::State;

/// Whether the sender of a packet is the side of the entry.
#[derive(Clone, Copy, Debug, PartialEq, Eq)]
pub(crate) enum Direction {
    Near,
    Far,
}

/// What the table says of a packet.
#[derive(Clone, Copy, Debug, PartialEq, Eq)]
pub(crate) enum Cell {
    /// The packet changes nothing.
    Invalid,
    /// The connection comes into this state, and the side stays.
    Plain(State),
    /// The connection comes into this state, and the sender becomes its side.
    Starred(State),
}

/// The cell of a state, or of none, for a packet of this direction and class.
#[inline(always)]
pub(crate) fn cell_of(state: Option<State>, direction: Direction, class: Class) -> Cell
    ensures { result ≡ transition state direction class }
{
    match (state, direction, class) {
        (_, _, Class::SynFin | Class::Unmarked) => Cell::Invalid,
        (None | Some(State::TimeWait | State::Closed), _, Class::Syn) => {
            Cell::Starred(State::SynSent)
        }
        (None, _, _) => Cell::Invalid,
        (Some(_), _, Class::Reset) => Cell::Plain(State::Closed),
        (Some(State::SynSent), Direction::Near, Class::Syn) => Cell::Plain(State::SynSent),
        (Some(State::SynSent), Direction::Far, Class::SynAck) => Cell::Plain(State::SynRecv),
        (Some(State::SynSent | State::Closed), _, _) => Cell::Invalid,
        (Some(State::SynRecv), Direction::Near, Class::Ack) => Cell::Plain(State::Established),
        (Some(State::SynRecv), Direction::Near, Class::Syn)
        | (Some(State::SynRecv), Direction::Far, Class::SynAck | Class::Ack) => {
            Cell::Plain(State::SynRecv)
        }
        (Some(State::SynRecv | State::Established), _, Class::Fin) => Cell::Starred(State::FinWait),
        (Some(State::Established), Direction::Far, Class::SynAck)
        | (Some(State::Established), _, Class::Ack) => Cell::Plain(State::Established),
        (Some(State::FinWait), Direction::Far, Class::Fin) => Cell::Plain(State::LastAck),
        (Some(State::FinWait), _, Class::Fin | Class::Ack) => Cell::Plain(State::FinWait),
        (Some(State::LastAck), Direction::Near, Class::Ack) => Cell::Plain(State::TimeWait),
        (Some(State::LastAck), _, Class::Fin | Class::Ack) => Cell::Plain(State::LastAck),
        (Some(State::TimeWait), _, Class::Fin | Class::Ack) => Cell::Plain(State::TimeWait),
        (Some(_), _, Class::Syn | Class::SynAck) => Cell::Invalid,
    }
}
