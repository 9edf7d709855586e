//! The classes of flags, and the whole table, typed from the tracker's description.

use crate::class::{Class, class_of};
use crate::entry::State;
use crate::table::{Cell, Direction, cell_of};

const INVALID: Cell = Cell::Invalid;

const SYN_SENT: Cell = Cell::Plain(State::SynSent);

const SYN_SENT_STAR: Cell = Cell::Starred(State::SynSent);

const SYN_RECV: Cell = Cell::Plain(State::SynRecv);

const ESTABLISHED: Cell = Cell::Plain(State::Established);

const FIN_WAIT: Cell = Cell::Plain(State::FinWait);

const FIN_WAIT_STAR: Cell = Cell::Starred(State::FinWait);

const LAST_ACK: Cell = Cell::Plain(State::LastAck);

const TIME_WAIT: Cell = Cell::Plain(State::TimeWait);

const CLOSED: Cell = Cell::Plain(State::Closed);

const NEAR: &[Direction] = &[Direction::Near];

const FAR: &[Direction] = &[Direction::Far];

const ANY: &[Direction] = &[Direction::Near, Direction::Far];

#[test]
fn the_whole_table(rt: HostRuntime) {
    // By RST, SYN with ACK, SYN, FIN and ACK.
    let classes = [
        Class::Reset,
        Class::SynAck,
        Class::Syn,
        Class::Fin,
        Class::Ack,
    ];
    let table = [
        (
            None,
            ANY,
            [INVALID, INVALID, SYN_SENT_STAR, INVALID, INVALID],
        ),
        (
            Some(State::SynSent),
            NEAR,
            [CLOSED, INVALID, SYN_SENT, INVALID, INVALID],
        ),
        (
            Some(State::SynSent),
            FAR,
            [CLOSED, SYN_RECV, INVALID, INVALID, INVALID],
        ),
        (
            Some(State::SynRecv),
            NEAR,
            [CLOSED, INVALID, SYN_RECV, FIN_WAIT_STAR, ESTABLISHED],
        ),
        (
            Some(State::SynRecv),
            FAR,
            [CLOSED, SYN_RECV, INVALID, FIN_WAIT_STAR, SYN_RECV],
        ),
        (
            Some(State::Established),
            NEAR,
            [CLOSED, INVALID, INVALID, FIN_WAIT_STAR, ESTABLISHED],
        ),
        (
            Some(State::Established),
            FAR,
            [CLOSED, ESTABLISHED, INVALID, FIN_WAIT_STAR, ESTABLISHED],
        ),
        (
            Some(State::FinWait),
            NEAR,
            [CLOSED, INVALID, INVALID, FIN_WAIT, FIN_WAIT],
        ),
        (
            Some(State::FinWait),
            FAR,
            [CLOSED, INVALID, INVALID, LAST_ACK, FIN_WAIT],
        ),
        (
            Some(State::LastAck),
            NEAR,
            [CLOSED, INVALID, INVALID, LAST_ACK, TIME_WAIT],
        ),
        (
            Some(State::LastAck),
            FAR,
            [CLOSED, INVALID, INVALID, LAST_ACK, LAST_ACK],
        ),
        (
            Some(State::TimeWait),
            ANY,
            [CLOSED, INVALID, SYN_SENT_STAR, TIME_WAIT, TIME_WAIT],
        ),
        (
            Some(State::Closed),
            ANY,
            [CLOSED, INVALID, SYN_SENT_STAR, INVALID, INVALID],
        ),
    ];
    for (state, directions, cells) in table {
        for direction in directions {
            for (class, cell) in classes.into_iter().zip(cells) {
                assert_eq!(rt; cell_of(state, *direction, class), cell, "at {state:?}");
            }
            for class in [Class::SynFin, Class::Unmarked] {
                assert_eq!(rt; cell_of(state, *direction, class), INVALID, "at {state:?}");
            }
        }
    }
}

#[test]
fn classes_of_flags(rt: HostRuntime) {
    let cases = [
        (0x04, Class::Reset),
        (0x14, Class::Reset),
        (0x07, Class::Reset),
        (0xFF, Class::Reset),
        (0x03, Class::SynFin),
        (0xFB, Class::SynFin),
        (0x12, Class::SynAck),
        (0x52, Class::SynAck),
        (0x02, Class::Syn),
        (0xC2, Class::Syn),
        (0x0A, Class::Syn),
        (0x01, Class::Fin),
        (0x11, Class::Fin),
        (0x10, Class::Ack),
        (0x18, Class::Ack),
        (0x00, Class::Unmarked),
        (0xE8, Class::Unmarked),
    ];
    for (flags, class) in cases {
        assert_eq!(rt; class_of(flags), class, "at {flags}");
    }
}
