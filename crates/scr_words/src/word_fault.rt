use scr_plan::{DelayCause, DropCause};
use scr_tables::TableCause;

/// A refused word: its number, from 1, and why.
#[derive(Clone, Copy, Debug, PartialEq, Eq)]
pub struct WordFault {
    pub word: u32,
    pub cause: WordCause,
}

/// Why a word is refused.
#[derive(Clone, Copy, Debug, PartialEq, Eq)]
pub enum WordCause {
    /// There is no word.
    NoCommand,
    /// The first word is no command.
    Command,
    /// The word has no `=`.
    NoEquals,
    /// No operand has the name in front of the first `=`.
    UnknownName,
    /// The command doesn't take this operand, or it belongs to a program other than the chosen one.
    NotHere,
    /// An earlier word has the name.
    Twice,
    /// The value is the name of no program, or of none that may stand there.
    Program,
    /// The value is not of its form.
    Value,
    /// A number is outside its range.
    Range,
    /// The drop list is refused.
    Drop {
        /// Why its first refused piece is refused.
        cause: DropCause,
        /// How many bytes stand before that piece.
        place: u64,
    },
    /// All words are good, and none of them gives a required operand: the program, one of the two of a chain, or the table
    /// of a program given as one.
    Missing,
    /// The repeat list is refused.
    Repeat {
        /// Why its first refused piece is refused.
        cause: DropCause,
        /// How many bytes stand before that piece.
        place: u64,
    },
    /// The list of delays is refused.
    Delay {
        /// Why its first refused piece is refused.
        cause: DelayCause,
        /// How many bytes stand before that piece.
        place: u64,
    },
    /// The two programs of a chain are the same, and this is the later of their words.
    Same,
    /// The table is refused.
    Table {
        /// Why its first refused rule is refused, or that a state lacks a rule for any packet.
        cause: TableCause,
        /// How many bytes stand before that rule, or the least such state.
        place: u64,
    },
}
