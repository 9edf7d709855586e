//! The words of the command line of `scr`.
//!
//! **What it does.** [`read_words`] tests the words and gives the settings that they choose, with the defaults for what they
//! leave out, or the first word that is refused, with its first cause. [`put_word_line`] writes the line of a refused word.
//!
//! **What a contract sees.** Words as lists of bytes. The table of operands is specs/Operands.antt, with the limits in
//! specs/Limits.antt; why words are refused is specs/WordFaults.antt, with specs/TextFaults.antt for lists and tables;
//! which settings they choose is specs/GivenSettings.antt, and the line specs/WordLines.antt.
//!
//! **What is proved.** Settings come only for words that are accepted, a refusal only for those that are refused, each by its
//! definition. Any words have an answer ([`some_answer`]), and one alone ([`one_answer`]). So where memory suffices words are
//! accepted or refused, and rightly.
//!
//! **What is only tested.** That there are settings where there is memory, since no contract sees how much there is. That
//! settings and lines, written by hand, are what the definitions say.
//!
//! **Limits.** Fewer than 2^32 - 1 words. The lists of the link and the table alone are kept in memory.
#![tactic(auto)]

mod choosing;
mod faults;
mod laws;
mod operand;
mod parts;
mod program_name;
mod reading;
mod settings;
#[cfg(test)]
mod tests;
mod texts;
mod word_fault;
mod word_line;

pub use laws::{one_answer, some_answer};
pub use reading::{WordsError, read_words};
pub use settings::{Command, OneSettings, ProgramSettings, RunSettings, Shape};
pub use word_fault::{WordCause, WordFault};
pub use word_line::put_word_line;
