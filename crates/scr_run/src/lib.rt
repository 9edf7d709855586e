//! The run of `scr`, from the words of the command line to the report.
//!
//! **What it does.** [`scr_main`] reads the words ([`read_words`]), takes a capture to its end or makes one up, and lets one
//! of the five programs, a chain of two or a table give verdicts: on its own ([`plain_run`]), or on up to 16 cores, in
//! threads or in turns, that share no table ([`run_engine`]). Then it writes the report. Where the cores are threads, the
//! lines of its verdicts leave while they run, and the rest comes behind them. Or it writes what the cores are delivered of a
//! capture as a stream, or reads such a stream in place of a capture. Where a run ends otherwise, it writes a line about it to
//! a second sink. A [`Status`] tells how it ended and has the exit code, and [`write_fault_line`] writes the
//! line of any status.
//!
//! **What a contract sees.** Words, captures, reports and lines as lists of bytes, streams that are sprayed and replayed too,
//! and sources and sinks as scr_base has them, by what is left or written and by counts of failures and wants. A program is
//! seen by its row of a frame, its verdict of a row after others, its count of entries and its names (specs/Rules.antt). The report of a run is that of the one-core
//! answer over a plan of its rows, cores, history and link (specs/RunReport.antt). What words and input ask for, a text or
//! the status that refuses, is specs/Asked.antt, and how a run ends over it specs/Ends.antt.
//!
//! **What is proved.** A run that is done has read the whole input and written exactly the text that is asked for. What
//! stands at any other end is a front of it, and nothing before the input was read to its end. Words, captures and streams
//! are refused exactly where that is asked for, where memory sufficed and no read failed. The failure of a source or a sink
//! is answered only where its count rose, by one, so that no failed read or write is tried again. A load reads nothing. The
//! line on the second sink is that of the status, or a front of it, and none is written where the run is done. What is
//! sprayed and replayed gives the report of the run ([`replayed_is_run`]).
//!
//! **What is only tested.** That a run is done where there is memory, since no contract sees how much there is: a body
//! that asks for memory that it doesn't need, and lacks it, would be proved too. That settings, reports and lines, written
//! by hand, are what the definitions say.
//!
//! **Limits.** A capture of a million frames, whose rows are held in memory. A run whose cores are threads waits for them, and
//! nothing says that it returns. Where a stream doesn't tell its bytes, as the standard streams don't, contracts speak of its
//! counts alone.
#![tactic(auto)]

mod commands;
mod engine;
mod fault_line;
mod found;
mod host;
mod laws;
mod names;
mod plain;
mod planned;
mod replay;
mod spray;
mod status;
mod stream_line;
mod streaming;
mod task;
#[cfg(test)]
mod tests;
mod top;

pub use engine::run_engine;
pub use fault_line::{tell_want, write_fault_line};
pub use laws::{plain_over_an_empty_link, replayed_is_run};
pub use names::names_of;
pub use plain::plain_run;
pub use scr_crew::OpenGate;
pub use scr_replica::Gate;
pub use scr_words::{
    Command, OneSettings, ProgramSettings, RunSettings, Shape, WordCause, WordFault, WordsError,
    one_answer, put_word_line, read_words, some_answer,
};
pub use status::Status;
pub use top::scr_main;
