//! The report of a run, as text: written line by line, and read back.
//!
//! **What it does.** A [`Report`] has the verdicts of a run and its counters. [`write_report`] writes it, with the lines
//! of the verdicts or without; [`write_line`] writes one such line, and [`put_line`] puts one into a batch.
//! [`read_report`] reads what was written, or tells the first line that is wrong or missing. Both go by the [`Names`] of
//! a program's verdicts. [`Report::of`] counts how often each name was given. [`is_plain`] tells whether a report is read
//! back as itself.
//!
//! **What a contract sees.** A report as the record of its lists and numbers, names as a list of texts, a sink by what
//! was written and by its counts. The text of a report is made of its lines, each with its line feed (specs/Text.antt,
//! specs/Outcome.antt). Bytes spell a report where their lines are those of the report; lines are allowed where some
//! report begins with them (specs/Grammar.antt). `report_of` is the outcome of verdicts and counts, with the totals
//! counted from the verdicts.
//!
//! **What is proved.** What is written is exactly the text, and at an error a front of it that isn't all; the sink counts the
//! error by its kind, and nothing else. A report is the lines of its verdicts, and then the report without them
//! ([`verdicts_then_rest`]). What is read is the one report that the bytes spell; a line is refused exactly where it
//! is the first that no report has behind the lines before it, and one is missing exactly where all lines are allowed and
//! no report ends there. But for want of memory no other answer fits. A plain report that was written with its verdicts
//! is read back as itself.
//!
//! **What is only tested.** That there can be memory for names and for a report that is read.
//!
//! **Limits.** At most 255 names and, where a report is read, 16 cores and fewer than 2^32 bytes. Of several equal names
//! a verdict line means the first. A name with a line feed can be written, but no bytes are read by a list that has one.
//! Sums are not tested. Writing takes memory only where the sink does; a batch of 64 KiB lies on the stack. Each verdict
//! line is looked up name by name.
#![tactic(auto)]

mod laws;
mod line;
mod lines;
mod names;
mod number;
mod reading;
mod report;
#[cfg(test)]
mod tests;
mod totals;
mod writing;

pub use laws::{is_plain, verdicts_then_rest};
pub use names::Names;
pub use reading::read_report;
pub use report::{FrameCounts, Report, ReportError};
pub use writing::{put_line, write_line, write_report};
