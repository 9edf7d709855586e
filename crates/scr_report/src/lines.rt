ghost use Rattle.std.specs.Prelude.{◌≡◌, ℕ, ◌+◌, ◌*◌, ◌<◌, ◌≤◌, ◌^◌, ◌∷◌, [], length, ◌==◌};
ghost use Rattle.scr_report.specs.Grammar.{lines_in};
ghost use Rattle.scr_report.specs.Parts.{first_line, Cursor, GoesPast, refusal_at};

use crate::report::ReportError;
use std::marker::Model;

// The lines of a text from the current one on.
#[derive(Drop)]
pub struct Lines<'a> {
    text: &'a [u8],
    // How many bytes the current line has, with its line feed.
    length_of_line: usize,
    number: u32,
}

impl<'a> Model for Lines<'a> {
    ghost Value = { Cursor };

    ghost view = { λ lines. record { text = lines.text.now; number = lines.number } };

    ghost invariant = { λ lines. (lines.length_of_line ≡ length (first_line lines.text.now))
        × (2 * lines.number + length lines.text.now < 2 ^ 32 + 2) };
}

impl<'a> Lines<'a> {
    pub fn of(text: &'a [u8]) -> Self
        requires { length text.now < 2 ^ 32 }
        ensures text { result.text ≡ text.now }
        ensures number { result.number ≡ 1 }
    {
        Lines {
            text,
            length_of_line: length_of_line(text),
            number: 1,
        }
    }

    // The current line, which is empty where the text has ended.
    pub fn line(&self) -> &'a [u8]
        ensures { result.now ≡ first_line self.now.text }
    {
        self.text.split_at(self.length_of_line).0
    }

    // Goes to the next line. A line that is allowed has two bytes at least.
    pub fn pass(&mut self)
        requires { 2 ≤ length (first_line self.old.text) }
        ensures past { GoesPast self.old self.new (first_line self.old.text ∷ []) }
        ensures shorter { length self.new.text < length self.old.text }
    {
        let (_, text) = self.text.split_at(self.length_of_line);
        self.text = text;
        self.length_of_line = length_of_line(text);
        self.number += 1;
    }

    // The error where the current line isn't the one that is wanted.
    pub fn refusal(&self) -> ReportError
        ensures { result ≡ refusal_at self.now.text self.now.number }
    {
        let line = self.number;
        if self.text.is_empty() {
            ReportError::Ended { line }
        } else {
            ReportError::Line { line }
        }
    }

    // Whether the text has ended.
    pub fn is_at_end(&self) -> bool
        ensures { result ≡ (length self.now.text == 0) }
    {
        self.text.is_empty()
    }
}

// How many bytes the first line of a text has, with its line feed.
fn length_of_line(text: &[u8]) -> usize
    ensures { result ≡ length (first_line text.now) }
{
    match text.iter().position(|byte| *byte == b'\n') {
        Some(at) => at + 1,
        None => text.len(),
    }
}
