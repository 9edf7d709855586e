ghost use Rattle.std.specs.Prelude.{◌≡◌, ◌≢◌, ℕ, ◌<◌, ◌≤◌, ◌++◌, ◌∷◌, [], List, All, length, map, OnOk, OnErr, IfOk, MatchOption, ◌==◌};
ghost use Rattle.std.specs.String.{string_bytes};
ghost use Rattle.scr_report.specs.Text.{most_names, name_at, line_ending};
ghost use Rattle.scr_report.specs.Grammar.{IsFirstOfName};

use scr_base::{OutOfMemory, Verdict};
use std::alloc::Global;
use std::marker::Model;

/// The names of a program's verdicts, in the order of their numbers: at most 255.
#[derive(Debug, Drop)]
pub struct Names {
    names: Vec<Name>,
}

// A name, and what stands behind the number in a line of its verdict, so that such a line is put in two pieces.
#[derive(Debug, Drop)]
struct Name {
    text: String,
    ending: Vec<u8>,
}

impl Model for Names {
    ghost Value = { List (List ℕ) };

    ghost view = { λ names. map (λ name. string_bytes name.text) names.names.items };

    ghost invariant = { λ names. (length names.names.items ≤ most_names)
        × All (λ name. name.ending.items ≡ line_ending (string_bytes name.text)) names.names.items };
}

impl Names {
    /// The empty list.
    pub fn none(alloc: Global) -> Self
        ensures { result ≡ [] }
    {
        Names {
            names: Vec::new(alloc),
        }
    }

    /// Puts a name behind the others. Where there is no memory, nothing changes.
    pub fn add(&mut self, name: &str) -> Result<(), OutOfMemory>
        requires { length self.old < most_names }
        ensures added { OnOk result (self.new ≡ self.old ++ name.now ∷ []) }
        ensures unchanged { OnErr result (self.new ≡ self.old) }
    {
        let alloc = *self.names.allocator();
        let text = String::from_str(alloc, name)?;
        let ending = ending_of(alloc, name)?;
        self.names.push(Name { text, ending })?;
        Ok(())
    }

    /// How many names there are.
    pub fn len(&self) -> usize
        ensures count { result ≡ length self.now }
        ensures few { result ≤ most_names }
    {
        self.names.len()
    }

    /// Whether there is no name.
    pub fn is_empty(&self) -> bool
        ensures { result ≡ (length self.now == 0) }
    {
        self.names.is_empty()
    }

    /// The name at a place, from 0.
    pub fn get(&self, place: usize) -> &str
        requires { place < length self.now }
        ensures { result.now ≡ name_at self.now place }
    {
        self.names[place].text.as_str()
    }

    // What stands behind the number in a line of the verdict at a place.
    #[inline(always)]
    pub(crate) fn ending(&self, place: usize) -> &[u8]
        requires { place < length self.now }
        ensures { result.now ≡ line_ending (name_at self.now place) }
    {
        &self.names[place].ending
    }

    // The verdict that has this name, the first where there are several.
    pub(crate) fn verdict(&self, text: &[u8]) -> Option<Verdict>
        ensures { MatchOption result
            ((place : ℕ) → IsFirstOfName self.now place → name_at self.now place ≢ text.now)
            (λ verdict. IsFirstOfName self.now verdict.0 × (name_at self.now verdict.0 ≡ text.now)) }
    {
        for (place, name) in self.names.iter().enumerate() {
            if name.text.as_bytes() == text {
                return Some(Verdict(place as u8));
            }
        }
        None
    }
}

// What stands behind the number in the line of a name.
fn ending_of(alloc: Global, name: &str) -> Result<Vec<u8>, OutOfMemory>
    ensures { IfOk result (λ ending. ending.items ≡ line_ending name.now) }
{
    let mut ending = Vec::new(alloc);
    ending.push(b' ')?;
    ending.extend_from_slice(name.as_bytes())?;
    ending.push(b'\n')?;
    Ok(ending)
}
