ghost use Rattle.std.specs.Prelude.{◌≡◌, ◌≤◌, ◌<◌, ◌-◌, ◌^◌, ◌++◌, ◌∷◌, [], length, map, drop, Err, IfOk, OnOk};
ghost use Rattle.std.specs.String.{string_bytes};
ghost use Rattle.std.specs.Vec.Iter.{into_iter_items};

use scr_base::{OutOfMemory, Word};
use std::alloc::Global;
use std::env::Args;
use std::io;

/// So many words or more are no command line.
const MOST_WORDS: usize = 4_294_967_295;

/// Why there are no words.
#[derive(Clone, Copy, Debug, PartialEq, Eq)]
pub enum NoWords {
    /// There was no memory for them.
    OutOfMemory(OutOfMemory),
    /// There are 2^32 - 1 or more.
    TooMany,
}

impl From<OutOfMemory> for NoWords {
    ghost use Rattle.std.specs.Prelude.{◌≡◌};
    ghost use Rattle.scr_cli.specs.declared.arguments.NoWords.TheVariants as none;

    ghost from_gives = { λ want made. made ≡ none.OutOfMemory want };

    fn from(want: OutOfMemory) -> Self {
        NoWords::OutOfMemory(want)
    }
}

/// The words that the system gives as arguments. Where it can't give them as text there is no word, which is refused as
/// such.
pub fn words_given(alloc: Global, arguments: io::Result<Args>) -> Result<Vec<Word>, NoWords>
    ensures words { IfOk arguments (λ all. IfOk result (λ words. words.items ≡ drop 1 (map string_bytes (into_iter_items all)))) }
    ensures too_many { IfOk arguments (λ all. result ≡ Err NoWords.TooMany → 2 ^ 32 - 1 ≤ length (drop 1 (into_iter_items all))) }
    ensures few { IfOk result (λ words. length words.items < 2 ^ 32 - 1) }
{
    match arguments {
        Ok(all) => words_behind_name(alloc, all),
        Err(error) => match OutOfMemory::of_system(&error) {
            Some(want) => Err(NoWords::OutOfMemory(want)),
            None => Ok(Vec::new(alloc)),
        },
    }
}

// The arguments behind the program's own name.
fn words_behind_name(alloc: Global, mut all: Args) -> Result<Vec<Word>, NoWords>
    ensures words { IfOk result (λ words. words.items ≡ drop 1 (map string_bytes (into_iter_items all))) }
    ensures too_many { result ≡ Err NoWords.TooMany → 2 ^ 32 - 1 ≤ length (drop 1 (into_iter_items all)) }
    ensures few { IfOk result (λ words. length words.items < 2 ^ 32 - 1) }
{
    let mut words = Vec::new(alloc);
    let _name = all.next();
    while let Some(argument) = all.next() {
        if words.len() + 1 >= MOST_WORDS {
            return Err(NoWords::TooMany);
        }
        put_word(&mut words, &argument)?;
    }
    Ok(words)
}

// Puts the word of an argument behind the others.
fn put_word(words: &mut Vec<Word>, argument: &str) -> Result<(), OutOfMemory>
    ensures { OnOk result (words.new.items ≡ words.old.items ++ argument.now ∷ []) }
{
    let word = Word::of(*words.allocator(), argument.as_bytes())?;
    words.push(word)?;
    Ok(())
}
