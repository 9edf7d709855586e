ghost use Rattle.std.specs.Prelude.{◌≡◌, ℕ, List, Result};
ghost use Rattle.scr_words.specs.declared.settings.RunSettings.{RunSettings};
ghost use Rattle.scr_words.specs.declared.word_fault.WordFault.{WordFault};
ghost use Rattle.scr_words.specs.Answers.{IsAnswer};

/// Any words are accepted with some settings, or refused with some fault.
pub fn some_answer()
    ensures { (words : List (List ℕ)) → (answer : Result RunSettings WordFault) × IsAnswer words answer }
{}

/// Words have one answer: accepted ones their settings, and refused ones their word and cause. None are both.
pub fn one_answer()
    ensures { (words : List (List ℕ)) (one other : Result RunSettings WordFault) → IsAnswer words one → IsAnswer words other → one ≡ other }
{}
