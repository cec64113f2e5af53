//! What the rows of a text promise.
ghost use Rattle.std.specs.Prelude.{◌≡◌, ◌++◌, ◌∷◌, [], ℕ, ℤ, List, Option, Some, IsTrue};
ghost use Rattle.std.specs.List.{list_all};
ghost use Rattle.text_rows.specs.Rows.{rows, words, text_of, is_row, IsNumber};

/// A text is told by its rows: two texts with the same rows are the same.
pub fn one_text()
    ensures { (a b : List ℕ) → rows a ≡ rows b → a ≡ b }
{}

/// What is written line by line is read back: these rows, and nothing behind the last line feed.
pub fn rows_back()
    ensures { (lines : List (List (List ℕ))) → IsTrue (list_all is_row lines)
        → rows (text_of lines) ≡ lines ++ words [] ∷ [] }
{}

/// A word is one number at most.
pub fn one_number()
    ensures { (word : List ℕ) (y z : ℤ) → IsNumber word (Some y) → IsNumber word (Some z) → y ≡ z }
{}

/// Each word is a number, or none.
#[tactic(auto, using(crate::proofs::Readings::number_or_none))]
pub fn each_word_is_read()
    ensures { (word : List ℕ) → (number : Option ℤ) × IsNumber word number }
{}

/// Each text has a row, be it an empty one.
#[tactic(auto, using(crate::proofs::Readings::no_text_without_rows))]
pub fn each_text_has_rows()
    ensures { (text : List ℕ) → rows text ≡ [] → ⊥ }
{}
