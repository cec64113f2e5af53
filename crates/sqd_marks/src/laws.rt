//! What the bytes of marks promise.
ghost use Rattle.std.specs.Prelude.{◌≡◌};
ghost use Rattle.sqd_marks.specs.Marks.{TextMark, IsWellFormedMark, kind_of_mark, mark_bytes};

/// Bytes are those of one mark of a kind at most: they are cut in one way into names, blanks,
/// quotes and values.
pub fn one_spelling()
    ensures { (m n : TextMark) → IsWellFormedMark m → IsWellFormedMark n
        → kind_of_mark m ≡ kind_of_mark n
        → mark_bytes m ≡ mark_bytes n → m ≡ n }
{}
