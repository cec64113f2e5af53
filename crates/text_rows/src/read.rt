// Rows of words, taken off the front of a text.
ghost use Rattle.std.specs.Prelude.{◌≡◌, ◌++◌, ◌∷◌, [], eqb, IfSome, IfNone, IfOk, map, position};
ghost use Rattle.std.specs.List.{slice_split};
ghost use Rattle.text_rows.specs.Rows.{IsNumber, words};

use sidb_units::Memory;
use std::alloc::Global;
use std::str;

// One more than the greatest number.
const NUMBER_END: u64 = 100_000_000_000_000_000;

// Where the first such byte is.
fn find(text: &[u8], byte: u8) -> Option<usize>
    ensures { result ≡ position (λ b. eqb b byte) text.now }
{
    text.iter().position(|b| *b == byte)
}

/// What stands before the first such byte, and what behind it, or `None` where there is no such
/// byte.
pub fn cut(text: &[u8], byte: u8) -> Option<(&[u8], &[u8])>
    ensures parts { IfSome result (λ parts.
        slice_split (λ b. eqb b byte) text.now
        ≡ parts.0.now ∷ slice_split (λ b. eqb b byte) parts.1.now) }
    ensures bytes { IfSome result (λ parts. text.now ≡ parts.0.now ++ byte ∷ parts.1.now) }
    ensures whole { IfNone result (slice_split (λ b. eqb b byte) text.now ≡ text.now ∷ []) }
{
    match find(text, byte) {
        Some(at) => Some((&text[..at], &text[at + 1..])),
        None => None,
    }
}

/// The whole number that the word is: an optional `-` and one to seventeen digits, without a
/// leading zero unless it is `0`, and never `-0`.
pub fn number_of(alloc: Global, word: &[u8]) -> Result<Option<i64>, Memory>
    ensures { IfOk result (λ number. IsNumber word.now number) }
{
    let Ok(text) = str::from_utf8(word) else {
        return Ok(None);
    };
    let Ok(number) = text.parse::<i64>() else {
        return Ok(None);
    };
    if number.unsigned_abs() >= NUMBER_END {
        return Ok(None);
    }
    let again = number.to_string(alloc)?;
    if again.as_str() == text {
        Ok(Some(number))
    } else {
        Ok(None)
    }
}

/// The words of a line, which stand between its spaces.
pub fn words_in(alloc: Global, line: &[u8]) -> Result<Vec<&[u8]>, Memory>
    ensures { IfOk result (λ found. map (λ w. w.now) found.items ≡ words line.now) }
{
    let mut found = Vec::new(alloc);
    let mut rest = line;
    while let Some((word, behind)) = cut(rest, b' ') {
        found.push(word)?;
        rest = behind;
    }
    found.push(rest)?;
    Ok(found)
}
