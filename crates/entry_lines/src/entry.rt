ghost use Rattle.std.specs.Prelude.{◌≡◌, string_bytes, IfOk};
ghost use Rattle.std.specs.List.{join_with_byte};
ghost use Rattle.ground_entries.specs.Seen.{seen};
ghost use Rattle.entry_lines.specs.EntryLines.{deciding_words, entry_words, mark_words, test_word};

use charge_model::{Deciding, Mark, Test};
use charge_state::print_charges;
use ground_entries::Entry;
use sidb_units::Memory;
use std::alloc::Global;

/// The word of a test.
pub fn test_word(test: Test) -> &'static str
    ensures { result.now ≡ test_word test }
{
    match test {
        Test::AboveMinus => "above-minus",
        Test::AbovePlus => "above-plus",
        Test::BelowMinus => "below-minus",
        Test::BelowPlus => "below-plus",
    }
}

/// What decides that an entry is not certain.
fn deciding_text(alloc: Global, deciding: Deciding) -> Result<String, Memory>
    ensures { IfOk result (λ text. string_bytes text
        ≡ join_with_byte 32 (deciding_words deciding)) }
{
    match deciding {
        Deciding::Population(site, test, span) => {
            let word = test_word(test);
            let lo = span.lo;
            let hi = span.hi;
            Ok(format!(in alloc; "population {site} {word} {lo} {hi}")?)
        }
        Deciding::Hop(from, to, span) => {
            let lo = span.lo;
            let hi = span.hi;
            Ok(format!(in alloc; "hop {from} {to} {lo} {hi}")?)
        }
        Deciding::Rival(entry, span) => {
            let lo = span.lo;
            let hi = span.hi;
            Ok(format!(in alloc; "rival {entry} {lo} {hi}")?)
        }
    }
}

/// The text of a mark.
fn mark_text(alloc: Global, mark: Mark) -> Result<String, Memory>
    ensures { IfOk result (λ text. string_bytes text ≡ join_with_byte 32 (mark_words mark)) }
{
    match mark {
        Mark::Certain => Ok("certain".to_string(alloc)?),
        Mark::Unresolved(deciding) => {
            let text = deciding_text(alloc, deciding)?;
            Ok(format!(in alloc; "unresolved {text}")?)
        }
    }
}

/// The line of an entry, without a line feed: its charges, a space, and its mark. Slacks are in
/// 10^-12 V.
pub fn entry_line(alloc: Global, entry: &Entry) -> Result<String, Memory>
    ensures { IfOk result (λ line. string_bytes line
        ≡ join_with_byte 32 (entry_words (seen entry.now))) }
{
    let charges = print_charges(alloc, &entry.charges)?;
    let mark = mark_text(alloc, entry.mark)?;
    Ok(format!(in alloc; "{charges} {mark}")?)
}
