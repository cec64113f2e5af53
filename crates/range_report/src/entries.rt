// The lines of the entries of a part.
ghost use Rattle.std.specs.Prelude.{◌≡◌, ◌<◌, ◌++◌, ◌∷◌, [], length, map, string_bytes, IfOk, OnOk};
ghost use Rattle.std.specs.List.{join_with_byte};
ghost use Rattle.text_rows.specs.Rows.{text_of};
ghost use Rattle.level_range_laws.specs.Parts.{printed_at};
ghost use Rattle.level_range.specs.Seen.{outcome_of, entries_in};
ghost use Rattle.range_report.specs.RangeText.{certain_word, outcome_row};

use charge_state::print_charges;
use level_range::{PartEntry, Parts};
use sidb_units::Memory;
use std::alloc::Global;

/// Whether an entry is certain, as a word.
fn certain_word(certain: bool) -> &'static str
    ensures { result.now ≡ certain_word certain }
{
    if certain { "certain" } else { "unresolved" }
}

/// The line of an entry, without a line feed.
fn outcome_line(alloc: Global, entry: &PartEntry) -> Result<String, Memory>
    ensures { IfOk result (λ line. string_bytes line
        ≡ join_with_byte 32 (outcome_row (outcome_of entry.now))) }
{
    let charges = print_charges(alloc, &entry.charges)?;
    let word = certain_word(entry.certain);
    Ok(format!(in alloc; "{charges} {word}")?)
}

/// Adds the line, and a line feed.
pub fn push_line(text: &mut String, line: &str) -> Result<(), Memory>
    ensures { OnOk result (string_bytes text.new
        ≡ string_bytes text.old ++ (line.now ++ 10 ∷ [])) }
{
    text.push_str(line)?;
    text.push_str("\n")?;
    Ok(())
}

/// The lines of the entries of part k.
pub fn outcome_lines(alloc: Global, parts: &Parts, k: usize) -> Result<String, Memory>
    requires { k < length parts.now }
    ensures { IfOk result (λ text. string_bytes text
        ≡ text_of (map outcome_row (entries_in (printed_at parts.now k)))) }
{
    let mut text = String::new(alloc);
    for j in 0..parts.entries(k) {
        let entry = parts.entry(k, j);
        let line = outcome_line(alloc, &entry)?;
        push_line(&mut text, &line)?;
    }
    Ok(text)
}
