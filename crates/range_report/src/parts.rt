ghost use Rattle.std.specs.Prelude.{◌≡◌, ◌<◌, ◌++◌, length, string_bytes, IfOk, OnOk};
ghost use Rattle.std.specs.List.{join_with_byte};
ghost use Rattle.text_rows.specs.Rows.{text_of};
ghost use Rattle.level_range_laws.specs.Parts.{printed_at};
ghost use Rattle.range_report.specs.RangeText.{end_words, part_row, part_rows, parts_rows, range_text, range_title_rows};

use crate::entries::{outcome_lines, push_line};
use level_range::Parts;
use sidb_units::Memory;
use std::alloc::Global;

/// What stands behind the levels of part k.
fn end_text(alloc: Global, parts: &Parts, k: usize) -> Result<String, Memory>
    requires { k < length parts.now }
    ensures { IfOk result (λ text. string_bytes text
        ≡ join_with_byte 32 (end_words (printed_at parts.now k).answer)) }
{
    if parts.split(k) {
        return Ok("split".to_string(alloc)?);
    }
    let entries = parts.entries(k);
    Ok(format!(in alloc; "entries {entries}")?)
}

/// The line of part k, without a line feed.
fn part_line(alloc: Global, parts: &Parts, k: usize) -> Result<String, Memory>
    requires { k < length parts.now }
    ensures { IfOk result (λ line. string_bytes line
        ≡ join_with_byte 32 (part_row (printed_at parts.now k))) }
{
    let first = parts.first(k);
    let last = parts.last(k);
    let end = end_text(alloc, parts, k)?;
    Ok(format!(in alloc; "part {first} {last} {end}")?)
}

/// Adds the lines of part k.
fn push_part(text: &mut String, alloc: Global, parts: &Parts, k: usize) -> Result<(), Memory>
    requires { k < length parts.now }
    ensures { OnOk result (string_bytes text.new ≡ string_bytes text.old
        ++ text_of (part_rows (printed_at parts.now k))) }
{
    let line = part_line(alloc, parts, k)?;
    let entries = outcome_lines(alloc, parts, k)?;
    push_line(text, &line)?;
    text.push_str(&entries)?;
    Ok(())
}

/// The lines of all parts.
fn part_lines(alloc: Global, parts: &Parts) -> Result<String, Memory>
    ensures { IfOk result (λ text. string_bytes text ≡ text_of (parts_rows parts.now)) }
{
    let mut text = String::new(alloc);
    for k in 0..parts.len() {
        push_part(&mut text, alloc, parts, k)?;
    }
    Ok(text)
}

/// The lines before the parts.
fn title(alloc: Global, sites: usize, parts: usize) -> Result<String, Memory>
    ensures { IfOk result (λ text. string_bytes text ≡ text_of (range_title_rows sites parts)) }
{
    Ok(format!(in alloc; "sidb-range 1\nsites {sites}\nparts {parts}\n")?)
}

/// The text of the printed parts: what it is and its version, the number of sites and of parts; of
/// each part its first and last level, in 10^-12 V, and that it is split, or the number of its
/// entries, and each of them; and the end.
pub fn range_text(alloc: Global, sites: usize, parts: &Parts) -> Result<String, Memory>
    ensures text { IfOk result (λ text. string_bytes text ≡ range_text sites parts.now) }
{
    let mut text = title(alloc, sites, parts.len())?;
    let lines = part_lines(alloc, parts)?;
    text.push_str(&lines)?;
    text.push_str("end\n")?;
    Ok(text)
}
