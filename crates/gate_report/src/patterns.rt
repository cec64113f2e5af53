// The lines of one pattern.
ghost use Rattle.std.specs.Prelude.{◌≡◌, ◌++◌, ◌∷◌, map, string_bytes, IfOk, OnOk};
ghost use Rattle.std.specs.List.{join_with_byte};
ghost use Rattle.text_rows.specs.Rows.{text_of};
ghost use Rattle.entry_lines.specs.EntryLines.{entry_words};
ghost use Rattle.gate_report.specs.TruthText.{pattern_row};

use crate::answers::{bit_word, verdict_word};
use bdl_pairs::PatternAnswer;
use sidb_units::Memory;
use sim_report::plain_lines;
use std::alloc::Global;

/// The line of a pattern, without a line feed.
fn pattern_line(alloc: Global, k: usize, answer: &PatternAnswer) -> Result<String, Memory>
    ensures { IfOk result (λ line. string_bytes line
        ≡ join_with_byte 32 (pattern_row k answer.now)) }
{
    let bit = bit_word(answer.wanted);
    let verdict = verdict_word(answer.verdict);
    let entries = answer.list.len();
    Ok(format!(in alloc; "pattern {k} wants {bit} {verdict} entries {entries}")?)
}

/// Adds the line of a pattern and the lines of its entries.
pub fn push_pattern(
    text: &mut String,
    alloc: Global,
    k: usize,
    answer: &PatternAnswer,
) -> Result<(), Memory>
    ensures { OnOk result (string_bytes text.new ≡ string_bytes text.old
        ++ text_of (pattern_row k answer.now ∷ map entry_words answer.now.list)) }
{
    let line = pattern_line(alloc, k, answer)?;
    let entries = plain_lines(alloc, &answer.list)?;
    text.push_str(&line)?;
    text.push_str("\n")?;
    text.push_str(&entries)?;
    Ok(())
}
