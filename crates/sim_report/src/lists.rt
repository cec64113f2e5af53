// The lines of the entries of a list.
ghost use Rattle.std.specs.Prelude.{◌≡◌, ◌<◌, ◌∷◌, codes, length, map, slice_get, zip, string_bytes, IfOk, Some};
ghost use Rattle.std.specs.List.{join_with_byte};
ghost use Rattle.text_rows.specs.Rows.{text_of};
ghost use Rattle.ground_entries.specs.Seen.{seen};
ghost use Rattle.entry_lines.specs.EntryLines.{entry_words, span_words};
ghost use Rattle.ground_report.specs.Subject.{AreListsOfProblem};
ghost use Rattle.sim_report.specs.GroundText.{AreEntryLines, energy_row};

use crate::rows::push_row;
use charge_model::Span;
use entry_lines::entry_line;
use ground_entries::{Entry, GroundList};
use ground_report::energy_spans;
use potential_problem::Problem;
use sidb_units::Memory;
use std::alloc::Global;

/// The lines of the entries, with their energies or without.
pub fn list_lines(
    alloc: Global,
    problem: &Problem,
    list: &GroundList,
    energies: bool,
) -> Result<String, Memory>
    requires { AreListsOfProblem problem.now list.now }
    ensures { IfOk result (λ text. AreEntryLines problem.now list.now energies
        (string_bytes text)) }
{
    if energies {
        let spans = energy_spans(alloc, problem, list)?;
        let text = energy_lines(alloc, list, &spans)?;
        return Ok(text);
    }
    let text = plain_lines(alloc, list)?;
    Ok(text)
}

/// The lines of the entries.
pub fn plain_lines(alloc: Global, list: &GroundList) -> Result<String, Memory>
    ensures { IfOk result (λ text. string_bytes text ≡ text_of (map entry_words list.now)) }
{
    let mut text = String::new(alloc);
    for j in 0..list.len() {
        let line = entry_line(alloc, list.entry(j))?;
        push_row(&mut text, &line)?;
    }
    Ok(text)
}

/// The lines of the entries, each with its energy.
fn energy_lines(alloc: Global, list: &GroundList, spans: &[Span]) -> Result<String, Memory>
    requires { length spans.now ≡ length list.now }
    ensures { IfOk result (λ text. string_bytes text
        ≡ text_of (map energy_row (zip list.now spans.now))) }
{
    let mut text = String::new(alloc);
    for j in 0..list.len() {
        let line = energy_line(alloc, list.entry(j), span_at(spans, j))?;
        push_row(&mut text, &line)?;
    }
    Ok(text)
}

/// Span j.
fn span_at(spans: &[Span], j: usize) -> Span
    requires { j < length spans.now }
    ensures { slice_get spans.now j ≡ Some result }
{
    spans[j]
}

/// The line of an entry with its energy, without a line feed.
fn energy_line(alloc: Global, entry: &Entry, span: Span) -> Result<String, Memory>
    ensures { IfOk result (λ line. string_bytes line
        ≡ join_with_byte 32 (energy_row (seen entry.now, span))) }
{
    let line = entry_line(alloc, entry)?;
    let energy = energy_text(alloc, span)?;
    Ok(format!(in alloc; "{line} {energy}")?)
}

/// What stands behind the mark of an entry where energies are asked for.
fn energy_text(alloc: Global, span: Span) -> Result<String, Memory>
    ensures { IfOk result (λ text. string_bytes text
        ≡ join_with_byte 32 (codes "energy" ∷ span_words span)) }
{
    let (lo, hi) = (span.lo, span.hi);
    Ok(format!(in alloc; "energy {lo} {hi}")?)
}
