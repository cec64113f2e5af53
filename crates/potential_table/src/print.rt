// The bytes of lines.
ghost use Rattle.std.specs.Prelude.{◌≡◌, ◌++◌, ◌∷◌, [], map, string_bytes, IfOk, OnOk};
ghost use Rattle.text_rows.specs.Rows.{text_of};
ghost use Rattle.table_lines.specs.Lines.{table_line_words};
ghost use Rattle.potential_table.specs.TableRows.{table_rows};

use crate::lines::table_lines;
use potential_problem::Problem;
use sidb_units::Memory;
use std::alloc::Global;
use table_reading::TableLine;
use text_rows::push_bytes;

// The text of a line.
fn line_text(alloc: Global, line: &TableLine) -> Result<String, Memory>
    ensures { IfOk result (λ text. string_bytes text ≡ text_of (table_line_words line.now ∷ [])) }
{
    match *line {
        TableLine::FirstVersion => Ok("sidb-table 1\n".to_string(alloc)?),
        TableLine::SecondVersion => Ok("sidb-table 2\n".to_string(alloc)?),
        TableLine::Sites(n) => Ok(format!(in alloc; "sites {n}\n")?),
        TableLine::Fixed(f) => Ok(format!(in alloc; "fixed {f}\n")?),
        TableLine::Base(b) => Ok(format!(in alloc; "base {b}\n")?),
        TableLine::Levels(minus, plus) => Ok(format!(in alloc; "mu {minus} {plus}\n")?),
        TableLine::Charge(q) => Ok(format!(in alloc; "charge {q}\n")?),
        TableLine::Class(lo, hi) => Ok(format!(in alloc; "class {lo} {hi}\n")?),
        TableLine::Pair(i, j, c) => Ok(format!(in alloc; "pair {i} {j} {c}\n")?),
        TableLine::Near(i, a, c) => Ok(format!(in alloc; "near {i} {a} {c}\n")?),
        TableLine::End => Ok("end\n".to_string(alloc)?),
    }
}

// Adds a line.
fn push_line(alloc: Global, text: &mut Vec<u8>, line: &TableLine) -> Result<(), Memory>
    ensures { OnOk result (text.new.items
        ≡ text.old.items ++ text_of (table_line_words line.now ∷ [])) }
{
    let row = line_text(alloc, line)?;
    push_bytes(text, row.as_bytes())
}

// The text of the lines.
fn print_lines(alloc: Global, lines: &[TableLine]) -> Result<Vec<u8>, Memory>
    ensures { IfOk result (λ text. text.items ≡ text_of (map table_line_words lines.now)) }
{
    let mut text = Vec::new(alloc);
    for line in lines {
        push_line(alloc, &mut text, line)?;
    }
    Ok(text)
}

/// The table text of the problem: version 1 exactly where there is no fixed charge, the pairs of
/// sites in order, and then the sites with the fixed charges in order.
pub fn print_table(alloc: Global, problem: &Problem) -> Result<Vec<u8>, Memory>
    ensures text { IfOk result (λ text. text.items ≡ text_of (table_rows problem.now)) }
{
    let lines = table_lines(alloc, problem)?;
    print_lines(alloc, lines.as_slice())
}
