// One more line.
ghost use Rattle.std.specs.Prelude.{◌≡◌, ◌++◌, ◌∷◌, [], OnOk};
ghost use Rattle.table_lines.specs.Seen.{IsCounted, Notes};
ghost use Rattle.table_lines.specs.FineLines.{AreFineTableLines, IsFineTableLine};

use crate::TableLine;
use crate::seen::{Seen, cell};
use charge_model::{MAX_FIXED, MAX_SITES};
use potential_problem::span_between;
use sidb_units::Memory;

// Keeps what one more line gives.
fn note(seen: &mut Seen, line: &TableLine) -> Result<(), Memory>
    requires counted { IsCounted seen.old }
    requires fine { AreFineTableLines [] seen.old.lines.items }
    requires fine_line { IsFineTableLine seen.old.lines.items line.now }
    ensures { OnOk result (Notes seen.old seen.new line.now) }
{
    match *line {
        TableLine::FirstVersion | TableLine::End => {}
        TableLine::SecondVersion => seen.second = true,
        TableLine::Sites(n) => seen.sites = n,
        TableLine::Fixed(f) => seen.fixed = f,
        TableLine::Base(b) => seen.base = b,
        TableLine::Levels(minus, plus) => {
            seen.mu_minus = minus;
            seen.mu_plus = plus;
        }
        TableLine::Charge(q) => seen.charges.push(q)?,
        TableLine::Class(lo, hi) => seen.spans.push(span_between(lo, hi))?,
        TableLine::Pair(i, j, c) => seen.pairs[cell(i, j, MAX_SITES)] = Some(c),
        TableLine::Near(i, a, c) => seen.near[cell(i, a, MAX_FIXED)] = Some(c),
    }
    Ok(())
}

/// Adds a line.
pub fn push_line(seen: &mut Seen, line: TableLine) -> Result<(), Memory>
    requires counted { IsCounted seen.old }
    requires fine { AreFineTableLines [] seen.old.lines.items }
    requires fine_line { IsFineTableLine seen.old.lines.items line }
    ensures counted { OnOk result (IsCounted seen.new) }
    ensures lines { OnOk result (seen.new.lines.items ≡ seen.old.lines.items ++ line ∷ []) }
{
    note(seen, &line)?;
    seen.lines.push(line)?;
    Ok(())
}
