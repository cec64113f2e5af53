ghost use Rattle.std.specs.Prelude.{◌≡◌, ◌<◌, ◌+◌, ◌++◌, ◌∷◌, [], length};
ghost use Rattle.prefix_extremes.specs.Known.{IsAssigned};
ghost use Rattle.prefix_rows.specs.Tables.{IsPrefixPart, AreRowsOf, ArePartsOf, part_at};

use crate::row::{Row, row_extremes, row_in};
use charge_state::{Charge, Charges};
use potential_problem::Problem;
use prefix_extremes::{Amount, Extremes, added, cost};

/// The part at a depth.
pub fn part_in(parts: &[Amount], depth: usize) -> Amount
    requires { depth < length parts.now }
    ensures { result ≡ part_at parts.now depth }
{
    parts[depth]
}

fn next_part(
    problem: &Problem,
    prefix: &Charges,
    charge: Charge,
    before: Amount,
    own: Extremes,
) -> Amount
    requires room { length prefix.now < problem.now.sites }
    requires before { IsPrefixPart problem.now prefix.now (length prefix.now) before }
    requires own { IsAssigned problem.now prefix.now (length prefix.now)
        (length prefix.now) own }
    ensures { IsPrefixPart problem.now (prefix.now ++ charge ∷ [])
        (length prefix.now + 1) result }
{
    let _few = problem.sites();
    added(before, cost(charge, own))
}

/// Writes the part of the bound after one more charge.
pub fn add_part(
    problem: &Problem,
    prefix: &Charges,
    charge: Charge,
    parts: &mut [Amount],
    rows: &[Row],
)
    requires room { length prefix.now < problem.now.sites }
    requires parts { ArePartsOf problem.now prefix.now parts.old }
    requires rows { AreRowsOf problem.now prefix.now rows.now }
    ensures { ArePartsOf problem.now (prefix.now ++ charge ∷ []) parts.new }
{
    let _few = problem.sites();
    let depth = prefix.len();
    let own = row_extremes(row_in(rows, depth), depth);
    let before = part_in(parts, depth);
    parts[depth + 1] = next_part(problem, prefix, charge, before, own);
}
