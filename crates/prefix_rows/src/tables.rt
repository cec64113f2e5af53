ghost use Rattle.std.specs.Prelude.{◌≡◌, ◌+◌, [], IfOk};
ghost use Rattle.prefix_extremes.specs.Flags.{AreFlags};
ghost use Rattle.prefix_rows.specs.Tables.{AreSpanRows, AreUnassignedRows, ArePairParts, AreRowsOf, ArePartsOf};

use crate::row::{Row, row_in};
use crate::rows::{first_row, first_unassigned, next_unassigned, span_row};
use potential_problem::Problem;
use prefix_extremes::{Amount, Flags, pairs_low};
use sidb_units::Memory;
use std::alloc::Global;

/// The spans of each site.
pub fn span_rows(alloc: Global, problem: &Problem) -> Result<Vec<Row>, Memory>
    ensures { IfOk result (λ v. AreSpanRows problem.now problem.now.sites v.items) }
{
    let mut rows = Vec::new(alloc);
    for j in 0..problem.sites() {
        rows.push(span_row(problem, j))?;
    }
    Ok(rows)
}

/// The unassigned parts after each number of sites.
pub fn unassigned_rows(
    alloc: Global,
    problem: &Problem,
    flags: &Flags,
    spans: &[Row],
) -> Result<Vec<Row>, Memory>
    requires flags { AreFlags problem.now problem.now.sites flags.now }
    requires spans { AreSpanRows problem.now problem.now.sites spans.now }
    ensures { IfOk result (λ v. AreUnassignedRows problem.now (problem.now.sites + 1) v.items) }
{
    let mut rows = Vec::new(alloc);
    let mut row = first_unassigned(problem, flags);
    for depth in 0..problem.sites() {
        rows.push(row)?;
        row = next_unassigned(problem, flags, depth, &row, row_in(spans, depth));
    }
    rows.push(row)?;
    Ok(rows)
}

/// The part of the bound from the unassigned pairs, after each number of sites.
pub fn pair_parts(alloc: Global, problem: &Problem, flags: &Flags) -> Result<Vec<Amount>, Memory>
    requires { AreFlags problem.now problem.now.sites flags.now }
    ensures { IfOk result (λ v. ArePairParts problem.now (problem.now.sites + 1) v.items) }
{
    let mut parts = Vec::new(alloc);
    for depth in 0..problem.sites() + 1 {
        parts.push(pairs_low(problem, flags, depth))?;
    }
    Ok(parts)
}

/// The rows of the empty prefix, with room for those of each longer one.
pub fn first_rows(alloc: Global, problem: &Problem) -> Result<Vec<Row>, Memory>
    ensures { IfOk result (λ v. AreRowsOf problem.now [] v.items) }
{
    Ok(vec![in alloc; first_row(problem); problem.sites() + 1]?)
}

/// The parts of the empty prefix, with room for those of each longer one.
pub fn first_parts(alloc: Global, problem: &Problem) -> Result<Vec<Amount>, Memory>
    ensures { IfOk result (λ v. ArePartsOf problem.now [] v.items) }
{
    Ok(vec![in alloc; Amount::zero(); problem.sites() + 1]?)
}
