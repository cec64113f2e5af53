ghost use Rattle.std.specs.Prelude.{◌≡◌, ◌<◌, ◌≤◌, ◌+◌, ◌*◌, ◌^◌, ◌*ℤ◌, ◌≤ℤ◌, ◌++◌, ◌∷◌, [], pos, neg_ℤ, length, unsigned_abs, if◌then◌else◌};
ghost use Rattle.charge_model.specs.declared.TheConstants.{MAX_SITES};
ghost use Rattle.charge_model.specs.Charges.{number_of};
ghost use Rattle.charge_model.specs.Prefixes.{lesser, greater, may_be_positive, site_low};
ghost use Rattle.prefix_extremes.specs.Flags.{AreFlags};
ghost use Rattle.prefix_extremes.specs.Known.{IsAssigned, IsUnassigned, AreExtremes, AreSmall};
ghost use Rattle.prefix_rows.specs.Rows.{IsRow, IsSpanOfPair};
ghost use Rattle.prefix_rows.specs.Tables.{AreRowsOf};

use crate::row::{Row, empty_row, row_extremes, row_in, write};
use charge_state::{Charge, Charges};
use potential_problem::Problem;
use prefix_extremes::{
    Amount, Extremes, Flags, class_span, fixed, flag, negated, nothing, plus, site_low_by_parts,
    unassigned, whole_extremes,
};

fn span_between_sites(problem: &Problem, j: usize, k: usize) -> Extremes
    requires j { j < problem.now.sites }
    requires k { k < problem.now.sites }
    ensures { IsSpanOfPair problem.now j k result }
{
    let _valid = problem.sites();
    if j == k {
        return nothing();
    }
    class_span(problem, problem.class(k, j))
}

/// The spans of site j with each site.
pub fn span_row(problem: &Problem, j: usize) -> Row
    requires { j < problem.now.sites }
    ensures { IsRow problem.now.sites (IsSpanOfPair problem.now j) result }
{
    let mut row = empty_row();
    for k in 0..problem.sites() {
        write(&mut row, k, span_between_sites(problem, j, k));
    }
    row
}

fn first_unassigned_extremes(problem: &Problem, flags: &Flags, k: usize) -> Extremes
    requires flags { AreFlags problem.now problem.now.sites flags.now }
    requires k { k < problem.now.sites }
    ensures { IsUnassigned problem.now 0 k result }
{
    unassigned(problem, flags, 0, k, problem.sites())
}

/// The unassigned parts where no site is assigned.
pub fn first_unassigned(problem: &Problem, flags: &Flags) -> Row
    requires { AreFlags problem.now problem.now.sites flags.now }
    ensures { IsRow problem.now.sites (IsUnassigned problem.now 0) result }
{
    let mut row = empty_row();
    for k in 0..problem.sites() {
        write(&mut row, k, first_unassigned_extremes(problem, flags, k));
    }
    row
}

fn negated_where(may: bool, amount: Amount) -> Amount
    requires { unsigned_abs amount.value ≤ 10 ^ 18 }
    ensures { result.value ≡ (if may then neg_ℤ amount.value else pos 0) }
{
    if may { negated(amount) } else { Amount::zero() }
}

/// What is left of an unassigned part where the next site is assigned.
fn fewer_unassigned(
    problem: &Problem,
    depth: usize,
    k: usize,
    before: Extremes,
    span: Extremes,
    may: bool,
) -> Extremes
    requires depth { depth < problem.now.sites }
    requires before { IsUnassigned problem.now depth k before }
    requires span { IsSpanOfPair problem.now depth k span }
    requires may { may ≡ may_be_positive problem.now depth }
    ensures { IsUnassigned problem.now (depth + 1) k result }
{
    let _valid = problem.sites();
    let more = Extremes {
        least: span.greatest,
        greatest: negated_where(may, span.greatest),
    };
    plus(before, more)
}

/// The unassigned parts where the next site is assigned.
pub fn next_unassigned(
    problem: &Problem,
    flags: &Flags,
    depth: usize,
    row: &Row,
    spans: &Row,
) -> Row
    requires flags { AreFlags problem.now problem.now.sites flags.now }
    requires depth { depth < problem.now.sites }
    requires row { IsRow problem.now.sites (IsUnassigned problem.now depth) row.now }
    requires spans { IsRow problem.now.sites (IsSpanOfPair problem.now depth) spans.now }
    ensures { IsRow problem.now.sites (IsUnassigned problem.now (depth + 1)) result }
{
    let _few = problem.sites();
    let may = flag(flags, depth);
    let mut next = empty_row();
    for k in 0..problem.sites() {
        let before = row_extremes(row, k);
        let span = row_extremes(spans, k);
        write(
            &mut next,
            k,
            fewer_unassigned(problem, depth, k, before, span, may),
        );
    }
    next
}

/// The extremes of a charge times a quantity between these.
fn charged(charge: Charge, span: Extremes) -> Extremes
    requires order { span.least.value ≤ℤ span.greatest.value }
    requires small { AreSmall (10 ^ 13) span }
    ensures least { result.least.value ≡ lesser
        (number_of charge *ℤ span.least.value) (number_of charge *ℤ span.greatest.value) }
    ensures greatest { result.greatest.value ≡ greater
        (number_of charge *ℤ span.least.value) (number_of charge *ℤ span.greatest.value) }
    ensures small { AreSmall (10 ^ 13) result }
{
    match charge {
        Charge::Neg => Extremes {
            least: negated(span.greatest),
            greatest: negated(span.least),
        },
        Charge::Neutral => nothing(),
        Charge::Pos => span,
    }
}

/// The assigned part of site k after one more charge.
pub fn next_extremes(
    problem: &Problem,
    prefix: &Charges,
    charge: Charge,
    before: Extremes,
    span: Extremes,
    k: usize,
) -> Extremes
    requires room { length prefix.now < problem.now.sites }
    requires few { problem.now.sites ≤ MAX_SITES }
    requires before { IsAssigned problem.now prefix.now (length prefix.now) k before }
    requires span { IsSpanOfPair problem.now (length prefix.now) k span }
    ensures { IsAssigned problem.now (prefix.now ++ charge ∷ []) (length prefix.now + 1) k result }
{
    plus(before, charged(charge, span))
}

/// Writes the assigned parts after one more charge.
fn write_next(
    problem: &Problem,
    prefix: &Charges,
    charge: Charge,
    row: &Row,
    spans: &Row,
    next: &mut Row,
)
    requires room { length prefix.now < problem.now.sites }
    requires row { IsRow problem.now.sites
        (IsAssigned problem.now prefix.now (length prefix.now)) row.now }
    requires spans { IsRow problem.now.sites
        (IsSpanOfPair problem.now (length prefix.now)) spans.now }
    ensures { IsRow problem.now.sites
        (IsAssigned problem.now (prefix.now ++ charge ∷ []) (length prefix.now + 1)) next.new }
{
    for k in 0..problem.sites() {
        let before = row_extremes(row, k);
        let span = row_extremes(spans, k);
        write(
            next,
            k,
            next_extremes(problem, prefix, charge, before, span, k),
        );
    }
}

/// Writes the row after one more charge.
pub fn advance(problem: &Problem, prefix: &Charges, charge: Charge, rows: &mut [Row], spans: &Row)
    requires room { length prefix.now < problem.now.sites }
    requires rows { AreRowsOf problem.now prefix.now rows.old }
    requires spans { IsRow problem.now.sites
        (IsSpanOfPair problem.now (length prefix.now)) spans.now }
    ensures { AreRowsOf problem.now (prefix.now ++ charge ∷ []) rows.new }
{
    let depth = prefix.len();
    let (done, rest) = rows.split_at_mut(depth + 1);
    write_next(
        problem,
        prefix,
        charge,
        row_in(done, depth),
        spans,
        &mut rest[0],
    );
}

/// The extremes of the potential of site k.
pub fn row_whole(problem: &Problem, prefix: &Charges, row: &Row, rest: &Row, k: usize) -> Extremes
    requires site { k < problem.now.sites }
    requires short { length prefix.now ≤ problem.now.sites }
    requires row { IsRow problem.now.sites
        (IsAssigned problem.now prefix.now (length prefix.now)) row.now }
    requires rest { IsRow problem.now.sites
        (IsUnassigned problem.now (length prefix.now)) rest.now }
    ensures { AreExtremes problem.now prefix.now k result }
{
    let _few = problem.sites();
    let known = row_extremes(row, k);
    whole_extremes(problem, prefix, k, known, row_extremes(rest, k))
}

/// What an unassigned site costs at least.
pub fn row_low(problem: &Problem, prefix: &Charges, row: &Row, rest: &Row, k: usize) -> Amount
    requires site { k < problem.now.sites }
    requires unassigned { length prefix.now ≤ k }
    requires row { IsRow problem.now.sites
        (IsAssigned problem.now prefix.now (length prefix.now)) row.now }
    requires rest { IsRow problem.now.sites
        (IsUnassigned problem.now (length prefix.now)) rest.now }
    ensures value { result.value ≡ site_low problem.now prefix.now k }
    ensures small { unsigned_abs result.value ≤ 88 * 10 ^ 13 }
{
    let _few = problem.sites();
    let whole = row_whole(problem, prefix, row, rest, k);
    let known = row_extremes(row, k);
    site_low_by_parts(problem, prefix, k, known, whole)
}

/// The extremes of each site where none is assigned yet: those of the fixed charges.
pub fn first_row(problem: &Problem) -> Row
    ensures { IsRow problem.now.sites (IsAssigned problem.now [] 0) result }
{
    let mut row = empty_row();
    for k in 0..problem.sites() {
        write(&mut row, k, first_extremes(problem, k));
    }
    row
}

fn first_extremes(problem: &Problem, k: usize) -> Extremes
    requires { k < problem.now.sites }
    ensures { IsAssigned problem.now [] 0 k result }
{
    fixed(problem, k)
}
