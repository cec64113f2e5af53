ghost use Rattle.std.specs.Prelude.{◌≡◌, ◌<◌, ◌≤◌, ◌+◌, ◌-◌, ◌*◌, ◌^◌, [], ◌∷◌, ◌++◌, length, unsigned_abs, false, IfSome, is_none};
ghost use Rattle.charge_model.specs.Charges.{charge_at};
ghost use Rattle.charge_model.specs.Prefixes.{can_be};
ghost use Rattle.charge_model.specs.Tree.{is_open};
ghost use Rattle.prefix_extremes.specs.Closed.{IsFirstClosed, keeps_open};
ghost use Rattle.prefix_extremes.specs.Parts.{unassigned_low};
ghost use Rattle.prefix_extremes.specs.Known.{IsAssigned, IsUnassigned, AreExtremes};
ghost use Rattle.prefix_rows.specs.Rows.{IsRow, IsSpanOfPair};
ghost use Rattle.prefix_rows.specs.Limits.{IsLimit, AreLimitsOf};

use crate::limits::is_within_limits;
use crate::row::{Row, row_extremes};
use crate::rows::{next_extremes, row_low, row_whole};
use charge_state::{Charge, Charges};
use potential_problem::Problem;
use prefix_extremes::laws::{refused_charges_close, sites_decide, unassigned_sites_stay_open};
use prefix_extremes::{Amount, Extremes, added, unassigned_keeps_open, whole_extremes};

/// Whether an assigned site k keeps the prefix open: whether the extremes of its potential are
/// within the limits of its charge.
#[tactic(auto, using(crate::proofs::LimitLemmas::limits_keep))]
fn site_open(
    _problem: &Problem,
    _prefix: &Charges,
    k: usize,
    whole: Extremes,
    limit: Extremes,
) -> bool
    requires assigned { k < length _prefix.now }
    requires whole { AreExtremes _problem.now _prefix.now k whole }
    requires limit { IsLimit _problem.now (charge_at _prefix.now k) limit }
    ensures { result ≡ keeps_open _problem.now _prefix.now k }
{
    is_within_limits(whole, limit)
}

/// The first site that keeps the prefix from being open. In base 3 it is never an unassigned one.
pub fn rows_closed_at(
    problem: &Problem,
    prefix: &Charges,
    row: &Row,
    rest: &Row,
    limits: &Row,
) -> Option<usize>
    requires short { length prefix.now ≤ problem.now.sites }
    requires row { IsRow problem.now.sites
        (IsAssigned problem.now prefix.now (length prefix.now)) row.now }
    requires rest { IsRow problem.now.sites
        (IsUnassigned problem.now (length prefix.now)) rest.now }
    requires limits { AreLimitsOf problem.now prefix.now limits.now }
    ensures found { IfSome result (IsFirstClosed problem.now prefix.now) }
    ensures none { is_none result ≡ is_open problem.now prefix.now }
{
    sites_decide();
    unassigned_sites_stay_open();
    let depth = prefix.len();
    let sites = problem.sites();
    for k in 0..depth {
        let whole = row_whole(problem, prefix, row, rest, k);
        let open = site_open(problem, prefix, k, whole, row_extremes(limits, k));
        if !open {
            return Some(k);
        }
    }
    if problem.base() == 3 {
        return None;
    }
    for k in depth..sites {
        let whole = row_whole(problem, prefix, row, rest, k);
        let open = unassigned_keeps_open(problem, prefix, k, whole);
        if !open {
            return Some(k);
        }
    }
    None
}

/// The first site that keeps the prefix from being open once the next site has a charge that it
/// can't have. No row is written for it.
pub fn refused_at(
    problem: &Problem,
    prefix: &Charges,
    charge: Charge,
    row: &Row,
    spans: &Row,
    rest: &Row,
    limits: &Row,
) -> usize
    requires room { length prefix.now < problem.now.sites }
    requires refused { can_be problem.now prefix.now (length prefix.now) charge ≡ false }
    requires row { IsRow problem.now.sites
        (IsAssigned problem.now prefix.now (length prefix.now)) row.now }
    requires spans { IsRow problem.now.sites
        (IsSpanOfPair problem.now (length prefix.now)) spans.now }
    requires rest { IsRow problem.now.sites
        (IsUnassigned problem.now (length prefix.now + 1)) rest.now }
    requires limits { AreLimitsOf problem.now prefix.now limits.now }
    ensures { IsFirstClosed problem.now (prefix.now ++ charge ∷ []) result }
{
    refused_charges_close();
    let _few = problem.sites();
    let depth = prefix.len();
    let mut longer = prefix.copy();
    longer.push(charge);
    for k in 0..depth {
        let before = row_extremes(row, k);
        let span = row_extremes(spans, k);
        let known = next_extremes(problem, prefix, charge, before, span, k);
        let whole = whole_extremes(problem, &longer, k, known, row_extremes(rest, k));
        let open = site_open(problem, &longer, k, whole, row_extremes(limits, k));
        if !open {
            return k;
        }
    }
    depth
}

/// Whether the prefix is open. No site ends the loop early, so that sites are tested side by side.
pub fn rows_open(problem: &Problem, prefix: &Charges, row: &Row, rest: &Row, limits: &Row) -> bool
    requires short { length prefix.now ≤ problem.now.sites }
    requires row { IsRow problem.now.sites
        (IsAssigned problem.now prefix.now (length prefix.now)) row.now }
    requires rest { IsRow problem.now.sites
        (IsUnassigned problem.now (length prefix.now)) rest.now }
    requires limits { AreLimitsOf problem.now prefix.now limits.now }
    ensures { result ≡ is_open problem.now prefix.now }
{
    unassigned_sites_stay_open();
    let depth = prefix.len();
    let _valid = problem.sites();
    let mut all = true;
    for k in 0..depth {
        let whole = row_whole(problem, prefix, row, rest, k);
        let kept = site_open(problem, prefix, k, whole, row_extremes(limits, k));
        all = all & kept;
    }
    if problem.base() == 3 {
        return all;
    }
    for k in depth..problem.sites() {
        let whole = row_whole(problem, prefix, row, rest, k);
        let kept = unassigned_keeps_open(problem, prefix, k, whole);
        all = all & kept;
    }
    all
}

/// What the unassigned sites cost at least.
pub fn rows_low(problem: &Problem, prefix: &Charges, row: &Row, rest: &Row) -> Amount
    requires short { length prefix.now ≤ problem.now.sites }
    requires row { IsRow problem.now.sites
        (IsAssigned problem.now prefix.now (length prefix.now)) row.now }
    requires rest { IsRow problem.now.sites
        (IsUnassigned problem.now (length prefix.now)) rest.now }
    ensures value { result.value
        ≡ unassigned_low problem.now prefix.now (problem.now.sites - length prefix.now) }
    ensures small { unsigned_abs result.value ≤ 64 * (88 * 10 ^ 13) }
{
    let depth = prefix.len();
    let mut sum = Amount::zero();
    for a in 0..problem.sites() - depth {
        sum = added(sum, row_low(problem, prefix, row, rest, depth + a));
    }
    sum
}
