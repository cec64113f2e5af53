ghost use Rattle.std.specs.Prelude.{◌≡◌, ◌<◌, ◌≤◌, ◌-◌, ◌*◌, ◌^◌, length, unsigned_abs};
ghost use Rattle.charge_model.specs.Prefixes.{can_be, site_low, low};
ghost use Rattle.prefix_extremes.specs.Closed.{keeps_open};
ghost use Rattle.prefix_extremes.specs.Known.{IsAssigned, IsUnassigned, AreExtremes};
ghost use Rattle.prefix_extremes.specs.Parts.{assigned_low, unassigned_low, pairs_low};

use crate::amount::{Amount, added};
use crate::bound::site_cost;
use crate::calls::allows;
use crate::extremes::{Extremes, plus};
use charge_state::{Charge, Charges};
use potential_problem::Problem;

/// The extremes of the potential of site k, from the part of the assigned sites and that of the
/// others.
pub fn whole_extremes(
    problem: &Problem,
    prefix: &Charges,
    k: usize,
    known: Extremes,
    others: Extremes,
) -> Extremes
    requires short { length prefix.now ≤ problem.now.sites }
    requires known { IsAssigned problem.now prefix.now (length prefix.now) k known }
    requires others { IsUnassigned problem.now (length prefix.now) k others }
    ensures { AreExtremes problem.now prefix.now k result }
{
    let _few = problem.sites();
    let _short = prefix.len();
    plus(known, others)
}

/// Whether site k can have this charge.
#[tactic(auto, using(crate::proofs::Opening::can_allows))]
pub fn can_by_parts(
    problem: &Problem,
    _prefix: &Charges,
    k: usize,
    charge: Charge,
    extremes: Extremes,
) -> bool
    requires extremes { AreExtremes problem.now _prefix.now k extremes }
    ensures { result ≡ can_be problem.now _prefix.now k charge }
{
    allows(problem, charge, extremes)
}

/// Whether an unassigned site k of base 2 keeps the prefix open: it can have some charge where its
/// greatest potential reaches mu_plus, since its least is not above its greatest.
#[tactic(auto, using(crate::proofs::Ordered::two_keep))]
pub fn unassigned_keeps_open(
    problem: &Problem,
    _prefix: &Charges,
    k: usize,
    extremes: Extremes,
) -> bool
    requires base { problem.now.base ≡ 2 }
    requires unassigned { length _prefix.now ≤ k }
    requires extremes { AreExtremes problem.now _prefix.now k extremes }
    ensures { result ≡ keeps_open problem.now _prefix.now k }
{
    let _valid = problem.sites();
    problem.mu_plus() <= extremes.greatest.value
}

/// What an unassigned site k costs at least, in 10^-12 V.
#[tactic(auto, using(crate::proofs::Splits::site_split))]
pub fn site_low_by_parts(
    problem: &Problem,
    prefix: &Charges,
    k: usize,
    known: Extremes,
    whole: Extremes,
) -> Amount
    requires unassigned { length prefix.now ≤ k }
    requires short { length prefix.now ≤ problem.now.sites }
    requires known { IsAssigned problem.now prefix.now (length prefix.now) k known }
    requires whole { AreExtremes problem.now prefix.now k whole }
    ensures value { result.value ≡ site_low problem.now prefix.now k }
    ensures small { unsigned_abs result.value ≤ 88 * 10 ^ 13 }
{
    let _few = problem.sites();
    let _short = prefix.len();
    site_cost(problem, known, whole)
}

/// What the energy of a completion is at least, at scale 1, in 10^-12 V, from the part of the
/// assigned sites, that of the others and that of the unassigned pairs.
pub fn low_by_parts(
    _problem: &Problem,
    _prefix: &Charges,
    first: Amount,
    others: Amount,
    pairs: Amount,
) -> i64
    requires short { length _prefix.now ≤ _problem.now.sites }
    requires first { first.value ≡ assigned_low _problem.now _prefix.now (length _prefix.now) }
    requires first_small { unsigned_abs first.value ≤ 64 * (88 * 10 ^ 13) }
    requires others { others.value
        ≡ unassigned_low _problem.now _prefix.now (_problem.now.sites - length _prefix.now) }
    requires others_small { unsigned_abs others.value ≤ 64 * (88 * 10 ^ 13) }
    requires pairs { pairs.value
        ≡ pairs_low _problem.now (length _prefix.now) (_problem.now.sites - length _prefix.now) }
    requires pairs_small { unsigned_abs pairs.value ≤ 64 * (64 * 10 ^ 13) }
    ensures value { result ≡ low _problem.now _prefix.now }
    ensures small { unsigned_abs result ≤ 192 * (88 * 10 ^ 13) }
{
    added(added(first, others), pairs).value
}
