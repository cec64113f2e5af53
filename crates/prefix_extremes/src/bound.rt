ghost use Rattle.std.specs.Prelude.{◌≡◌, ◌<◌, ◌≤◌, ◌+◌, ◌-◌, ◌*◌, ◌^◌, length, unsigned_abs};
ghost use Rattle.charge_model.specs.Rules.{sum_below};
ghost use Rattle.charge_model.specs.Prefixes.{site_low, low};
ghost use Rattle.prefix_extremes.specs.Flags.{AreFlags};
ghost use Rattle.prefix_extremes.specs.Parts.{cost_of, with_choice, least_cost, assigned_low, unassigned_low, open_pair_low, pairs_low};
ghost use Rattle.prefix_extremes.specs.Amounts.{amount_value};

use crate::amount::{Amount, added, lesser, negated};
use crate::by_parts::low_by_parts;
use crate::calls::allows;
use crate::extremes::{Extremes, assigned, class_span, potential_extremes};
use crate::flags::{Flags, flag, flags_of};
use charge_state::{Charge, Charges};
use potential_problem::Problem;

/// What a charge costs at a site whose potential from the sites before it is between these.
pub fn cost(charge: Charge, known: Extremes) -> Amount
    requires least { unsigned_abs known.least.value ≤ 88 * 10 ^ 13 }
    requires greatest { unsigned_abs known.greatest.value ≤ 88 * 10 ^ 13 }
    ensures value { result.value ≡ cost_of charge known.least.value known.greatest.value }
    ensures small { unsigned_abs result.value ≤ 88 * 10 ^ 13 }
{
    match charge {
        Charge::Neg => negated(known.greatest),
        Charge::Neutral => Amount::zero(),
        Charge::Pos => known.least,
    }
}

/// The lesser of a cost, where it is allowed, and the others.
fn with_choice(allowed: bool, cost: Amount, others: Option<Amount>) -> Option<Amount>
    ensures { amount_value result ≡ with_choice allowed cost.value (amount_value others) }
{
    if !allowed {
        return others;
    }
    match others {
        None => Some(cost),
        Some(other) => Some(lesser(cost, other)),
    }
}

/// The least cost over the charges that an unassigned site can have, or 0.
pub fn site_cost(problem: &Problem, known: Extremes, whole: Extremes) -> Amount
    requires least { unsigned_abs known.least.value ≤ 88 * 10 ^ 13 }
    requires greatest { unsigned_abs known.greatest.value ≤ 88 * 10 ^ 13 }
    ensures value { result.value ≡ least_cost problem.now known.least.value
        known.greatest.value whole.least.value whole.greatest.value }
    ensures small { unsigned_abs result.value ≤ 88 * 10 ^ 13 }
{
    let positive = with_choice(allows(problem, Charge::Pos, whole), known.least, None);
    let neutral = with_choice(
        allows(problem, Charge::Neutral, whole),
        Amount::zero(),
        positive,
    );
    let negative = with_choice(
        allows(problem, Charge::Neg, whole),
        negated(known.greatest),
        neutral,
    );
    match negative {
        None => Amount::zero(),
        Some(least) => least,
    }
}

/// The part of the bound from the assigned sites, their pairs and the fixed charges.
fn assigned_low(problem: &Problem, prefix: &Charges) -> Amount
    requires { length prefix.now ≤ problem.now.sites }
    ensures value { result.value ≡ assigned_low problem.now prefix.now (length prefix.now) }
    ensures small { unsigned_abs result.value ≤ 64 * (88 * 10 ^ 13) }
{
    let _few = problem.sites();
    let mut sum = Amount::zero();
    for j in 0..prefix.len() {
        sum = added(sum, cost(prefix.at(j), assigned(problem, prefix, j, j)));
    }
    sum
}

/// What an unassigned site costs at least.
#[tactic(auto, using(crate::proofs::Splits::site_split))]
fn site_low(problem: &Problem, prefix: &Charges, k: usize) -> Amount
    requires site { k < problem.now.sites }
    requires open { length prefix.now ≤ k }
    ensures value { result.value ≡ site_low problem.now prefix.now k }
    ensures small { unsigned_abs result.value ≤ 88 * 10 ^ 13 }
{
    let _few = problem.sites();
    let known = assigned(problem, prefix, k, prefix.len());
    site_cost(problem, known, potential_extremes(problem, prefix, k))
}

/// The part of the bound from the unassigned sites.
fn unassigned_low(problem: &Problem, prefix: &Charges) -> Amount
    requires { length prefix.now ≤ problem.now.sites }
    ensures value { result.value
        ≡ unassigned_low problem.now prefix.now (problem.now.sites - length prefix.now) }
    ensures small { unsigned_abs result.value ≤ 64 * (88 * 10 ^ 13) }
{
    let depth = prefix.len();
    let mut sum = Amount::zero();
    for a in 0..problem.sites() - depth {
        sum = added(sum, site_low(problem, prefix, depth + a));
    }
    sum
}

/// Minus the greatest number of an unassigned pair one of whose sites may be positive.
fn pair_low(problem: &Problem, flags: &Flags, i: usize, j: usize) -> Amount
    requires flags { AreFlags problem.now problem.now.sites flags.now }
    requires i { i < j }
    requires j { j < problem.now.sites }
    ensures value { result.value ≡ open_pair_low problem.now i j }
    ensures small { unsigned_abs result.value ≤ 10 ^ 13 }
{
    let _few = problem.sites();
    if flag(flags, i) || flag(flags, j) {
        negated(class_span(problem, problem.class(i, j)).greatest)
    } else {
        Amount::zero()
    }
}

/// The part of the bound from an unassigned site with the unassigned sites before it.
fn pairs_row(problem: &Problem, flags: &Flags, depth: usize, b: usize) -> Amount
    requires flags { AreFlags problem.now problem.now.sites flags.now }
    requires sites { depth + b < problem.now.sites }
    ensures value { result.value
        ≡ sum_below b (λ a. open_pair_low problem.now (depth + a) (depth + b)) }
    ensures small { unsigned_abs result.value ≤ b * 10 ^ 13 }
{
    let _few = problem.sites();
    let mut sum = Amount::zero();
    for a in 0..b {
        sum = added(sum, pair_low(problem, flags, depth + a, depth + b));
    }
    sum
}

/// The part of the bound from the unassigned pairs, which depends on the number of assigned
/// sites alone.
pub fn pairs_low(problem: &Problem, flags: &Flags, depth: usize) -> Amount
    requires flags { AreFlags problem.now problem.now.sites flags.now }
    requires depth { depth ≤ problem.now.sites }
    ensures value { result.value ≡ pairs_low problem.now depth (problem.now.sites - depth) }
    ensures small { unsigned_abs result.value ≤ 64 * (64 * 10 ^ 13) }
{
    let mut sum = Amount::zero();
    for b in 0..problem.sites() - depth {
        sum = added(sum, pairs_row(problem, flags, depth, b));
    }
    sum
}

/// What the energy of a completion is at least, at scale 1, in 10^-12 V.
pub fn low(problem: &Problem, prefix: &Charges) -> i64
    requires { length prefix.now ≤ problem.now.sites }
    ensures { result ≡ low problem.now prefix.now }
{
    low_by_parts(
        problem,
        prefix,
        assigned_low(problem, prefix),
        unassigned_low(problem, prefix),
        pairs_low(problem, &flags_of(problem), prefix.len()),
    )
}
