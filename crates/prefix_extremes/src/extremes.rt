ghost use Rattle.std.specs.Prelude.{◌≡◌, ◌≢◌, ◌<◌, ◌≤◌, ◌+◌, ◌-◌, ◌*◌, ◌^◌, pos, neg_ℤ, ◌+ℤ◌, ◌*ℤ◌, [], length, unsigned_abs};
ghost use Rattle.charge_model.specs.Charges.{number_at};
ghost use Rattle.charge_model.specs.Problem.{class_of, near_class_of, fixed_count, fixed_at, lo_in, hi_in};
ghost use Rattle.charge_model.specs.Rules.{sum_below};
ghost use Rattle.charge_model.specs.Prefixes.{lesser, greater, least_product, greatest_product, least_fixed, greatest_fixed, may_be_positive, least_potential, greatest_potential};
ghost use Rattle.prefix_extremes.specs.Flags.{AreFlags};
ghost use Rattle.prefix_extremes.specs.Parts.{least_term, greatest_term, least_open_term, greatest_open_term, least_assigned, greatest_assigned, least_unassigned, greatest_unassigned};

use crate::amount::{Amount, added, greater, lesser, negated, scaled};
use crate::flags::{Flags, flag, flags_of};
use charge_state::{Charges, number};
use potential_problem::Problem;

/// The least and the greatest of a quantity.
#[derive(Clone, Copy)]
pub struct Extremes {
    pub least: Amount,
    pub greatest: Amount,
}

/// Zero.
pub fn nothing() -> Extremes
    ensures least { result.least.value ≡ pos 0 }
    ensures greatest { result.greatest.value ≡ pos 0 }
{
    Extremes {
        least: Amount::zero(),
        greatest: Amount::zero(),
    }
}

/// The sum of two.
pub fn plus(a: Extremes, b: Extremes) -> Extremes
    requires a_least { unsigned_abs a.least.value ≤ 10 ^ 16 }
    requires a_greatest { unsigned_abs a.greatest.value ≤ 10 ^ 16 }
    requires b_least { unsigned_abs b.least.value ≤ 10 ^ 16 }
    requires b_greatest { unsigned_abs b.greatest.value ≤ 10 ^ 16 }
    ensures least { result.least.value ≡ a.least.value +ℤ b.least.value }
    ensures greatest { result.greatest.value ≡ a.greatest.value +ℤ b.greatest.value }
{
    Extremes {
        least: added(a.least, b.least),
        greatest: added(a.greatest, b.greatest),
    }
}

/// The span of a class.
pub fn class_span(problem: &Problem, class: usize) -> Extremes
    requires { class < length problem.now.spans }
    ensures lo { result.least.value ≡ lo_in problem.now.spans class }
    ensures hi { result.greatest.value ≡ hi_in problem.now.spans class }
    ensures lo_small { unsigned_abs result.least.value ≤ 10 ^ 13 }
    ensures hi_small { unsigned_abs result.greatest.value ≤ 10 ^ 13 }
{
    let span = problem.span(class);
    Extremes {
        least: Amount { value: span.lo },
        greatest: Amount { value: span.hi },
    }
}

/// The extremes of a number times a quantity between these.
pub fn products(number: i64, span: Extremes) -> Extremes
    requires number { unsigned_abs number ≤ 3 }
    requires lo { unsigned_abs span.least.value ≤ 10 ^ 13 }
    requires hi { unsigned_abs span.greatest.value ≤ 10 ^ 13 }
    ensures least { result.least.value
        ≡ lesser (number *ℤ span.least.value) (number *ℤ span.greatest.value) }
    ensures greatest { result.greatest.value
        ≡ greater (number *ℤ span.least.value) (number *ℤ span.greatest.value) }
    ensures least_small { unsigned_abs result.least.value ≤ unsigned_abs number * 10 ^ 13 }
    ensures greatest_small { unsigned_abs result.greatest.value
        ≤ unsigned_abs number * 10 ^ 13 }
{
    let lo = scaled(number, span.least);
    let hi = scaled(number, span.greatest);
    Extremes {
        least: lesser(lo, hi),
        greatest: greater(lo, hi),
    }
}

/// What a fixed charge adds to the extremes of the potential of site k.
fn fixed_term(problem: &Problem, k: usize, a: usize) -> Extremes
    requires k { k < problem.now.sites }
    requires a { a < fixed_count problem.now }
    ensures least { result.least.value
        ≡ least_product problem.now (near_class_of problem.now k a) (fixed_at problem.now a) }
    ensures greatest { result.greatest.value
        ≡ greatest_product problem.now (near_class_of problem.now k a) (fixed_at problem.now a) }
    ensures least_small { unsigned_abs result.least.value ≤ 3 * 10 ^ 13 }
    ensures greatest_small { unsigned_abs result.greatest.value ≤ 3 * 10 ^ 13 }
{
    products(
        problem.fix_charge(a),
        class_span(problem, problem.near(k, a)),
    )
}

/// The part of the extremes of the potential of site k that comes from the fixed charges.
#[tactic(auto, unfolding(charge_model::specs::Prefixes::least_fixed, charge_model::specs::Prefixes::greatest_fixed))]
pub fn fixed(problem: &Problem, k: usize) -> Extremes
    requires { k < problem.now.sites }
    ensures least { result.least.value ≡ least_fixed problem.now k }
    ensures greatest { result.greatest.value ≡ greatest_fixed problem.now k }
    ensures least_small { unsigned_abs result.least.value ≤ 24 * 10 ^ 13 }
    ensures greatest_small { unsigned_abs result.greatest.value ≤ 24 * 10 ^ 13 }
{
    let mut sum = nothing();
    for a in 0..problem.fixes() {
        sum = plus(sum, fixed_term(problem, k, a));
    }
    sum
}

/// What an assigned site j adds to the extremes of the potential of site k.
fn assigned_term(problem: &Problem, prefix: &Charges, k: usize, j: usize) -> Extremes
    requires k { k < problem.now.sites }
    requires j { j < problem.now.sites }
    requires assigned { j < length prefix.now }
    ensures least { result.least.value ≡ least_term problem.now prefix.now k j }
    ensures greatest { result.greatest.value ≡ greatest_term problem.now prefix.now k j }
    ensures least_small { unsigned_abs result.least.value ≤ 10 ^ 13 }
    ensures greatest_small { unsigned_abs result.greatest.value ≤ 10 ^ 13 }
{
    if j == k {
        return nothing();
    }
    products(
        number(prefix.at(j)),
        class_span(problem, problem.class(k, j)),
    )
}

/// The part of the extremes of the potential of site k that comes from the fixed charges and the
/// first `until` sites.
pub fn assigned(problem: &Problem, prefix: &Charges, k: usize, until: usize) -> Extremes
    requires k { k < problem.now.sites }
    requires until { until ≤ length prefix.now }
    requires short { length prefix.now ≤ problem.now.sites }
    ensures least { result.least.value ≡ least_assigned problem.now prefix.now k until }
    ensures greatest { result.greatest.value ≡ greatest_assigned problem.now prefix.now k until }
    ensures least_small { unsigned_abs result.least.value ≤ (24 + until) * 10 ^ 13 }
    ensures greatest_small { unsigned_abs result.greatest.value ≤ (24 + until) * 10 ^ 13 }
{
    let _few = problem.sites();
    let mut sum = fixed(problem, k);
    for j in 0..until {
        sum = plus(sum, assigned_term(problem, prefix, k, j));
    }
    sum
}

/// What an unassigned site j adds to the least potential of site k.
fn least_open(problem: &Problem, k: usize, j: usize) -> Amount
    requires k { k < problem.now.sites }
    requires j { j < problem.now.sites }
    ensures value { result.value ≡ least_open_term problem.now k j }
    ensures small { unsigned_abs result.value ≤ 10 ^ 13 }
{
    if j == k {
        return Amount::zero();
    }
    negated(class_span(problem, problem.class(k, j)).greatest)
}

/// The least potential of site k where no site is assigned.
fn least_alone(problem: &Problem, k: usize) -> Amount
    requires { k < problem.now.sites }
    ensures value { result.value ≡ least_potential problem.now [] k }
    ensures small { unsigned_abs result.value ≤ 88 * 10 ^ 13 }
{
    let mut sum = fixed(problem, k).least;
    for j in 0..problem.sites() {
        sum = added(sum, least_open(problem, k, j));
    }
    sum
}

/// Whether site k may be positive: in base 3, where its potential can be low enough.
#[tactic(auto, unfolding(charge_model::specs::Prefixes::may_be_positive))]
pub fn may_be_positive(problem: &Problem, k: usize) -> bool
    requires { k < problem.now.sites }
    ensures { result ≡ may_be_positive problem.now k }
{
    problem.base() == 3 && least_alone(problem, k).value <= problem.mu_plus()
}

/// What an unassigned site j adds to the greatest potential of site k.
fn greatest_open(problem: &Problem, flags: &Flags, k: usize, j: usize) -> Amount
    requires flags { AreFlags problem.now problem.now.sites flags.now }
    requires k { k < problem.now.sites }
    requires j { j < problem.now.sites }
    ensures value { result.value ≡ greatest_open_term problem.now k j }
    ensures small { unsigned_abs result.value ≤ 10 ^ 13 }
{
    if j == k {
        return Amount::zero();
    }
    let _few = problem.sites();
    if flag(flags, j) {
        class_span(problem, problem.class(k, j)).greatest
    } else {
        Amount::zero()
    }
}

/// The part of the extremes of the potential of site k that comes from `count` unassigned sites,
/// the first `depth` sites being assigned.
pub fn unassigned(
    problem: &Problem,
    flags: &Flags,
    depth: usize,
    k: usize,
    count: usize,
) -> Extremes
    requires flags { AreFlags problem.now problem.now.sites flags.now }
    requires k { k < problem.now.sites }
    requires count { depth + count ≤ problem.now.sites }
    ensures least { result.least.value ≡ least_unassigned problem.now depth k count }
    ensures greatest { result.greatest.value ≡ greatest_unassigned problem.now depth k count }
    ensures least_small { unsigned_abs result.least.value ≤ count * 10 ^ 13 }
    ensures greatest_small { unsigned_abs result.greatest.value ≤ count * 10 ^ 13 }
{
    let _few = problem.sites();
    let mut sum = nothing();
    for a in 0..count {
        let term = Extremes {
            least: least_open(problem, k, depth + a),
            greatest: greatest_open(problem, flags, k, depth + a),
        };
        sum = plus(sum, term);
    }
    sum
}

/// The extremes of the potential of site k over a prefix.
pub fn potential_extremes(problem: &Problem, prefix: &Charges, k: usize) -> Extremes
    requires k { k < problem.now.sites }
    requires short { length prefix.now ≤ problem.now.sites }
    ensures least { result.least.value ≡ least_potential problem.now prefix.now k }
    ensures greatest { result.greatest.value ≡ greatest_potential problem.now prefix.now k }
{
    let depth = prefix.len();
    let flags = flags_of(problem);
    plus(
        assigned(problem, prefix, k, depth),
        unassigned(problem, &flags, depth, k, problem.sites() - depth),
    )
}
