ghost use Rattle.std.specs.Prelude.{◌≡◌, ◌≢◌, ◌<◌, ◌≤◌, ◌+◌, ◌*◌, ℕ, ℤ, ◌+ℤ◌, ◌*ℤ◌, pos, length, take, sum_by, unsigned_abs};
ghost use Rattle.charge_model.specs.Charges.{number_of};
ghost use Rattle.charge_model.specs.Problem.{Table, fixed_count, pair_count};
ghost use Rattle.charge_model.specs.Rules.{IsChargeList, potential_below, fixed_potential, potential_at, energy};
ghost use Rattle.linear_form.specs.Forms.{weighed, weight_of};
ghost use Rattle.linear_form.specs.Parts.{potential_weight};

use crate::form::add_term;
use charge_model::laws::weights_are_small;
use charge_model::{Charge, MAX_FIXED_CHARGE, MAX_WEIGHT, number};
use charge_state::Charges;
use potential_problem::Problem;

/// The number of a charge under a sign.
fn signed(sign: i64, charge: Charge) -> i64
    requires { unsigned_abs sign ≤ 1 }
    ensures value { result ≡ sign *ℤ number_of charge }
    ensures small { unsigned_abs result ≤ 1 }
{
    match charge {
        Charge::Neg => -sign,
        Charge::Neutral => 0,
        Charge::Pos => sign,
    }
}

/// Adds, under a sign, the part of the potential of site i that comes from the sites below `until`.
fn add_sites(
    coefficients: &mut [i64],
    problem: &Problem,
    charges: &Charges,
    i: usize,
    until: usize,
    sign: i64,
)
    requires classes { length coefficients.old ≡ length problem.now.spans }
    requires charges { IsChargeList problem.now charges.now }
    requires site { i < problem.now.sites }
    requires until { until ≤ problem.now.sites }
    requires sign { unsigned_abs sign ≤ 1 }
    requires room { weight_of coefficients.old + until ≤ 2 * MAX_WEIGHT }
    ensures value { (t : Table) → weighed coefficients.new t.potential
        ≡ weighed coefficients.old t.potential
        +ℤ sign *ℤ potential_below problem.now t charges.now i until }
    ensures weight { weight_of coefficients.new ≤ weight_of coefficients.old + until }
{
    for j in 0..until {
        if j != i {
            let term = signed(sign, charges.at(j));
            add_term(coefficients, problem.class(i, j), term);
        }
    }
}

/// The number of a fixed charge under a sign.
fn signed_number(sign: i64, number: i64) -> i64
    requires sign { unsigned_abs sign ≤ 1 }
    requires number { unsigned_abs number ≤ unsigned_abs MAX_FIXED_CHARGE }
    ensures value { result ≡ sign *ℤ number }
    ensures small { unsigned_abs result ≤ unsigned_abs number }
{
    sign * number
}

/// Adds, under a sign, the part of the potential of site i that comes from the fixed charges.
fn add_fixed(coefficients: &mut [i64], problem: &Problem, i: usize, sign: i64)
    requires classes { length coefficients.old ≡ length problem.now.spans }
    requires site { i < problem.now.sites }
    requires sign { unsigned_abs sign ≤ 1 }
    requires room { weight_of coefficients.old + weight_of problem.now.fixed_charges
        ≤ 2 * MAX_WEIGHT }
    ensures value { (t : Table) → weighed coefficients.new t.potential
        ≡ weighed coefficients.old t.potential +ℤ sign *ℤ fixed_potential problem.now t i }
    ensures weight { weight_of coefficients.new
        ≤ weight_of coefficients.old + weight_of problem.now.fixed_charges }
{
    for a in 0..problem.fixes() {
        let term = signed_number(sign, problem.fix_charge(a));
        add_term(coefficients, problem.near(i, a), term);
    }
}

/// Adds the potential of site i under a sign.
pub(crate) fn add_potential(
    coefficients: &mut [i64],
    problem: &Problem,
    charges: &Charges,
    i: usize,
    sign: i64,
)
    requires classes { length coefficients.old ≡ length problem.now.spans }
    requires charges { IsChargeList problem.now charges.now }
    requires site { i < problem.now.sites }
    requires sign { unsigned_abs sign ≤ 1 }
    requires room { weight_of coefficients.old ≤ MAX_WEIGHT }
    ensures value { (t : Table) → weighed coefficients.new t.potential
        ≡ weighed coefficients.old t.potential
        +ℤ sign *ℤ potential_at problem.now t charges.now i }
    ensures weight { weight_of coefficients.new
        ≤ weight_of coefficients.old + potential_weight }
{
    add_sites(coefficients, problem, charges, i, problem.sites(), sign);
    add_fixed(coefficients, problem, i, sign);
}

/// Adds the energy.
pub(crate) fn add_energy(coefficients: &mut [i64], problem: &Problem, charges: &Charges)
    requires classes { length coefficients.old ≡ length problem.now.spans }
    requires charges { IsChargeList problem.now charges.now }
    requires room { weight_of coefficients.old ≡ 0 }
    ensures value { (t : Table) → weighed coefficients.new t.potential
        ≡ weighed coefficients.old t.potential +ℤ energy problem.now t charges.now }
    ensures weight { weight_of coefficients.new ≤ MAX_WEIGHT }
{
    weights_are_small();
    for j in 0..problem.sites() {
        let row = number(charges.at(j));
        add_sites(coefficients, problem, charges, j, j, row);
        add_fixed(coefficients, problem, j, row);
    }
}
