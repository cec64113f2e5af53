ghost use Rattle.std.specs.Prelude.{◌≡◌, ◌<◌, ◌≤◌, ◌*◌, ◌^◌, ◌+◌, ℕ, ℤ, ◌+ℤ◌, ◌*ℤ◌, length, unsigned_abs, IfOk};
ghost use Rattle.charge_model.specs.Charges.{charge_at, rank_of};
ghost use Rattle.charge_model.specs.Problem.{Table};
ghost use Rattle.charge_model.specs.Rules.{IsChargeList, energy, potential_at, test_slack, hop_slack};
ghost use Rattle.linear_form.specs.Forms.{weighed, weight_of, value_of, IsFormOf};
ghost use Rattle.linear_form.specs.Parts.{sign_of, constant_of, potential_weight};

use crate::form::{Form, add_term, no_terms};
use crate::laws::hops_cost_potentials;
use crate::sums::{add_energy, add_potential};
use charge_model::{MAX_LEVEL, Test};
use charge_state::Charges;
use potential_problem::Problem;
use sidb_units::Memory;
use std::alloc::Global;

/// The energy of a charge list.
pub fn energy_form(alloc: Global, problem: &Problem, charges: &Charges) -> Result<Form, Memory>
    requires charges { IsChargeList problem.now charges.now }
    ensures value { IfOk result
        (λ f. (t : Table) → value_of f t ≡ energy problem.now t charges.now) }
    ensures form { IfOk result (IsFormOf problem.now) }
{
    let mut coefficients = no_terms(alloc, problem)?;
    add_energy(&mut coefficients, problem, charges);
    Ok(Form::new(0, coefficients))
}

/// The potential of site `i`.
pub fn site_form(
    alloc: Global,
    problem: &Problem,
    charges: &Charges,
    i: usize,
) -> Result<Form, Memory>
    requires charges { IsChargeList problem.now charges.now }
    requires site { i < problem.now.sites }
    ensures value { IfOk result
        (λ f. (t : Table) → value_of f t ≡ potential_at problem.now t charges.now i) }
    ensures form { IfOk result (IsFormOf problem.now) }
{
    let mut coefficients = no_terms(alloc, problem)?;
    add_potential(&mut coefficients, problem, charges, i, 1);
    Ok(Form::new(0, coefficients))
}

/// The sign of the potential in the slack of a test.
fn test_sign(test: Test) -> i64
    ensures value { result ≡ sign_of test }
    ensures small { unsigned_abs result ≤ 1 }
{
    match test {
        Test::AboveMinus | Test::AbovePlus => 1,
        Test::BelowMinus | Test::BelowPlus => -1,
    }
}

/// The level in the slack of a test, with its sign.
fn test_constant(problem: &Problem, test: Test) -> i64
    ensures value { result ≡ constant_of problem.now test }
    ensures small { unsigned_abs result ≤ unsigned_abs MAX_LEVEL }
{
    match test {
        Test::AboveMinus => -problem.mu_minus(),
        Test::AbovePlus => -problem.mu_plus(),
        Test::BelowMinus => problem.mu_minus(),
        Test::BelowPlus => problem.mu_plus(),
    }
}

/// The slack of a test at site `i`.
pub fn test_form(
    alloc: Global,
    problem: &Problem,
    charges: &Charges,
    i: usize,
    test: Test,
) -> Result<Form, Memory>
    requires charges { IsChargeList problem.now charges.now }
    requires site { i < problem.now.sites }
    ensures value { IfOk result
        (λ f. (t : Table) → value_of f t ≡ test_slack problem.now charges.now i test t) }
    ensures form { IfOk result (IsFormOf problem.now) }
{
    let mut coefficients = no_terms(alloc, problem)?;
    let sign = test_sign(test);
    add_potential(&mut coefficients, problem, charges, i, sign);
    let constant = test_constant(problem, test);
    Ok(Form::new(constant, coefficients))
}

/// Adds the slack of a hop from site `j` to site `i`.
fn add_hop(coefficients: &mut [i64], problem: &Problem, charges: &Charges, i: usize, j: usize)
    requires classes { length coefficients.old ≡ length problem.now.spans }
    requires charges { IsChargeList problem.now charges.now }
    requires i { i < problem.now.sites }
    requires j { j < problem.now.sites }
    requires hop { rank_of (charge_at charges.now i) < rank_of (charge_at charges.now j) }
    requires room { weight_of coefficients.old ≡ 0 }
    ensures value { (t : Table) → weighed coefficients.new t.potential
        ≡ weighed coefficients.old t.potential +ℤ hop_slack problem.now charges.now i j t }
    ensures weight { weight_of coefficients.new ≤ 2 * potential_weight + 1 }
{
    hops_cost_potentials();
    add_potential(coefficients, problem, charges, i, 1);
    add_potential(coefficients, problem, charges, j, -1);
    add_term(coefficients, problem.class(i, j), -1);
}

/// The slack of the hop that raises the charge of site `i` and lowers that of site `j`.
pub fn hop_form(
    alloc: Global,
    problem: &Problem,
    charges: &Charges,
    i: usize,
    j: usize,
) -> Result<Form, Memory>
    requires charges { IsChargeList problem.now charges.now }
    requires i { i < problem.now.sites }
    requires j { j < problem.now.sites }
    requires hop { rank_of (charge_at charges.now i) < rank_of (charge_at charges.now j) }
    ensures value { IfOk result
        (λ f. (t : Table) → value_of f t ≡ hop_slack problem.now charges.now i j t) }
    ensures form { IfOk result (IsFormOf problem.now) }
{
    let mut coefficients = no_terms(alloc, problem)?;
    add_hop(&mut coefficients, problem, charges, i, j);
    Ok(Form::new(0, coefficients))
}
