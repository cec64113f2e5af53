ghost use Rattle.std.specs.Prelude.{◌≡◌, ◌<◌, ◌↔◌, length, IsTrue, IfOk};
ghost use Rattle.charge_model.specs.Charges.{charge_at, rank_of};
ghost use Rattle.charge_model.specs.Problem.{UnderSomeTable};
ghost use Rattle.charge_model.specs.Rules.{IsChargeList, IsPossiblyValid};
ghost use Rattle.charge_validity.specs.OwnMarks.{AreTestsPossible, AreHopsPossible, IsHopPossible};

use charge_model::laws::problems_have_tables;
use charge_state::{Charge, Charges};
use hop_rule::{HopVerdict, hop};
use population_rule::{PopulationVerdict, population};
use potential_problem::Problem;
use sidb_units::Memory;
use std::alloc::Global;

/// The place of a charge in the order: 0, 1 or 2.
fn rank(charge: Charge) -> u8
    ensures { result ≡ rank_of charge }
{
    match charge {
        Charge::Neg => 0,
        Charge::Neutral => 1,
        Charge::Pos => 2,
    }
}

/// Whether an electron can hop from site `j` to site `i`: the charge of `i` is the lower one.
pub fn is_hop(charges: &Charges, i: usize, j: usize) -> bool
    requires i { i < length charges.now }
    requires j { j < length charges.now }
    ensures { IsTrue result
        ↔ (rank_of (charge_at charges.now i) < rank_of (charge_at charges.now j)) }
{
    rank(charges.at(i)) < rank(charges.at(j))
}

/// A problem has a table, so that what holds under every table holds under some.
pub fn has_table(problem: &Problem)
    ensures { UnderSomeTable problem.now (λ t. t.scale ≡ 1) }
{
    problems_have_tables();
    let _sites = problem.sites();
}

/// Whether each test of site `i` holds under some table.
fn are_tests_possible(
    alloc: Global,
    problem: &Problem,
    charges: &Charges,
    i: usize,
) -> Result<bool, Memory>
    requires list { IsChargeList problem.now charges.now }
    requires site { i < problem.now.sites }
    ensures { IfOk result (λ b. IsTrue b ↔ AreTestsPossible problem.now charges.now i) }
{
    has_table(problem);
    match population(alloc, problem, charges, i)? {
        PopulationVerdict::Never => Ok(false),
        PopulationVerdict::Always => Ok(true),
        PopulationVerdict::Depends(_, _) => Ok(true),
    }
}

/// Whether the hop from site `j` to site `i`, if it is one, holds under some table.
fn is_hop_possible(
    alloc: Global,
    problem: &Problem,
    charges: &Charges,
    i: usize,
    j: usize,
) -> Result<bool, Memory>
    requires list { IsChargeList problem.now charges.now }
    requires i { i < problem.now.sites }
    requires j { j < problem.now.sites }
    ensures { IfOk result (λ b. IsTrue b ↔ IsHopPossible problem.now charges.now i j) }
{
    if !is_hop(charges, i, j) {
        return Ok(true);
    }
    has_table(problem);
    match hop(alloc, problem, charges, i, j)? {
        HopVerdict::Never => Ok(false),
        HopVerdict::Always => Ok(true),
        HopVerdict::Depends(_) => Ok(true),
    }
}

/// Whether each hop to site `i` holds under some table.
fn are_hops_possible(
    alloc: Global,
    problem: &Problem,
    charges: &Charges,
    i: usize,
) -> Result<bool, Memory>
    requires list { IsChargeList problem.now charges.now }
    requires site { i < problem.now.sites }
    ensures { IfOk result (λ b. IsTrue b ↔ AreHopsPossible problem.now charges.now i) }
{
    for j in 0..problem.sites() {
        if !is_hop_possible(alloc, problem, charges, i, j)? {
            return Ok(false);
        }
    }
    Ok(true)
}

/// Whether each inequality of a charge list holds under some table.
pub fn is_possible(alloc: Global, problem: &Problem, charges: &Charges) -> Result<bool, Memory>
    requires { IsChargeList problem.now charges.now }
    ensures { IfOk result (λ b. IsTrue b ↔ IsPossiblyValid problem.now charges.now) }
{
    for i in 0..problem.sites() {
        let tests = are_tests_possible(alloc, problem, charges, i)?;
        let hops = are_hops_possible(alloc, problem, charges, i)?;
        if !tests || !hops {
            return Ok(false);
        }
    }
    Ok(true)
}
