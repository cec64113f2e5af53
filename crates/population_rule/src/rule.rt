ghost use Rattle.std.specs.Prelude.{◌≡◌, ◌<◌, ◌↔◌, IfOk};
ghost use Rattle.charge_model.specs.declared.charge.Charge.{Charge};
ghost use Rattle.charge_model.specs.declared.charge.Test.{Test};
ghost use Rattle.charge_model.specs.Charges.{charge_at};
ghost use Rattle.charge_model.specs.Problem.{IsLeast, IsGreatest, IsProblem};
ghost use Rattle.charge_model.specs.Rules.{IsChargeList, IsTestOf, test_slack};
ghost use Rattle.linear_form.specs.Forms.{IsSmallSpan};
ghost use Rattle.population_rule.specs.Verdict.{IsPopulationVerdict, HoldAlways, OneNeverHolds, HasSmallTestSpan};

use crate::verdict::PopulationVerdict;
use charge_model::laws::problems_have_tables;
use charge_model::{Charge, Span, Test};
use charge_state::Charges;
use linear_form::laws::{
    greatest_values_decide, least_values_decide, same_greatest_values, same_least_values,
};
use linear_form::{form_span, test_form};
use potential_problem::Problem;
use sidb_units::Memory;
use std::alloc::Global;

/// The least and the greatest slack of a test at scale 1.
fn test_span(
    alloc: Global,
    problem: &Problem,
    charges: &Charges,
    i: usize,
    test: Test,
) -> Result<Span, Memory>
    requires charges { IsChargeList problem.now charges.now }
    requires site { i < problem.now.sites }
    ensures least { IfOk result
        (λ s. IsLeast problem.now (test_slack problem.now charges.now i test) s.lo) }
    ensures greatest { IfOk result
        (λ s. IsGreatest problem.now (test_slack problem.now charges.now i test) s.hi) }
    ensures within { IfOk result IsSmallSpan }
{
    same_least_values();
    same_greatest_values();
    let form = test_form(alloc, problem, charges, i, test)?;
    Ok(form_span(problem, &form))
}

/// The verdict on a site whose charge has one test.
fn one_test(
    alloc: Global,
    problem: &Problem,
    charges: &Charges,
    i: usize,
    test: Test,
) -> Result<PopulationVerdict, Memory>
    requires charges { IsChargeList problem.now charges.now }
    requires site { i < problem.now.sites }
    requires test { IsTestOf (charge_at charges.now i) test }
    requires only { (k : Test) → IsTestOf (charge_at charges.now i) k → k ≡ test }
    ensures verdict { IfOk result (IsPopulationVerdict problem.now charges.now i) }
    ensures within { IfOk result HasSmallTestSpan }
{
    least_values_decide();
    greatest_values_decide();
    let span = test_span(alloc, problem, charges, i, test)?;
    if span.hi < 0 {
        Ok(PopulationVerdict::Never)
    } else if span.lo < 0 {
        Ok(PopulationVerdict::Depends(test, span))
    } else {
        Ok(PopulationVerdict::Always)
    }
}

/// The verdict on a neutral site, which has two tests.
fn two_tests(
    alloc: Global,
    problem: &Problem,
    charges: &Charges,
    i: usize,
) -> Result<PopulationVerdict, Memory>
    requires charges { IsChargeList problem.now charges.now }
    requires site { i < problem.now.sites }
    requires neutral { charge_at charges.now i ≡ Charge.Neutral }
    ensures verdict { IfOk result (IsPopulationVerdict problem.now charges.now i) }
    ensures within { IfOk result HasSmallTestSpan }
{
    least_values_decide();
    greatest_values_decide();
    let above = test_span(alloc, problem, charges, i, Test::AbovePlus)?;
    if above.hi < 0 {
        return Ok(PopulationVerdict::Never);
    }
    let below = test_span(alloc, problem, charges, i, Test::BelowMinus)?;
    if below.hi < 0 {
        Ok(PopulationVerdict::Never)
    } else if above.lo < 0 {
        Ok(PopulationVerdict::Depends(Test::AbovePlus, above))
    } else if below.lo < 0 {
        Ok(PopulationVerdict::Depends(Test::BelowMinus, below))
    } else {
        Ok(PopulationVerdict::Always)
    }
}

/// The verdict on site `i`.
fn site_verdict(
    alloc: Global,
    problem: &Problem,
    charges: &Charges,
    i: usize,
) -> Result<PopulationVerdict, Memory>
    requires charges { IsChargeList problem.now charges.now }
    requires site { i < problem.now.sites }
    ensures verdict { IfOk result (IsPopulationVerdict problem.now charges.now i) }
    ensures within { IfOk result HasSmallTestSpan }
{
    match charges.at(i) {
        Charge::Neg => one_test(alloc, problem, charges, i, Test::AboveMinus),
        Charge::Neutral => two_tests(alloc, problem, charges, i),
        Charge::Pos => one_test(alloc, problem, charges, i, Test::BelowPlus),
    }
}

/// What the tests of the charge of site `i` are over all potential tables.
pub fn population(
    alloc: Global,
    problem: &Problem,
    charges: &Charges,
    i: usize,
) -> Result<PopulationVerdict, Memory>
    requires charges { IsChargeList problem.now charges.now }
    requires site { i < problem.now.sites }
    ensures verdict { IfOk result (IsPopulationVerdict problem.now charges.now i) }
    ensures always { IfOk result
        (λ v. (v ≡ PopulationVerdict.Always) ↔ HoldAlways problem.now charges.now i) }
    ensures never { IfOk result
        (λ v. (v ≡ PopulationVerdict.Never) ↔ OneNeverHolds problem.now charges.now i) }
    ensures within { IfOk result HasSmallTestSpan }
{
    problems_have_tables();
    let _known = problem.sites();
    let verdict = site_verdict(alloc, problem, charges, i)?;
    Ok(verdict)
}
