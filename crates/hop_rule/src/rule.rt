ghost use Rattle.std.specs.Prelude.{◌≡◌, ◌<◌, ◌↔◌, IfOk};
ghost use Rattle.charge_model.specs.Charges.{charge_at, rank_of};
ghost use Rattle.charge_model.specs.Problem.{IsLeast, IsGreatest};
ghost use Rattle.charge_model.specs.Rules.{IsChargeList, hop_slack};
ghost use Rattle.linear_form.specs.Forms.{IsSmallSpan};
ghost use Rattle.hop_rule.specs.Verdict.{IsHopVerdict, HoldsAlways, NeverHolds, HasSmallHopSpan};

use crate::verdict::HopVerdict;
use charge_model::Span;
use charge_model::laws::problems_have_tables;
use charge_state::Charges;
use linear_form::laws::{
    greatest_values_decide, least_values_decide, same_greatest_values, same_least_values,
};
use linear_form::{form_span, hop_form};
use potential_problem::Problem;
use sidb_units::Memory;
use std::alloc::Global;

/// The least and the greatest slack of a hop at scale 1.
fn hop_span(
    alloc: Global,
    problem: &Problem,
    charges: &Charges,
    i: usize,
    j: usize,
) -> Result<Span, Memory>
    requires charges { IsChargeList problem.now charges.now }
    requires i { i < problem.now.sites }
    requires j { j < problem.now.sites }
    requires hop { rank_of (charge_at charges.now i) < rank_of (charge_at charges.now j) }
    ensures least { IfOk result
        (λ s. IsLeast problem.now (hop_slack problem.now charges.now i j) s.lo) }
    ensures greatest { IfOk result
        (λ s. IsGreatest problem.now (hop_slack problem.now charges.now i j) s.hi) }
    ensures within { IfOk result IsSmallSpan }
{
    same_least_values();
    same_greatest_values();
    let form = hop_form(alloc, problem, charges, i, j)?;
    Ok(form_span(problem, &form))
}

/// What the slack of the hop that raises the charge of site `i` and lowers that of site `j` is
/// over all potential tables.
pub fn hop(
    alloc: Global,
    problem: &Problem,
    charges: &Charges,
    i: usize,
    j: usize,
) -> Result<HopVerdict, Memory>
    requires charges { IsChargeList problem.now charges.now }
    requires i { i < problem.now.sites }
    requires j { j < problem.now.sites }
    requires hop { rank_of (charge_at charges.now i) < rank_of (charge_at charges.now j) }
    ensures verdict { IfOk result (IsHopVerdict problem.now charges.now i j) }
    ensures always { IfOk result
        (λ v. (v ≡ HopVerdict.Always) ↔ HoldsAlways problem.now charges.now i j) }
    ensures never { IfOk result
        (λ v. (v ≡ HopVerdict.Never) ↔ NeverHolds problem.now charges.now i j) }
    ensures within { IfOk result HasSmallHopSpan }
{
    problems_have_tables();
    let _known = problem.sites();
    let verdict = hop_verdict(alloc, problem, charges, i, j)?;
    Ok(verdict)
}

/// The verdict on a hop.
fn hop_verdict(
    alloc: Global,
    problem: &Problem,
    charges: &Charges,
    i: usize,
    j: usize,
) -> Result<HopVerdict, Memory>
    requires charges { IsChargeList problem.now charges.now }
    requires i { i < problem.now.sites }
    requires j { j < problem.now.sites }
    requires hop { rank_of (charge_at charges.now i) < rank_of (charge_at charges.now j) }
    ensures verdict { IfOk result (IsHopVerdict problem.now charges.now i j) }
    ensures within { IfOk result HasSmallHopSpan }
{
    least_values_decide();
    greatest_values_decide();
    let span = hop_span(alloc, problem, charges, i, j)?;
    if span.hi < 0 {
        Ok(HopVerdict::Never)
    } else if span.lo < 0 {
        Ok(HopVerdict::Depends(span))
    } else {
        Ok(HopVerdict::Always)
    }
}
