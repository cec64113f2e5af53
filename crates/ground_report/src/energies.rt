ghost use Rattle.std.specs.Prelude.{◌≡◌, length, IfOk};
ghost use Rattle.charge_model.specs.Rules.{IsChargeList};
ghost use Rattle.ground_report.specs.Energies.{AreEnergies, IsEnergySpan};
ghost use Rattle.ground_report.specs.Subject.{AreListsOfProblem};

use charge_model::Span;
use charge_state::Charges;
use ground_entries::GroundList;
use linear_form::{energy_form, form_span};
use potential_problem::Problem;
use sidb_units::Memory;
use std::alloc::Global;

/// The least and the greatest energy of a charge list.
fn energy_span(alloc: Global, problem: &Problem, charges: &Charges) -> Result<Span, Memory>
    requires { IsChargeList problem.now charges.now }
    ensures { IfOk result (IsEnergySpan problem.now charges.now) }
{
    let form = energy_form(alloc, problem, charges)?;
    Ok(form_span(problem, &form))
}

/// The least and the greatest energy of each entry at scale 1, in 10^-12 V, in the order of the
/// entries.
pub fn energy_spans(
    alloc: Global,
    problem: &Problem,
    list: &GroundList,
) -> Result<Vec<Span>, Memory>
    requires { AreListsOfProblem problem.now list.now }
    ensures value { IfOk result (λ spans. AreEnergies problem.now list.now spans.items) }
    ensures one_each { IfOk result (λ spans. length spans.items ≡ length list.now) }
{
    let mut spans = Vec::with_capacity(alloc, list.len())?;
    for j in 0..list.len() {
        let span = energy_span(alloc, problem, &list.entry(j).charges)?;
        spans.push(span)?;
    }
    Ok(spans)
}
