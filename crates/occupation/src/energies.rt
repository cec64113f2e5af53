ghost use Rattle.std.specs.Prelude.{◌≡◌, ◌↔◌, ◌-ℤ◌, IsTrue, IfOk, All};
ghost use Rattle.charge_model.specs.Rules.{IsChargeList};
ghost use Rattle.charge_model.specs.GroundList.{lists_of};
ghost use Rattle.linear_form.specs.Forms.{IsSmallSpan};
ghost use Rattle.occupation.specs.Energies.{IsEnergyOf, IsEnergyOfList, lists_of_energies};
ghost use Rattle.occupation.specs.Shares.{IsEnergyGapSpan};

use charge_state::Charges;
use fixed_enclosure::{Span, span_between};
use ground_entries::GroundList;
use linear_form::laws::{same_greatest_values, same_least_values};
use linear_form::{Form, energy_form, form_span, minus};
use potential_problem::Problem;
use sidb_units::Memory;
use std::alloc::Global;

/// A charge list, its energy, and the least and the greatest energy at scale 1, in 10^-12 V.
#[derive(Drop)]
pub(crate) struct EntryEnergy {
    pub charges: Charges,
    pub energy: Form,
    pub span: Span,
}

/// The energy of a charge list.
fn energy_of(alloc: Global, problem: &Problem, charges: &Charges) -> Result<EntryEnergy, Memory>
    requires { IsChargeList problem.now charges.now }
    ensures { IfOk result (IsEnergyOfList problem.now charges.now) }
{
    same_least_values();
    same_greatest_values();
    let energy = energy_form(alloc, problem, charges)?;
    let span = form_span(problem, &energy);
    Ok(EntryEnergy {
        charges: charges.copy(),
        energy,
        span,
    })
}

/// The energy of each entry, in order.
pub(crate) fn energies_of(
    alloc: Global,
    problem: &Problem,
    list: &GroundList,
) -> Result<Vec<EntryEnergy>, Memory>
    requires { All (IsChargeList problem.now) (lists_of list.now) }
    ensures energies { IfOk result (λ v. All (IsEnergyOf problem.now) v.items) }
    ensures charges { IfOk result (λ v. lists_of_energies v.items ≡ lists_of list.now) }
{
    let mut energies = Vec::new(alloc);
    for j in 0..list.len() {
        let entry = energy_of(alloc, problem, &list.entry(j).charges)?;
        energies.push(entry)?;
    }
    Ok(energies)
}

/// Whether an energy is the same under every table, times the scale.
fn is_single(span: &Span) -> bool
    ensures { IsTrue result ↔ (span.now.lo ≡ span.now.hi) }
{
    span.lo == span.hi
}

/// The span from the least of the one less the greatest of the other, and the other way round.
fn ends_apart(list: &Span, other: &Span) -> Span
    requires list { IsSmallSpan list.now }
    requires other { IsSmallSpan other.now }
    ensures lo { result.lo ≡ list.now.lo -ℤ other.now.hi }
    ensures hi { result.hi ≡ list.now.hi -ℤ other.now.lo }
{
    span_between(list.lo - other.hi, list.hi - other.lo)
}

/// The least and the greatest of the energy of a list less that of another, at scale 1.
///
/// Where one of the two energies is a single number, their least and greatest values give it.
pub(crate) fn gap_span(
    alloc: Global,
    problem: &Problem,
    list: &EntryEnergy,
    other: &EntryEnergy,
) -> Result<Span, Memory>
    requires list { IsEnergyOf problem.now list.now }
    requires other { IsEnergyOf problem.now other.now }
    ensures { IfOk result (IsEnergyGapSpan problem.now list.now.charges other.now.charges) }
{
    same_least_values();
    same_greatest_values();
    if is_single(&list.span) || is_single(&other.span) {
        return Ok(ends_apart(&list.span, &other.span));
    }
    let gap = minus(alloc, &list.energy, &other.energy)?;
    Ok(form_span(problem, &gap))
}
