// Entries as JSON.
ghost use Rattle.std.specs.Prelude.{◌≡◌, ◌<◌, length, map, slice_get, zip, IfOk, None, Some};
ghost use Rattle.serde_json.specs.View.{view};
ghost use Rattle.ground_entries.specs.Seen.{seen};
ghost use Rattle.ground_report.specs.Subject.{AreListsOfProblem};
ghost use Rattle.sim_report_json.specs.Parts.{entry_data};
ghost use Rattle.sim_report_json.specs.GroundJson.{AreEntryData, entry_with_energy};

use crate::marks::{energy_value, mark_value, mark_word};
use crate::members::put_optional;
use charge_model::Span;
use charge_state::print_charges;
use ground_entries::{Entry, GroundList};
use ground_report::energy_spans;
use potential_problem::Problem;
use serde_json::{Map, Value, put};
use sidb_units::Memory;
use std::alloc::Global;

/// The entries, with their energies or without.
pub fn entry_values(
    alloc: Global,
    problem: &Problem,
    list: &GroundList,
    energies: bool,
) -> Result<Vec<Value>, Memory>
    requires { AreListsOfProblem problem.now list.now }
    ensures { IfOk result (λ values.
        AreEntryData problem.now list.now energies (map view values.items)) }
{
    if energies {
        let spans = energy_spans(alloc, problem, list)?;
        let values = energy_values(alloc, list, &spans)?;
        return Ok(values);
    }
    let values = plain_values(alloc, list)?;
    Ok(values)
}

/// The entries without energies.
pub fn plain_values(alloc: Global, list: &GroundList) -> Result<Vec<Value>, Memory>
    ensures { IfOk result (λ values. map view values.items ≡ map (entry_data None) list.now) }
{
    let mut values = Vec::with_capacity(alloc, list.len())?;
    for j in 0..list.len() {
        values.push(entry_value(alloc, list.entry(j), None)?)?;
    }
    Ok(values)
}

/// The entries, each with its energy.
fn energy_values(alloc: Global, list: &GroundList, spans: &[Span]) -> Result<Vec<Value>, Memory>
    requires { length spans.now ≡ length list.now }
    ensures { IfOk result (λ values.
        map view values.items ≡ map entry_with_energy (zip list.now spans.now)) }
{
    let mut values = Vec::with_capacity(alloc, list.len())?;
    for j in 0..list.len() {
        let span = span_at(spans, j);
        values.push(entry_value(alloc, list.entry(j), Some(span))?)?;
    }
    Ok(values)
}

/// Span j.
fn span_at(spans: &[Span], j: usize) -> Span
    requires { j < length spans.now }
    ensures { slice_get spans.now j ≡ Some result }
{
    spans[j]
}

/// An entry, with its energy where that is given.
fn entry_value(alloc: Global, entry: &Entry, energy: Option<Span>) -> Result<Value, Memory>
    ensures { IfOk result (λ value. view value ≡ entry_data energy (seen entry.now)) }
{
    let charges = print_charges(alloc, &entry.charges)?;
    let deciding = mark_value(alloc, entry.mark)?;
    let energy = energy_value(alloc, energy)?;
    let mark = mark_word(entry.mark).to_string(alloc)?;
    let mut members = Map::new(alloc);
    put(&mut members, alloc, "charges", Value::String(charges))?;
    put_optional(&mut members, alloc, "deciding", deciding)?;
    put_optional(&mut members, alloc, "energy", energy)?;
    put(&mut members, alloc, "mark", Value::String(mark))?;
    Ok(Value::Object(members))
}
