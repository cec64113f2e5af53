ghost use Rattle.std.specs.Prelude.{◌≡◌, map, string_bytes, IfOk};
ghost use Rattle.serde_json.specs.View.{view};
ghost use Rattle.ground_report.specs.Subject.{AreListsOfProblem};
ghost use Rattle.sim_report_json.specs.GroundJson.{IsGroundJson, report_data};

use crate::entries::entry_values;
use crate::members::put_optional;
use crate::places::{fixed_value, lattice_value, sites_value};
use ground_entries::GroundList;
use ground_report::About;
use potential_problem::Problem;
use serde_json::{Map, Value, put};
use sidb_units::Memory;
use std::alloc::Global;

/// The report of a ground list as one compact line of JSON, with a line feed: what the ground text
/// of the same arguments holds. Its keys stand in the order of their bytes; `fixed` is there only
/// where the layout has fixed charges, and `lattice` only for another lattice than that of silicon.
pub fn ground_json(
    alloc: Global,
    about: &About,
    problem: &Problem,
    list: &GroundList,
    energies: bool,
) -> Result<String, Memory>
    requires entries { AreListsOfProblem problem.now list.now }
    ensures text { IfOk result (λ text.
        IsGroundJson about.now problem.now list.now energies (string_bytes text)) }
{
    let entries = entry_values(alloc, problem, list, energies)?;
    let report = report_value(alloc, about, entries)?;
    let mut line = report.to_string(alloc)?;
    line.push_str("\n")?;
    Ok(line)
}

/// The report of these entries.
fn report_value(alloc: Global, about: &About, entries: Vec<Value>) -> Result<Value, Memory>
    ensures { IfOk result (λ report. view report
        ≡ report_data about.now (map view entries.items)) }
{
    let fixed = fixed_value(alloc, &about.layout)?;
    let lattice = lattice_value(alloc, &about.layout)?;
    let sites = sites_value(alloc, &about.layout)?;
    let kind = "sidb-ground".to_string(alloc)?;
    let mut members = Map::new(alloc);
    put(&mut members, alloc, "count", Value::from(entries.len()))?;
    put(&mut members, alloc, "entries", Value::Array(entries))?;
    put_optional(&mut members, alloc, "fixed", fixed)?;
    put(&mut members, alloc, "kind", Value::String(kind))?;
    put_optional(&mut members, alloc, "lattice", lattice)?;
    put(&mut members, alloc, "sites", sites)?;
    put(
        &mut members,
        alloc,
        "skipped",
        Value::from(about.skipped_items()),
    )?;
    put(&mut members, alloc, "version", Value::from(about.version()))?;
    Ok(Value::Object(members))
}
