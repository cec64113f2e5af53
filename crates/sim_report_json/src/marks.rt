// Marks as JSON.
ghost use Rattle.std.specs.Prelude.{◌≡◌, option_map, IfOk};
ghost use Rattle.serde_json.specs.View.{view};
ghost use Rattle.sim_report_json.specs.Parts.{deciding_data, energy_data, mark_data, mark_word};

use charge_model::{Deciding, Mark, Span, Test};
use entry_lines::test_word;
use serde_json::{Value, json};
use sidb_units::Memory;
use std::alloc::Global;

/// The word of a mark.
pub fn mark_word(mark: Mark) -> &'static str
    ensures { result.now ≡ mark_word mark }
{
    match mark {
        Mark::Certain => "certain",
        Mark::Unresolved(_) => "unresolved",
    }
}

/// What an unresolved mark names.
pub fn mark_value(alloc: Global, mark: Mark) -> Result<Option<Value>, Memory>
    ensures { IfOk result (λ value. option_map view value ≡ mark_data mark) }
{
    match mark {
        Mark::Certain => Ok(None),
        Mark::Unresolved(deciding) => Ok(Some(deciding_value(alloc, deciding)?)),
    }
}

/// What decides that an entry is not certain.
fn deciding_value(alloc: Global, deciding: Deciding) -> Result<Value, Memory>
    ensures { IfOk result (λ value. view value ≡ deciding_data deciding) }
{
    match deciding {
        Deciding::Population(site, test, span) => population_value(alloc, site, test, span),
        Deciding::Hop(from, to, span) => hop_value(alloc, from, to, span),
        Deciding::Rival(entry, span) => rival_value(alloc, entry, span),
    }
}

/// A test at a site.
fn population_value(alloc: Global, site: usize, test: Test, span: Span) -> Result<Value, Memory>
    ensures { IfOk result (λ value. view value
        ≡ deciding_data (Deciding.Population site test span)) }
{
    let test = test_word(test);
    Ok(json!(in alloc; {
        "greatest": span.hi, "kind": "population", "least": span.lo, "site": site, "test": test
    })?)
}

/// A hop: the charge of the first site rises, and that of the second falls.
fn hop_value(alloc: Global, from: usize, to: usize, span: Span) -> Result<Value, Memory>
    ensures { IfOk result (λ value. view value ≡ deciding_data (Deciding.Hop from to span)) }
{
    Ok(json!(in alloc; {
        "from": from, "greatest": span.hi, "kind": "hop", "least": span.lo, "to": to
    })?)
}

/// Another entry, which may have less energy.
fn rival_value(alloc: Global, entry: usize, span: Span) -> Result<Value, Memory>
    ensures { IfOk result (λ value. view value ≡ deciding_data (Deciding.Rival entry span)) }
{
    Ok(json!(in alloc; {
        "entry": entry, "greatest": span.hi, "kind": "rival", "least": span.lo
    })?)
}

/// The energy of an entry, where it is given.
pub fn energy_value(alloc: Global, energy: Option<Span>) -> Result<Option<Value>, Memory>
    ensures { IfOk result (λ value. option_map view value ≡ option_map energy_data energy) }
{
    match energy {
        None => Ok(None),
        Some(span) => Ok(Some(json!(in alloc; [span.lo, span.hi])?)),
    }
}
