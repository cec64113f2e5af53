ghost use Rattle.std.specs.Prelude.{◌≡◌, IfOk, string_bytes};
ghost use Rattle.gate_model.specs.Logic.{pattern_count};
ghost use Rattle.bdl_pairs.specs.Remaining.{IsOn};
ghost use Rattle.operational_domain.specs.Placed.{setting_at};
ghost use Rattle.operational_domain.specs.Truth.{AreAnswers};
ghost use Rattle.run_answer.specs.Due.{DueIs};
ghost use Rattle.task_gate.specs.TruthAnswer.{IsTruthOfGate, IsTruthOutcome, placed_by, truth_report};

use crate::sites::gate_site;
use bdl_pairs::{LogicSpec, Truth, name_of};
use command_words::{SearchSettings, Settings};
use gate_report::{truth_json, truth_text};
use operational_domain::{PlacedGate, TruthAnswer, place_gate, truth};
use run_answer::{Due, DueText, InputFault, Status, budget_due, fault_due, long_list_due};
use sidb_io::Gate;
use sidb_layout::Layout;
use sidb_units::Memory;
use std::alloc::Global;
use std::thread::Threads;

/// The truth table of a gate on a layout, or why there is none.
pub(crate) fn truth_of_gate<R: Threads + Sync, G: Gate>(
    rt: &R,
    alloc: Global,
    settings: &Settings,
    spec: LogicSpec,
    layout: Layout,
    gate: &G,
) -> Result<Due, Memory>
    ensures { IfOk result (DueIs (IsTruthOfGate settings.now spec layout)) }
{
    match gate_site(&spec, &layout) {
        Some(place) => fault_due(alloc, InputFault::GateSite(place)),
        None => answer_on(rt, alloc, settings, spec, layout, gate),
    }
}

/// The truth table of a gate on the sites of a layout, or why there is none.
fn answer_on<R: Threads + Sync, G: Gate>(
    rt: &R,
    alloc: Global,
    settings: &Settings,
    spec: LogicSpec,
    layout: Layout,
    gate: &G,
) -> Result<Due, Memory>
    requires { IsOn spec layout.sites }
    ensures { IfOk result (DueIs (IsTruthOutcome settings.now
        (placed_by settings.now spec layout))) }
{
    let SearchSettings { limit, .. } = settings.search;
    let placed = place_gate(alloc, layout, spec, limit)?;
    placed_answer(rt, alloc, settings, &placed, gate)
}

/// The truth table of a placed gate, or why there is none.
fn placed_answer<R: Threads + Sync, G: Gate>(
    rt: &R,
    alloc: Global,
    settings: &Settings,
    placed: &PlacedGate,
    gate: &G,
) -> Result<Due, Memory>
    ensures { IfOk result (DueIs (IsTruthOutcome settings.now placed.now)) }
{
    let SearchSettings { workers, .. } = settings.search;
    match truth(rt, placed, &settings.params, workers, gate) {
        TruthAnswer::Table(table) => table_due(alloc, settings, placed, &table),
        TruthAnswer::Budget => budget_due(alloc, placed.limit()),
        TruthAnswer::ListTooLong => Ok(long_list_due()),
        TruthAnswer::Memory => Err(Memory),
    }
}

/// The report of a truth table.
fn table_due(
    alloc: Global,
    settings: &Settings,
    placed: &PlacedGate,
    table: &Truth,
) -> Result<Due, Memory>
    requires { AreAnswers (setting_at placed.now settings.now.params)
        (pattern_count placed.now.gate) table.now }
    ensures { IfOk result (DueIs (IsTruthOutcome settings.now placed.now)) }
{
    let text = report_of(alloc, settings, placed.gate(), table)?;
    Ok(Due {
        status: Status::Answered,
        text: DueText::Whole(text.into_bytes()),
    })
}

/// The text of a truth table that the settings ask for.
fn report_of(
    alloc: Global,
    settings: &Settings,
    gate: &LogicSpec,
    table: &Truth,
) -> Result<String, Memory>
    ensures { IfOk result (λ text. string_bytes text
        ≡ truth_report settings.now.report.json gate.now table.now) }
{
    let name = name_of(&gate.function());
    if settings.report.json {
        truth_json(alloc, name, table)
    } else {
        truth_text(alloc, name, gate, table)
    }
}
