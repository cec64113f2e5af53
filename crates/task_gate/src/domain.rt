ghost use Rattle.std.specs.Prelude.{◌≡◌, All, IfOk, string_bytes};
ghost use Rattle.bdl_pairs.specs.Remaining.{IsOn};
ghost use Rattle.gate_report.specs.DomainText.{IsPrintable};
ghost use Rattle.operational_domain.specs.Domain.{AreCells};
ghost use Rattle.run_answer.specs.Due.{DueIs};
ghost use Rattle.task_gate.specs.TruthAnswer.{placed_by};
ghost use Rattle.task_gate.specs.DomainAnswer.{IsDomainOfGate, IsDomainOutcome, domain_report};

use crate::sites::gate_site;
use bdl_pairs::{Cell, Grid, LogicSpec};
use command_words::{SearchSettings, Settings};
use gate_report::{domain_json, domain_text};
use operational_domain::{PlacedGate, domain, place_gate};
use run_answer::{Due, DueText, InputFault, Status, fault_due};
use sidb_layout::Layout;
use sidb_units::Memory;
use std::alloc::Global;
use std::thread::Threads;

/// The operational domain of a gate on a layout over a grid, or why there is none.
pub(crate) fn domain_of_gate<R: Threads + Sync>(
    rt: &R,
    alloc: Global,
    settings: &Settings,
    spec: LogicSpec,
    layout: Layout,
    grid: &Grid,
) -> Result<Due, Memory>
    ensures { IfOk result (DueIs (IsDomainOfGate settings.now spec grid.now layout)) }
{
    match gate_site(&spec, &layout) {
        Some(place) => fault_due(alloc, InputFault::GateSite(place)),
        None => answer_on(rt, alloc, settings, spec, layout, grid),
    }
}

/// The domain of a gate on the sites of a layout.
fn answer_on<R: Threads + Sync>(
    rt: &R,
    alloc: Global,
    settings: &Settings,
    spec: LogicSpec,
    layout: Layout,
    grid: &Grid,
) -> Result<Due, Memory>
    requires { IsOn spec layout.sites }
    ensures { IfOk result (DueIs (IsDomainOutcome settings.now
        (placed_by settings.now spec layout) grid.now)) }
{
    let SearchSettings { limit, .. } = settings.search;
    let placed = place_gate(alloc, layout, spec, limit)?;
    placed_answer(rt, alloc, settings, &placed, grid)
}

/// The domain of a placed gate.
fn placed_answer<R: Threads + Sync>(
    rt: &R,
    alloc: Global,
    settings: &Settings,
    placed: &PlacedGate,
    grid: &Grid,
) -> Result<Due, Memory>
    ensures { IfOk result (DueIs (IsDomainOutcome settings.now placed.now grid.now)) }
{
    let cells = domain(rt, placed, &settings.params, grid)?;
    let text = report_of(alloc, settings, cells.as_slice())?;
    Ok(Due {
        status: Status::Answered,
        text: DueText::Whole(text.into_bytes()),
    })
}

/// The text of a domain that the settings ask for.
fn report_of(alloc: Global, settings: &Settings, cells: &[Cell]) -> Result<String, Memory>
    requires { All IsPrintable cells.now }
    ensures { IfOk result (λ text. string_bytes text
        ≡ domain_report settings.now.report.json cells.now) }
{
    if settings.report.json {
        domain_json(alloc, cells)
    } else {
        domain_text(alloc, cells)
    }
}
