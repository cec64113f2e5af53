ghost use Rattle.std.specs.Prelude.{◌≡◌, ◌<◌, ◌^◌, IfOk, string_bytes};
ghost use Rattle.gate_model.specs.Grids.{AreAxes, HasFarEnds};
ghost use Rattle.bdl_pairs.specs.Remaining.{IsOn};
ghost use Rattle.region_tiles.specs.Areas.{whole_area};
ghost use Rattle.run_answer.specs.Due.{DueIs};
ghost use Rattle.task_gate.specs.TruthAnswer.{placed_by};
ghost use Rattle.task_region.specs.RegionAnswer.{IsRegionOfGate, IsRegionOutcome, region_report};

use bdl_pairs::{Grid, LogicSpec};
use command_words::{SearchSettings, Settings};
use operational_domain::{PlacedGate, place_gate};
use region_domain::{GateMeaning, region};
use region_report::{region_json, region_text};
use region_tiles::Tile;
use region_tiles::laws::each_grid_is_a_rectangle;
use run_answer::{Due, DueText, InputFault, Status, fault_due};
use sidb_layout::Layout;
use sidb_units::Memory;
use std::alloc::Global;
use std::thread::Threads;
use task_gate::gate_site;

/// The tiles of a gate on a layout over the rectangles of a grid, or why there are none.
pub(crate) fn region_of_gate<R: Threads + Sync>(
    rt: &R,
    alloc: Global,
    settings: &Settings,
    spec: LogicSpec,
    layout: Layout,
    grid: &Grid,
) -> Result<Due, Memory>
    requires { HasFarEnds grid.now }
    ensures { IfOk result (DueIs (IsRegionOfGate settings.now spec grid.now layout)) }
{
    match gate_site(&spec, &layout) {
        Some(place) => fault_due(alloc, InputFault::GateSite(place)),
        None => answer_on(rt, alloc, settings, spec, layout, grid),
    }
}

/// The tiles of a gate on the sites of a layout.
fn answer_on<R: Threads + Sync>(
    rt: &R,
    alloc: Global,
    settings: &Settings,
    spec: LogicSpec,
    layout: Layout,
    grid: &Grid,
) -> Result<Due, Memory>
    requires on { IsOn spec layout.sites }
    requires ends { HasFarEnds grid.now }
    ensures { IfOk result (DueIs (IsRegionOutcome settings.now
        (placed_by settings.now spec layout) grid.now)) }
{
    let SearchSettings { limit, .. } = settings.search;
    let placed = place_gate(alloc, layout, spec, limit)?;
    placed_answer(rt, alloc, settings, &placed, grid)
}

/// The tiles of a placed gate.
fn placed_answer<R: Threads + Sync>(
    rt: &R,
    alloc: Global,
    settings: &Settings,
    placed: &PlacedGate,
    grid: &Grid,
) -> Result<Due, Memory>
    requires { HasFarEnds grid.now }
    ensures { IfOk result (DueIs (IsRegionOutcome settings.now placed.now grid.now)) }
{
    each_grid_is_a_rectangle::<GateMeaning>();
    keeps_axes(grid);
    let tiles = region(rt, placed, &settings.params, grid, settings.region.refine)?;
    let text = report_of(alloc, settings, tiles.as_slice())?;
    Ok(Due {
        status: Status::Answered,
        text: DueText::Whole(text.into_bytes()),
    })
}

/// A grid keeps what each grid keeps.
fn keeps_axes(grid: &Grid)
    ensures { AreAxes grid.now }
{
    let _eps = grid.eps();
    let _lam = grid.lam();
}

/// The text of tiles that the settings ask for.
fn report_of(alloc: Global, settings: &Settings, tiles: &[Tile]) -> Result<String, Memory>
    requires { whole_area tiles.now < 2 ^ 64 }
    ensures { IfOk result (λ text. string_bytes text
        ≡ region_report settings.now.report.json tiles.now) }
{
    if settings.report.json {
        region_json(alloc, tiles)
    } else {
        region_text(alloc, tiles)
    }
}
