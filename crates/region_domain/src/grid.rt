ghost use denote.Param.Send.{IsSync};
ghost use Rattle.std.specs.Prelude.{◌≡◌, IfOk};
ghost use Rattle.std.specs.List.{AllZip, flat_map};
ghost use Rattle.gate_model.specs.Grids.{HasFarEnds};
ghost use Rattle.region_domain.specs.Tiles.{IsTileAnswer};
ghost use Rattle.region_domain.specs.Region.{AreRegionTiles, AreTilesOf};

use crate::tile_answer;
use bdl_pairs::Grid;
use model_params::Params;
use narrower_lists::SolvedProblem;
use operational_domain::PlacedGate;
use parameter_regions::Rectangle;
use rayon::prelude::*;
use region_tiles::{Judge, Judged, Tile, rectangles_of, tiles_of};
use sidb_units::Memory;
use std::alloc::Global;
use std::marker::Model;
use std::thread::Threads;

/// Answers what a gate does on a rectangle.
#[derive(Drop)]
struct GateJudge<'a, R> {
    rt: &'a R,
    placed: &'a PlacedGate,
}

impl<'a, R: Threads + Sync> Judge for GateJudge<'a, R> {
    type Kept = Vec<SolvedProblem>;

    ghost can_judge = { λ judge. IsSync R.row };

    ghost says = { λ judge r answer. IsTileAnswer judge.placed.now r answer };

    fn judge(
        &self,
        rectangle: &Rectangle,
        whole: Option<&Vec<SolvedProblem>>,
    ) -> Result<Judged<Vec<SolvedProblem>>, Memory> {
        tile_answer(self.rt, self.placed, rectangle, whole)
    }
}

/// The tiles of a rectangle.
#[derive(Drop)]
struct Tiled {
    tiles: Vec<Tile>,
}

impl Model for Tiled {
    ghost use Rattle.std.specs.Prelude.{List};
    ghost use Rattle.region_tiles.specs.declared.tiles.Tile.{Tile};

    ghost Value = { List Tile };

    ghost use Rattle.region_domain.specs.SeenTiled.{seen_tiled};

    ghost view = { seen_tiled };
}

impl Tiled {
    /// The tiles.
    fn tiles(&self) -> &[Tile]
        ensures { result.now ≡ self.now }
    {
        self.tiles.as_slice()
    }
}

/// The tiles of one rectangle.
fn tiles_at_one<R: Threads + Sync>(
    rt: &R,
    placed: &PlacedGate,
    depth: u64,
    rectangle: &Rectangle,
) -> Result<Tiled, Memory>
    ensures { IfOk result (AreTilesOf placed.now depth rectangle.now) }
{
    let judge = GateJudge { rt, placed };
    let tiles = tiles_of(placed.alloc(), &judge, rectangle, depth)?;
    Ok(Tiled { tiles })
}

/// The tiles of rectangles, in order: each has what it has by itself, whatever the others have.
fn tiles_at<R: Threads + Sync>(
    rt: &R,
    placed: &PlacedGate,
    depth: u64,
    rectangles: &[Rectangle],
) -> Result<Vec<Tiled>, Memory>
    ensures { IfOk result (λ all.
        AllZip (AreTilesOf placed.now depth) rectangles.now all.items) }
{
    // (each rectangle is a search, and so heavy enough for a thread)
    let gathered = rectangles
        .par_iter()
        .with_min_len(1)
        .map(
            |rectangle: &Rectangle| -> Result<Tiled, Memory>
                ensures { IfOk result (AreTilesOf placed.entry.now depth rectangle.now) }
            { tiles_at_one(rt, placed, depth, rectangle) },
        )
        .collect::<Result<Vec<Tiled>, Memory>>(rt, placed.alloc())?;
    gathered
}

/// One list after the other.
fn joined(alloc: Global, all: &[Tiled]) -> Result<Vec<Tile>, Memory>
    ensures { IfOk result (λ tiles. tiles.items ≡ flat_map (λ ts. ts) all.now) }
{
    let mut tiles = Vec::new(alloc);
    for k in 0..all.len() {
        tiles.extend_from_slice(all[k].tiles())?;
    }
    Ok(tiles)
}

/// The tiles of the rectangles of a grid, permittivity outer and screening length inner, each with
/// what the gate does on the whole of it. A rectangle whose answer stays open is cut in the middle
/// of its sides, at most `depth` times. Each is found with one worker, whatever the others give.
///
/// **Errors**: want of memory alone; a search beyond the limit and a long list are answers.
pub fn region<R: Threads + Sync>(
    rt: &R,
    placed: &PlacedGate,
    params: &Params,
    grid: &Grid,
    depth: u64,
) -> Result<Vec<Tile>, Memory>
    requires { HasFarEnds grid.now }
    ensures { IfOk result (λ tiles.
        AreRegionTiles placed.now params.now grid.now depth tiles.items) }
{
    let rectangles = rectangles_of(placed.alloc(), params, grid)?;
    let all = tiles_at(rt, placed, depth, rectangles.as_slice())?;
    joined(placed.alloc(), all.as_slice())
}
