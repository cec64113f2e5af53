//! What tiles promise at each point, and that each region has one list of them.
ghost use Rattle.std.specs.Prelude.{◌≡◌, ℕ, List};
ghost use Rattle.sidb_layout.specs.Layout.{IsLayout};
ghost use Rattle.model_params.specs.declared.params.Params.{Params};
ghost use Rattle.gate_model.specs.Logic.{IsLogic};
ghost use Rattle.gate_model.specs.Grids.{AreAxes, Axes, HasFarEnds};
ghost use Rattle.bdl_pairs.specs.Remaining.{IsOn};
ghost use Rattle.bdl_pairs.specs.declared.cell.CellAnswer.{CellAnswer};
ghost use Rattle.operational_domain.specs.Placed.{Placed};
ghost use Rattle.parameter_regions.specs.declared.rectangles.Rectangle.{Rectangle};
ghost use Rattle.parameter_regions.specs.Points.{Point};
ghost use Rattle.parameter_regions.specs.Rectangles.{IsInRectangle};
ghost use Rattle.region_tiles.specs.declared.tiles.Tile.{Tile};
ghost use Rattle.region_tiles.specs.Rectangles.{IsGridWhole};
ghost use Rattle.region_domain.specs.Tiles.{IsTileAnswer};
ghost use Rattle.region_domain.specs.Promises.{TellsEverywhere};
ghost use Rattle.region_domain.specs.Region.{AreRegionTiles, IsToldBy};

use crate::GateMeaning;
use bdl_pairs::laws::{
    entries_have_a_verdict, entries_have_one_verdict, failing_patterns_miss_the_bit,
    working_patterns_have_ground_states, working_patterns_read_the_bit,
};
use ground_state::laws::one_answer;
use marked_list_laws::laws::each_problem_has_a_marked_list;
use operational_domain::laws::{each_pattern_leaves_a_layout, one_remaining};
use parameter_regions::laws::{
    each_layout_has_a_region_problem, one_region_problem, tables_at_points_are_tables,
};
use region_tiles::laws::{one_refinement, refinements_are_tiles, some_refinement};

/// Where a gate works on a rectangle, at every point of it, under every table of the potentials
/// there, each pattern has a ground state, and each reads the wanted bits. Where it fails, the named
/// pattern has a ground state there that does not.
pub fn answers_tell_of_every_point()
    ensures { (placed : Placed) (r : Rectangle) (answer : CellAnswer)
        → IsTileAnswer placed r answer → TellsEverywhere placed r answer }
{
    tables_at_points_are_tables();
    working_patterns_have_ground_states();
    working_patterns_read_the_bit();
    failing_patterns_miss_the_bit();
}

/// A gate on a layout does one thing on a rectangle.
pub fn one_tile_answer()
    ensures { (placed : Placed) (r : Rectangle) (a b : CellAnswer) → IsLayout placed.whole
        → IsTileAnswer placed r a → IsTileAnswer placed r b → a ≡ b }
{
    one_remaining();
    one_region_problem();
    one_answer();
    entries_have_one_verdict();
}

/// Each gate on a layout does something on each rectangle.
pub fn some_tile_answer()
    ensures { (placed : Placed) (r : Rectangle) → IsLayout placed.whole → IsLogic placed.gate
        → IsOn placed.gate placed.whole.sites → (a : CellAnswer) × IsTileAnswer placed r a }
{
    each_pattern_leaves_a_layout();
    each_layout_has_a_region_problem();
    one_answer();
    each_problem_has_a_marked_list();
    entries_have_a_verdict();
}

/// A gate on a layout has one list of tiles over a grid.
pub fn one_region()
    ensures { (placed : Placed) (p : Params) (a : Axes) (depth : ℕ) (xs ys : List Tile)
        → IsLayout placed.whole → AreRegionTiles placed p a depth xs
        → AreRegionTiles placed p a depth ys → xs ≡ ys }
{
    one_tile_answer();
    one_refinement::<GateMeaning>();
}

/// Each gate on a layout has tiles over each grid whose far ends are in range.
pub fn some_region()
    ensures { (placed : Placed) (p : Params) (a : Axes) (depth : ℕ) → IsLayout placed.whole
        → IsLogic placed.gate → IsOn placed.gate placed.whole.sites → AreAxes a → HasFarEnds a
        → (tiles : List Tile) × AreRegionTiles placed p a depth tiles }
{
    some_tile_answer();
    some_refinement::<GateMeaning>();
}

/// Each point of the whole of a grid lies in a tile, whose answer tells what the gate does there.
pub fn each_point_is_told()
    ensures { (placed : Placed) (p : Params) (a : Axes) (depth : ℕ) (whole : Rectangle)
        (tiles : List Tile) → AreAxes a → IsGridWhole p a whole
        → AreRegionTiles placed p a depth tiles
        → (point : Point) → IsInRectangle whole point → IsToldBy placed tiles point }
{
    refinements_are_tiles::<GateMeaning>();
    answers_tell_of_every_point();
}
