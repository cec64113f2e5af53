//! What the tiles of a rectangle, and those of a grid, say of it; and that there is one list of them.
ghost use Rattle.std.specs.Prelude.{◌≡◌, ◌^◌, ◌<◌, ℕ, List, flat_map};
ghost use Rattle.std.specs.List.{AllZip};
ghost use Rattle.model_params.specs.declared.params.Params.{Params};
ghost use Rattle.gate_model.specs.Grids.{AreAxes, Axes, HasFarEnds};
ghost use Rattle.bdl_pairs.specs.declared.cell.CellAnswer.{CellAnswer};
ghost use Rattle.parameter_regions.specs.declared.rectangles.Rectangle.{Rectangle};
ghost use Rattle.parameter_regions.specs.Points.{Point};
ghost use Rattle.parameter_regions.specs.Rectangles.{IsInRectangle};
ghost use Rattle.region_tiles.specs.declared.tiles.Tile.{Tile};
ghost use Rattle.region_tiles.specs.Rectangles.{AreGridRectangles, AreParts, IsGridWhole};
ghost use Rattle.region_tiles.specs.Tiles.{AreJudgedTiles, AreTiles, IsPartOfRectangle};
ghost use Rattle.region_tiles.specs.Refined.{AreGridTiles, IsRefined};
ghost use Rattle.region_tiles.specs.Areas.{whole_area};

use crate::Meaning;

/// The point of a part is a point of the whole.
pub fn points_of_parts_are_points_of_the_whole()
    ensures { (whole part : Rectangle) (point : Point) → IsPartOfRectangle whole part
        → IsInRectangle part point
        → IsInRectangle whole point }
{}

/// The tiles of the tiles of a rectangle are tiles of it.
pub fn tiles_of_tiles_are_tiles()
    ensures { (whole : Rectangle) (rectangles : List Rectangle) (tiles : List (List Rectangle))
        → AreTiles whole rectangles → AllZip AreTiles rectangles tiles
        → AreTiles whole (flat_map (λ ts. ts) tiles) }
{}

/// The parts of a rectangle tile it, and the rectangles of a grid tile the whole of it.
pub fn parts_are_tiles()
    ensures parts { (r : Rectangle) (parts : List Rectangle) → AreParts r parts
        → AreTiles r parts }
    ensures grid { (p : Params) (a : Axes) (whole : Rectangle) (rectangles : List Rectangle)
        → AreAxes a → IsGridWhole p a whole → AreGridRectangles p a rectangles
        → AreTiles whole rectangles }
{}

/// The tiles of a rectangle, and those of a grid, tile it, and the answer of each holds.
pub fn refinements_are_tiles<J: Meaning>()
    ensures rectangle { (j : J) (depth : ℕ) (r : Rectangle)
        (tiles : List Tile) → IsRefined (J.says j) depth r tiles → AreJudgedTiles (J.says j) r tiles }
    ensures grid { (j : J) (p : Params) (a : Axes) (depth : ℕ)
        (whole : Rectangle) (tiles : List Tile) → AreAxes a → IsGridWhole p a whole
        → AreGridTiles (J.says j) p a depth tiles → AreJudgedTiles (J.says j) whole tiles }
{}

/// A grid whose far ends are in range has a whole rectangle, and the areas of its tiles fit a u64.
pub fn each_grid_is_a_rectangle<J: Meaning>()
    ensures whole { (p : Params) (a : Axes) → AreAxes a → HasFarEnds a
        → (whole : Rectangle) × IsGridWhole p a whole }
    ensures small { (j : J) (p : Params) (a : Axes) (depth : ℕ)
        (tiles : List Tile) → AreAxes a → HasFarEnds a → AreGridTiles (J.says j) p a depth tiles
        → whole_area tiles < 2 ^ 64 }
{}

/// Where a rectangle has at most one answer, it has at most one list of tiles, and so has a grid.
pub fn one_refinement<J: Meaning>()
    ensures rectangle { (j : J)
        → ((r : Rectangle) (a b : CellAnswer) → J.says j r a → J.says j r b → a ≡ b)
        → (depth : ℕ) (r : Rectangle) (xs ys : List Tile)
        → IsRefined (J.says j) depth r xs → IsRefined (J.says j) depth r ys → xs ≡ ys }
    ensures grid { (j : J)
        → ((r : Rectangle) (a b : CellAnswer) → J.says j r a → J.says j r b → a ≡ b)
        → (p : Params) (a : Axes) (depth : ℕ) (xs ys : List Tile)
        → AreGridTiles (J.says j) p a depth xs → AreGridTiles (J.says j) p a depth ys → xs ≡ ys }
{}

/// Where each rectangle has an answer, each has its tiles, and so has each grid whose far ends are in
/// range.
pub fn some_refinement<J: Meaning>()
    ensures rectangle { (j : J)
        → ((r : Rectangle) → (a : CellAnswer) × J.says j r a)
        → (depth : ℕ) (r : Rectangle) → (tiles : List Tile) × IsRefined (J.says j) depth r tiles }
    ensures grid { (j : J)
        → ((r : Rectangle) → (a : CellAnswer) × J.says j r a)
        → (p : Params) (a : Axes) (depth : ℕ) → AreAxes a → HasFarEnds a
        → (tiles : List Tile) × AreGridTiles (J.says j) p a depth tiles }
{}
