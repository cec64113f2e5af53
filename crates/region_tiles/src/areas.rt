ghost use Rattle.std.specs.Prelude.{◌≡◌, ◌+◌, ◌^◌, ◌<◌, ◌≤◌};
ghost use Rattle.region_tiles.specs.Areas.{area_where, fails, failing_area, open_area, stays_open, whole_area, working_area, works};

use crate::Tile;
use crate::cutting::area;
use bdl_pairs::CellAnswer;

/// The areas of the tiles that work, that fail and that stay open, in units of 10^-4 times 10^-4 nm.
#[derive(Clone, Copy, PartialEq, Eq, Debug)]
pub struct Areas {
    pub works: u64,
    pub fails: u64,
    pub stays_open: u64,
}

/// The areas of tiles by their answers.
#[tactic(auto, using(crate::proofs::AreaLemmas::areas_add))]
pub fn areas_of(tiles: &[Tile]) -> Areas
    requires { whole_area tiles.now < 2 ^ 64 }
    ensures works { result.works ≡ working_area tiles.now }
    ensures fails { result.fails ≡ failing_area tiles.now }
    ensures stays_open { result.stays_open ≡ open_area tiles.now }
    ensures whole { result.works + result.fails + result.stays_open ≡ whole_area tiles.now }
{
    Areas {
        works: working_area(tiles),
        fails: failing_area(tiles),
        stays_open: open_area(tiles),
    }
}

/// Whether each pattern works.
fn works(answer: CellAnswer) -> bool
    ensures { result ≡ works answer }
{
    match answer {
        CellAnswer::Works => true,
        CellAnswer::Fails(_) => false,
        CellAnswer::Undecided(_) => false,
        CellAnswer::Budget(_) => false,
        CellAnswer::Long(_) => false,
    }
}

/// Whether a pattern fails.
fn fails(answer: CellAnswer) -> bool
    ensures { result ≡ fails answer }
{
    match answer {
        CellAnswer::Works => false,
        CellAnswer::Fails(_) => true,
        CellAnswer::Undecided(_) => false,
        CellAnswer::Budget(_) => false,
        CellAnswer::Long(_) => false,
    }
}

/// Whether neither is known.
pub(crate) fn stays_open(answer: CellAnswer) -> bool
    ensures { result ≡ stays_open answer }
{
    match answer {
        CellAnswer::Works => false,
        CellAnswer::Fails(_) => false,
        CellAnswer::Undecided(_) => true,
        CellAnswer::Budget(_) => true,
        CellAnswer::Long(_) => true,
    }
}

/// The area of the tiles that work.
fn working_area(tiles: &[Tile]) -> u64
    requires { working_area tiles.now < 2 ^ 64 }
    ensures { result ≡ working_area tiles.now }
{
    tiles.iter().map(|tile| where_works(tile)).sum()
}

/// The area of the tiles that fail.
fn failing_area(tiles: &[Tile]) -> u64
    requires { failing_area tiles.now < 2 ^ 64 }
    ensures { result ≡ failing_area tiles.now }
{
    tiles.iter().map(|tile| where_fails(tile)).sum()
}

/// The area of the tiles that stay open.
fn open_area(tiles: &[Tile]) -> u64
    requires { open_area tiles.now < 2 ^ 64 }
    ensures { result ≡ open_area tiles.now }
{
    tiles.iter().map(|tile| where_open(tile)).sum()
}

/// The area of a tile that works, and else 0.
fn where_works(tile: &Tile) -> u64
    ensures { result ≡ area_where works tile.now }
{
    if works(tile.answer) {
        area(&tile.rectangle)
    } else {
        0
    }
}

/// The area of a tile that fails, and else 0.
fn where_fails(tile: &Tile) -> u64
    ensures { result ≡ area_where fails tile.now }
{
    if fails(tile.answer) {
        area(&tile.rectangle)
    } else {
        0
    }
}

/// The area of a tile that stays open, and else 0.
fn where_open(tile: &Tile) -> u64
    ensures { result ≡ area_where stays_open tile.now }
{
    if stays_open(tile.answer) {
        area(&tile.rectangle)
    } else {
        0
    }
}
