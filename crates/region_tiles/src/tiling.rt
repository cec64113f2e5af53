ghost use Rattle.std.specs.Prelude.{◌≡◌, IfOk};
ghost use Rattle.parameter_regions.specs.declared.rectangles.Rectangle.{Rectangle as RectangleData};
ghost use Rattle.bdl_pairs.specs.declared.cell.CellAnswer.{CellAnswer as AnswerData};
ghost use Rattle.region_tiles.specs.Added.{AddsTiles};
ghost use Rattle.region_tiles.specs.Refined.{IsRefined, goes_on};

use crate::areas::stays_open;
use crate::{Tile, can_be_cut, parts_of};
use bdl_pairs::CellAnswer;
use parameter_regions::Rectangle;
use sidb_units::Memory;
use std::alloc::Global;

/// What an answer to a rectangle says: a relation that the laws speak of.
pub trait Meaning {
    /// What an answer to a rectangle says.
    ghost says: { Self → RectangleData → AnswerData → Type 0 };
}

/// What a judge answers to a rectangle, and what it keeps of it for the parts of the rectangle.
#[derive(Drop)]
pub struct Judged<K> {
    pub answer: CellAnswer,
    pub kept: K,
}

/// Answers what holds on the whole of a rectangle.
pub trait Judge {
    /// What is kept of a rectangle: it may spare work on the parts, and changes no answer.
    type Kept: Drop;

    /// What a judge needs in order to judge.
    ghost can_judge: { Self → Type 0 };

    /// What an answer to a rectangle says.
    ghost says: { Self → RectangleData → AnswerData → Type 0 };

    /// The answer to a rectangle, with what was kept of the rectangle that it is a part of.
    fn judge(
        &self,
        rectangle: &Rectangle,
        whole: Option<&Self::Kept>,
    ) -> Result<Judged<Self::Kept>, Memory>
        requires { can_judge self.now }
        ensures { IfOk result (λ judged. says self.now rectangle.now judged.answer) };
}

/// The tiles of a rectangle: where the answer to it stays open, and it can be cut, those of its parts,
/// cut at most `depth` times; else it alone with its answer. The judge is asked for each part, with
/// what it kept of the whole.
///
/// **Errors**: those of the judge, and want of memory.
pub fn tiles_of<J: Judge>(
    alloc: Global,
    judge: &J,
    rectangle: &Rectangle,
    depth: u64,
) -> Result<Vec<Tile>, Memory>
    requires { J.can_judge judge.now }
    ensures { IfOk result (λ tiles. IsRefined (J.says judge.now) depth rectangle.now tiles.items) }
{
    let mut tiles = Vec::new(alloc);
    let nothing: Option<J::Kept> = None;
    add_tiles(alloc, judge, rectangle, nothing.as_ref(), depth, &mut tiles)?;
    Ok(tiles)
}

/// Puts the tiles of a rectangle behind those that are there.
fn add_tiles<J: Judge>(
    alloc: Global,
    judge: &J,
    rectangle: &Rectangle,
    whole: Option<&J::Kept>,
    depth: u64,
    tiles: &mut Vec<Tile>,
) -> Result<(), Memory>
    requires { J.can_judge judge.now }
    ensures { IfOk result (λ _. AddsTiles (IsRefined (J.says judge.now) depth rectangle.now)
        tiles.old.items tiles.new.items) }
{
    let judged = judge.judge(rectangle, whole)?;
    let answer = judged.answer;
    if depth == 0 || !goes_on(rectangle, answer) {
        tiles.push(Tile {
            rectangle: *rectangle,
            answer,
        })?;
        return Ok(());
    }
    let parts = parts_of(alloc, rectangle)?;
    for k in 0..parts.len() {
        add_tiles(
            alloc,
            judge,
            &parts[k],
            Some(&judged.kept),
            depth - 1,
            tiles,
        )?;
    }
    Ok(())
}

/// Whether a rectangle with this answer goes on to its parts.
fn goes_on(rectangle: &Rectangle, answer: CellAnswer) -> bool
    ensures { result ≡ goes_on rectangle.now answer }
{
    stays_open(answer) && can_be_cut(rectangle)
}
