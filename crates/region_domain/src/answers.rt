ghost use Rattle.std.specs.Prelude.{◌≡◌, ◌++◌, IfOk, IsErr, OnOk};
ghost use Rattle.operational_domain.specs.Placed.{Placed};
ghost use Rattle.parameter_regions.specs.declared.rectangles.Rectangle.{Rectangle as RectangleData};
ghost use Rattle.region_domain.specs.Patterns.{IsTileFound, problems_of};
ghost use Rattle.region_domain.specs.Tiles.{IsTileAnswer, IsTileOutcome};

use crate::patterns::{PatternFound, found_on};
use bdl_pairs::{CellAnswer, PatternVerdict};
use narrower_lists::SolvedProblem;
use operational_domain::PlacedGate;
use parameter_regions::Rectangle;
use region_tiles::Judged;
use sidb_units::Memory;
use std::thread::Threads;

/// Why a pattern does not work, or None where it works.
fn outcome(found: &PatternFound, pattern: u64) -> Result<Option<CellAnswer>, Memory>
    ensures outcome { (placed : Placed) (r : RectangleData)
        → IsTileFound placed r pattern found.now → IfOk result (IsTileOutcome placed r pattern) }
    ensures memory { IsErr result → found.now ≡ PatternFound.Memory }
{
    match found {
        PatternFound::Memory => Err(Memory),
        PatternFound::Budget => Ok(Some(CellAnswer::Budget(pattern))),
        PatternFound::ListTooLong => Ok(Some(CellAnswer::Long(pattern))),
        PatternFound::Verdict(verdict, _) => match *verdict {
            PatternVerdict::Works => Ok(None),
            PatternVerdict::Fails => Ok(Some(CellAnswer::Fails(pattern))),
            PatternVerdict::Undecided => Ok(Some(CellAnswer::Undecided(pattern))),
        },
    }
}

/// Puts the solved problem of a pattern, if there is one, behind those of the patterns before.
fn keep(kept: &mut Vec<SolvedProblem>, found: PatternFound) -> Result<(), Memory>
    ensures { OnOk result (kept.new.items ≡ kept.old.items ++ problems_of found) }
{
    match found {
        PatternFound::Verdict(_, solved) => kept.push(solved)?,
        PatternFound::Budget => {}
        PatternFound::ListTooLong => {}
        PatternFound::Memory => {}
    }
    Ok(())
}

/// What is kept of a pattern on the whole, if something is.
fn kept_of(whole: Option<&Vec<SolvedProblem>>, pattern: u64) -> Option<&SolvedProblem> {
    match whole {
        None => None,
        Some(kept) => kept.as_slice().get(pattern as usize),
    }
}

/// What a gate does on a rectangle, by one worker, with the solved problems of its first patterns:
/// each that works, and the next where it has a list. Those of a rectangle that holds this one spare
/// searches, and change no answer.
///
/// **Errors**: want of memory alone; a search beyond the limit and a long list are answers.
#[tactic(auto, using(crate::proofs::FirstReason::none_works_yet))]
pub fn tile_answer<R: Threads + Sync>(
    rt: &R,
    placed: &PlacedGate,
    rectangle: &Rectangle,
    whole: Option<&Vec<SolvedProblem>>,
) -> Result<Judged<Vec<SolvedProblem>>, Memory>
    ensures { IfOk result (λ judged. IsTileAnswer placed.now rectangle.now judged.answer) }
{
    let mut kept = Vec::new(placed.alloc());
    for k in 0..placed.patterns() {
        let found = found_on(rt, placed, rectangle, k, kept_of(whole, k));
        let reason = outcome(&found, k)?;
        keep(&mut kept, found)?;
        match reason {
            Some(answer) => return Ok(Judged { answer, kept }),
            None => {}
        }
    }
    let answer = CellAnswer::Works;
    Ok(Judged { answer, kept })
}
