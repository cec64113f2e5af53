ghost use Rattle.std.specs.Prelude.{◌≡◌, ◌<◌, ℕ, All, IfOk, IfSome, length};
ghost use Rattle.gate_model.specs.Logic.{pattern_count};
ghost use Rattle.ground_state.specs.Answer.{IsListedWithin};
ghost use Rattle.bdl_pairs.specs.Remaining.{IsPairOn};
ghost use Rattle.operational_domain.specs.Patterns.{IsShapedSolved};
ghost use Rattle.operational_domain.specs.Placed.{Placed};
ghost use Rattle.parameter_regions.specs.declared.rectangles.Rectangle.{Rectangle as RectangleData};
ghost use Rattle.region_domain.specs.Patterns.{IfPatternListed, IsTileFound, IsTileSolved};

use bdl_pairs::{PatternVerdict, Shaped};
use ground_state::solve;
use narrower_lists::{GroundList, SolvedProblem, list_out_of, solved_problem_of};
use operational_domain::{PatternSolved, PlacedGate, judged, solved_by};
use parameter_regions::{Rectangle, region_problem};
use potential_problem::Problem;
use sidb_io::NoGate;
use sidb_units::Memory;
use std::alloc::Global;
use std::thread::Threads;

/// What is found of a pattern on a rectangle.
#[derive(Drop)]
pub enum PatternFound {
    /// Its verdict, by its problem with the ground list.
    Verdict(PatternVerdict, SolvedProblem),
    /// The search needs more nodes than the limit.
    Budget,
    /// The ground list has more than 4,096 entries.
    ListTooLong,
    /// Memory did not suffice.
    Memory,
}

/// The ground list of a problem out of that of the whole, if the whole's holds it.
fn list_within(
    alloc: Global,
    whole: Option<&SolvedProblem>,
    problem: &Problem,
    limit: u64,
) -> Result<Option<GroundList>, Memory>
    ensures { IfOk result (λ o. IfSome o (IsListedWithin problem.now limit)) }
{
    match whole {
        None => Ok(None),
        Some(whole) => list_out_of(alloc, whole, problem, limit),
    }
}

/// The answer to what a pattern leaves: by the list of the whole where that holds the list of this
/// problem, and else by a search with one worker.
fn solve_shaped<R: Threads + Sync>(
    rt: &R,
    placed: &PlacedGate,
    shaped: &Shaped,
    problem: &Problem,
    wanted: bool,
    whole: Option<&SolvedProblem>,
) -> PatternSolved
    requires outputs { All (IsPairOn shaped.now.layout.sites) shaped.now.outputs }
    requires sites { problem.now.sites ≡ length shaped.now.layout.sites }
    ensures { IsShapedSolved shaped.now problem.now wanted placed.now.limit result }
{
    let alloc = placed.alloc();
    let limit = placed.limit();
    match list_within(alloc, whole, problem, limit) {
        Ok(Some(list)) => PatternSolved::Answer(judged(shaped, problem, wanted, list)),
        Ok(None) => {
            let answer = solve(rt, alloc, problem, limit, 1, &NoGate);
            solved_by(shaped, problem, wanted, limit, answer)
        }
        Err(_) => PatternSolved::Memory,
    }
}

/// What is found of a pattern, by what solving its problem answers.
fn found_by(problem: Problem, limit: u64, solved: PatternSolved) -> PatternFound
    requires listed { IfPatternListed solved (IsListedWithin problem limit) }
    ensures found { (placed : Placed) (r : RectangleData) (k : ℕ)
        → IsTileSolved placed r k solved → IsTileFound placed r k result }
    ensures memory { result ≡ PatternFound.Memory → solved ≡ PatternSolved.Memory }
{
    match solved {
        PatternSolved::Answer(answer) => {
            let solved = solved_problem_of(problem, limit, answer.list);
            PatternFound::Verdict(answer.verdict, solved)
        }
        PatternSolved::Budget => PatternFound::Budget,
        PatternSolved::ListTooLong => PatternFound::ListTooLong,
        PatternSolved::Memory => PatternFound::Memory,
    }
}

/// What is found of a pattern of a gate on a rectangle, by one worker, where this is kept of the
/// pattern on a rectangle that may be greater.
pub fn found_on<R: Threads + Sync>(
    rt: &R,
    placed: &PlacedGate,
    rectangle: &Rectangle,
    pattern: u64,
    whole: Option<&SolvedProblem>,
) -> PatternFound
    requires { pattern < pattern_count placed.now.gate }
    ensures { IsTileFound placed.now rectangle.now pattern result }
{
    let _few = placed.patterns();
    let shaped = placed.shape(pattern);
    let Ok(problem) = region_problem(placed.alloc(), shaped.layout(), rectangle) else {
        return PatternFound::Memory;
    };
    let wanted = placed.wanted(pattern);
    let solved = solve_shaped(rt, placed, shaped, &problem, wanted, whole);
    found_by(problem, placed.limit(), solved)
}
