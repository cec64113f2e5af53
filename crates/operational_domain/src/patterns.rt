ghost use Rattle.std.specs.Prelude.{◌≡◌, ◌≤◌, ◌<◌, All, length};
ghost use Rattle.charge_model.specs.GroundList.{IsMarkedGroundList};
ghost use Rattle.sidb_units.specs.declared.TheConstants.{MAX_NODES, MAX_WORKERS};
ghost use Rattle.gate_model.specs.Logic.{pattern_count};
ghost use Rattle.bdl_pairs.specs.Remaining.{IsPairOn};
ghost use Rattle.bdl_pairs.specs.Verdict.{IsVerdict};
ghost use Rattle.ground_state.specs.Answer.{IsSolved};
ghost use Rattle.operational_domain.specs.Patterns.{IsPatternSolved, IsShapedSolved};
ghost use Rattle.operational_domain.specs.Placed.{setting_at};

use crate::PlacedGate;
use bdl_pairs::{PatternAnswer, Shaped, verdict};
use ground_entries::GroundList;
use ground_state::{SolveAnswer, solve};
use potential_problem::Problem;
use screened_coulomb::{Params, problem};
use sidb_io::Gate;
use sidb_units::MAX_WORKERS;
use std::thread::Threads;

/// What solving a pattern answers.
#[derive(Drop)]
pub enum PatternSolved {
    Answer(PatternAnswer),
    /// The search needs more nodes than the limit.
    Budget,
    /// The ground list has more than 4,096 entries.
    ListTooLong,
    /// Memory did not suffice.
    Memory,
}

/// The answer to a pattern by the ground list of its problem.
#[tactic(auto, using(crate::proofs::Within::entries_within))]
pub fn judged(shaped: &Shaped, problem: &Problem, wanted: bool, list: GroundList) -> PatternAnswer
    requires outputs { All (IsPairOn shaped.now.layout.sites) shaped.now.outputs }
    requires sites { problem.now.sites ≡ length shaped.now.layout.sites }
    requires list { IsMarkedGroundList problem.now list }
    ensures wanted { result.wanted ≡ wanted }
    ensures list { result.list ≡ list }
    ensures verdict { IsVerdict shaped.now.outputs wanted list result.verdict }
{
    let verdict = verdict(&list, shaped.outputs(), wanted);
    PatternAnswer {
        wanted,
        verdict,
        list,
    }
}

/// The answer to what a pattern leaves, by what solving its problem answers.
pub fn solved_by(
    shaped: &Shaped,
    problem: &Problem,
    wanted: bool,
    limit: u64,
    answer: SolveAnswer,
) -> PatternSolved
    requires outputs { All (IsPairOn shaped.now.layout.sites) shaped.now.outputs }
    requires sites { problem.now.sites ≡ length shaped.now.layout.sites }
    requires solved { IsSolved problem.now limit answer }
    ensures solved { IsShapedSolved shaped.now problem.now wanted limit result }
    ensures memory { result ≡ PatternSolved.Memory → answer ≡ SolveAnswer.Memory }
{
    match answer {
        SolveAnswer::List(solved) => {
            PatternSolved::Answer(judged(shaped, problem, wanted, solved.list))
        }
        SolveAnswer::Budget => PatternSolved::Budget,
        SolveAnswer::ListTooLong => PatternSolved::ListTooLong,
        SolveAnswer::Memory => PatternSolved::Memory,
    }
}

/// The answer to one pattern of a gate.
pub fn solve_pattern<R: Threads + Sync, G: Gate>(
    rt: &R,
    placed: &PlacedGate,
    params: &Params,
    workers: u64,
    gate: &G,
    pattern: u64,
) -> PatternSolved
    requires workers { (1 ≤ workers) × (workers ≤ MAX_WORKERS) }
    requires pattern { pattern < pattern_count placed.now.gate }
    ensures { IsPatternSolved (setting_at placed.now params.now) pattern result }
{
    let _few = placed.patterns();
    let shaped = placed.shape(pattern);
    let Ok(problem) = problem(placed.alloc(), shaped.layout(), params) else {
        return PatternSolved::Memory;
    };
    let wanted = placed.wanted(pattern);
    let limit = placed.limit();
    let answer = solve(rt, placed.alloc(), &problem, limit, workers, gate);
    solved_by(shaped, &problem, wanted, limit, answer)
}
