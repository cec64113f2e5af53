ghost use Rattle.std.specs.Prelude.{IfOk};
ghost use Rattle.ground_state.specs.Answer.{IsSolution};
ghost use Rattle.run_answer.specs.Due.{DueIs};
ghost use Rattle.task_gen.specs.GenAnswer.{IsGenAnswer, IsGenProblem};

use crate::generated_problem;
use command_words::{SearchSettings, Settings};
use gate_report::gen_text;
use ground_entries::Solved;
use ground_state::{SolveAnswer, solve};
use potential_problem::Problem;
use run_answer::{Due, DueText, Status, budget_due, long_list_due};
use sidb_io::Gate;
use sidb_units::Memory;
use std::alloc::Global;
use std::thread::Threads;

/// The summary of the layout that the number of the settings generates, or why there is none.
pub fn gen_answer<R: Threads + Sync, G: Gate>(
    rt: &R,
    alloc: Global,
    settings: &Settings,
    gate: &G,
) -> Result<Due, Memory>
    ensures { IfOk result (DueIs (IsGenAnswer settings.now)) }
{
    let SearchSettings { limit, workers, .. } = settings.search;
    let problem = generated_problem(alloc, settings)?;
    match solve(rt, alloc, &problem, limit, workers, gate) {
        SolveAnswer::List(solved) => summary_due(alloc, settings, &problem, &solved),
        SolveAnswer::Budget => budget_due(alloc, limit),
        SolveAnswer::ListTooLong => Ok(long_list_due()),
        SolveAnswer::Memory => Err(Memory),
    }
}

/// The summary of a solution.
fn summary_due(
    alloc: Global,
    settings: &Settings,
    problem: &Problem,
    solved: &Solved,
) -> Result<Due, Memory>
    requires generated { IsGenProblem settings.now problem.now }
    requires solution { IsSolution problem.now settings.now.search.limit solved.now }
    ensures { IfOk result (DueIs (IsGenAnswer settings.now)) }
{
    let _few = solved.list.len();
    let number = settings.generated.number;
    let sites = settings.generated.sites as usize;
    let text = gen_text(alloc, number, sites, solved)?;
    Ok(Due {
        status: Status::Answered,
        text: DueText::Whole(text.into_bytes()),
    })
}
