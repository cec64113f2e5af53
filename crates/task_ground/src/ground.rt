ghost use Rattle.std.specs.Prelude.{IfOk};
ghost use Rattle.charge_model.specs.GroundList.{IsMarkedGroundList};
ghost use Rattle.ground_state.specs.Answer.{IsWithinLimit};
ghost use Rattle.run_answer.specs.Due.{DueIs};
ghost use Rattle.task_ground.specs.GroundAnswer.{IsGroundAnswer};

use crate::report::report_of;
use command_words::{SearchSettings, Settings};
use ground_entries::GroundList;
use ground_report::About;
use ground_state::{SolveAnswer, solve};
use potential_problem::Problem;
use run_answer::{Due, DueText, Status, budget_due, long_list_due};
use sidb_io::Gate;
use sidb_units::Memory;
use std::alloc::Global;
use std::thread::Threads;

/// The report of the ground list of the problem, or why there is none.
pub fn ground_answer<R: Threads + Sync, G: Gate>(
    rt: &R,
    alloc: Global,
    settings: &Settings,
    about: &About,
    problem: &Problem,
    gate: &G,
) -> Result<Due, Memory>
    ensures { IfOk result (DueIs (IsGroundAnswer settings.now about.now problem.now)) }
{
    let SearchSettings { limit, workers, .. } = settings.search;
    match solve(rt, alloc, problem, limit, workers, gate) {
        SolveAnswer::List(solved) => list_due(alloc, settings, about, problem, &solved.list),
        SolveAnswer::Budget => budget_due(alloc, limit),
        SolveAnswer::ListTooLong => Ok(long_list_due()),
        SolveAnswer::Memory => Err(Memory),
    }
}

/// The report of the ground list.
fn list_due(
    alloc: Global,
    settings: &Settings,
    about: &About,
    problem: &Problem,
    list: &GroundList,
) -> Result<Due, Memory>
    requires budget { IsWithinLimit problem.now settings.now.search.limit }
    requires list { IsMarkedGroundList problem.now list.now }
    ensures { IfOk result (DueIs (IsGroundAnswer settings.now about.now problem.now)) }
{
    let _few = list.len();
    let text = report_of(alloc, settings, about, problem, list)?;
    Ok(Due {
        status: Status::Answered,
        text: DueText::Whole(text.into_bytes()),
    })
}
