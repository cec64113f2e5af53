ghost use Rattle.std.specs.Prelude.{IfOk};
ghost use Rattle.ground_state.specs.Window.{IsWindowListedWithin};
ghost use Rattle.run_answer.specs.Due.{DueIs};
ghost use Rattle.task_levels.specs.OccupationAnswer.{IsOccupationAnswer};

use command_words::{LevelSettings, SearchSettings, Settings};
use energy_window::{WindowAnswer, solve_window};
use ground_entries::GroundList;
use occupation::occupation;
use potential_problem::Problem;
use run_answer::{Due, DueText, Status, budget_due, long_list_due};
use sidb_io::Gate;
use sidb_units::Memory;
use sim_report::occupation_text;
use std::alloc::Global;
use std::thread::Threads;

/// The text of the shares of the entries of the problem's window list, or why there is none.
pub fn occupation_answer<R: Threads + Sync, G: Gate>(
    rt: &R,
    alloc: Global,
    settings: &Settings,
    problem: &Problem,
    gate: &G,
) -> Result<Due, Memory>
    ensures { IfOk result (DueIs (IsOccupationAnswer settings.now problem.now)) }
{
    let SearchSettings { limit, workers, .. } = settings.search;
    let width = settings.levels.window.width;
    match solve_window(rt, alloc, problem, width, limit, workers, gate) {
        WindowAnswer::List(list) => shares_due(alloc, settings, problem, &list),
        WindowAnswer::Budget => budget_due(alloc, limit),
        WindowAnswer::ListTooLong => Ok(long_list_due()),
        WindowAnswer::Memory => Err(Memory),
    }
}

/// The text of the shares of the entries of the window list.
fn shares_due(
    alloc: Global,
    settings: &Settings,
    problem: &Problem,
    list: &GroundList,
) -> Result<Due, Memory>
    requires { IsWindowListedWithin problem.now settings.now.levels.window.width
        settings.now.search.limit list.now }
    ensures { IfOk result (DueIs (IsOccupationAnswer settings.now problem.now)) }
{
    let LevelSettings { window, kt, .. } = settings.levels;
    let shares = occupation(alloc, problem, list, kt)?;
    let text = occupation_text(alloc, problem, &window, kt, list, &shares)?;
    Ok(Due {
        status: Status::Answered,
        text: DueText::Whole(text.into_bytes()),
    })
}
