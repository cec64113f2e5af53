ghost use Rattle.std.specs.Prelude.{IfOk};
ghost use Rattle.ground_state.specs.Window.{IsWindowListedWithin};
ghost use Rattle.run_answer.specs.Due.{DueIs};
ghost use Rattle.task_levels.specs.WindowAnswer.{IsWindowListAnswer};

use command_words::{SearchSettings, Settings};
use energy_window::{WindowAnswer, solve_window};
use ground_entries::GroundList;
use ground_report::About;
use potential_problem::Problem;
use run_answer::{Due, DueText, Status, budget_due, long_list_due};
use sidb_io::Gate;
use sidb_units::Memory;
use sim_report::window_text;
use std::alloc::Global;
use std::thread::Threads;

/// The text of the window list of the problem, or why there is none.
pub fn window_answer<R: Threads + Sync, G: Gate>(
    rt: &R,
    alloc: Global,
    settings: &Settings,
    about: &About,
    problem: &Problem,
    gate: &G,
) -> Result<Due, Memory>
    ensures { IfOk result (DueIs (IsWindowListAnswer settings.now about.now problem.now)) }
{
    let SearchSettings { limit, workers, .. } = settings.search;
    let width = settings.levels.window.width;
    match solve_window(rt, alloc, problem, width, limit, workers, gate) {
        WindowAnswer::List(list) => list_due(alloc, settings, about, problem, &list),
        WindowAnswer::Budget => budget_due(alloc, limit),
        WindowAnswer::ListTooLong => Ok(long_list_due()),
        WindowAnswer::Memory => Err(Memory),
    }
}

/// The text of the window list.
fn list_due(
    alloc: Global,
    settings: &Settings,
    about: &About,
    problem: &Problem,
    list: &GroundList,
) -> Result<Due, Memory>
    requires { IsWindowListedWithin problem.now settings.now.levels.window.width
        settings.now.search.limit list.now }
    ensures { IfOk result (DueIs (IsWindowListAnswer settings.now about.now problem.now)) }
{
    let window = settings.levels.window;
    let energies = settings.report.energies;
    let text = window_text(alloc, about, problem, &window, list, energies)?;
    Ok(Due {
        status: Status::Answered,
        text: DueText::Whole(text.into_bytes()),
    })
}
