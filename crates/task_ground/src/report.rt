// The report of a ground list.
ghost use Rattle.std.specs.Prelude.{string_bytes, IfOk};
ghost use Rattle.ground_report.specs.Subject.{AreListsOfProblem};
ghost use Rattle.task_ground.specs.GroundAnswer.{IsReport};

use command_words::Settings;
use ground_entries::GroundList;
use ground_report::About;
use potential_problem::Problem;
use sidb_units::Memory;
use sim_report::{ground_json, ground_text};
use std::alloc::Global;

/// The report of the list that the settings ask for.
pub fn report_of(
    alloc: Global,
    settings: &Settings,
    about: &About,
    problem: &Problem,
    list: &GroundList,
) -> Result<String, Memory>
    requires { AreListsOfProblem problem.now list.now }
    ensures { IfOk result (λ text. IsReport settings.now about.now problem.now list.now
        (string_bytes text)) }
{
    if settings.report.json {
        ground_json(alloc, about, problem, list, settings.report.energies)
    } else {
        ground_text(alloc, about, problem, list, settings.report.energies)
    }
}
