ghost use Rattle.std.specs.Prelude.{◌≢◌, ◌≤◌, None, IfOk};
ghost use Rattle.level_range.specs.Answer.{AreListed};
ghost use Rattle.sidb_units.specs.declared.TheConstants.{MAX_NODES};
ghost use Rattle.run_answer.specs.Due.{DueIs};
ghost use Rattle.task_levels.specs.RangeAnswer.{IsAnswerWithin, IsRangeAnswer, levels_between};

use command_words::{DepthRange, SearchSettings, Settings};
use level_range::{Parts, RangeAnswer, level_range};
use potential_problem::Problem;
use range_report::range_text;
use run_answer::{Due, DueText, Status, budget_due, long_list_due};
use sidb_units::Memory;
use std::alloc::Global;

/// The text of the printed parts of the levels that the settings ask for, or why there is none. The
/// problem's own upper level does not count, but how far the lower one lies below it.
pub fn range_due(alloc: Global, settings: &Settings, problem: &Problem) -> Result<Due, Memory>
    requires range { settings.now.levels.range ≢ None }
    ensures { IfOk result (DueIs (IsRangeAnswer settings.now problem.now)) }
{
    let SearchSettings { limit, .. } = settings.search;
    match settings.levels.range {
        Some(range) => due_between(alloc, range, limit, problem),
        None => unreachable!(),
    }
}

/// The same of a range of depths.
fn due_between(
    alloc: Global,
    range: DepthRange,
    limit: u64,
    problem: &Problem,
) -> Result<Due, Memory>
    requires limit { (1 ≤ limit) × (limit ≤ MAX_NODES) }
    ensures { IfOk result (DueIs (IsAnswerWithin problem.now (levels_between range) limit)) }
{
    match level_range(alloc, problem, -range.to, -range.from, limit) {
        RangeAnswer::List(parts) => parts_due(alloc, problem, range, limit, &parts),
        RangeAnswer::Budget => budget_due(alloc, limit),
        RangeAnswer::ListTooLong => Ok(long_list_due()),
        RangeAnswer::Memory => Err(Memory),
    }
}

/// The text of the printed parts.
fn parts_due(
    alloc: Global,
    problem: &Problem,
    _range: DepthRange,
    _limit: u64,
    parts: &Parts,
) -> Result<Due, Memory>
    requires { AreListed problem.now (levels_between _range) _limit parts.now }
    ensures { IfOk result (DueIs (IsAnswerWithin problem.now (levels_between _range) _limit)) }
{
    let text = range_text(alloc, problem.sites(), parts)?;
    Ok(Due {
        status: Status::Answered,
        text: DueText::Whole(text.into_bytes()),
    })
}
