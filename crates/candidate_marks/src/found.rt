ghost use Rattle.std.specs.Prelude.{IfOk, pos};
ghost use Rattle.candidate_marks.specs.Candidates.{AreContenders};
ghost use Rattle.candidate_marks.specs.Found.{IsFound, IsWindowFound};

use crate::candidate::Candidate;
use crate::marks::entries_of;
use crate::rivals::unbeaten;
use ground_entries::{GroundList, list_of};
use potential_problem::Problem;
use sidb_units::{MAX_ENTRIES, Memory};
use std::alloc::Global;
use window_laws::laws::{marks_at_zero_are_ground_marks, window_lists_at_zero_are_ground_lists};
use window_model::{Window, window_of};

/// The window list with its marks, or None where it has more than 4,096 entries.
pub fn window_list_of(
    alloc: Global,
    problem: &Problem,
    window: &Window,
    contenders: Vec<Candidate>,
) -> Result<Option<GroundList>, Memory>
    requires { AreContenders problem.now window.now.width contenders.items }
    ensures { IfOk result (IsWindowFound problem.now window.now.width) }
{
    let list = unbeaten(alloc, problem, window, contenders)?;
    if list.len() > MAX_ENTRIES {
        return Ok(None);
    }
    let entries = entries_of(alloc, problem, window, &list)?;
    Ok(Some(list_of(entries)))
}

/// The ground list with its marks, or None where it has more than 4,096 entries.
pub fn ground_list_of(
    alloc: Global,
    problem: &Problem,
    contenders: Vec<Candidate>,
) -> Result<Option<GroundList>, Memory>
    requires { AreContenders problem.now (pos 0) contenders.items }
    ensures { IfOk result (IsFound problem.now) }
{
    window_lists_at_zero_are_ground_lists();
    marks_at_zero_are_ground_marks();
    window_list_of(alloc, problem, &window_of(0), contenders)
}
