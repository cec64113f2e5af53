ghost use Rattle.std.specs.Prelude.{ℤ, IfOk, IfSome};
ghost use Rattle.charge_model.specs.GroundList.{ListsEachLeast, lists_of};
ghost use Rattle.candidate_marks.specs.Candidates.{AreContenders};
ghost use Rattle.window_model.specs.Windows.{IsWindow};
ghost use Rattle.candidate_marks.specs.Found.{IsFound, IsWindowFound, CertainAreGround, UnresolvedFail};

use crate::examining::candidates;
use candidate_marks::{Candidate, ground_list_of, window_list_of};
use charge_validity::has_table;
use ground_entries::GroundList;
use ground_list_laws::laws::{
    certain_entries_are_ground_states, ground_states_are_listed, unresolved_entries_fail,
};
use potential_problem::Problem;
use sidb_units::Memory;
use std::alloc::Global;
use window_model::window_of;

/// All possibly valid lists: whatever the window, each that no list beats by it is among them, and
/// one that none of them so beats is beaten by no list.
fn contenders(alloc: Global, problem: &Problem) -> Result<Vec<Candidate>, Memory>
    ensures { IfOk result (λ v. (window : ℤ) → AreContenders problem.now window v.items) }
{
    has_table(problem);
    let all = candidates(alloc, problem)?;
    Ok(all)
}

/// The ground list of a problem with its marks, or None where it has more than 4,096 entries, by
/// going through all charge lists of the problem's base.
///
/// Under every potential table each ground state is an entry, an entry marked certain is a ground
/// state, and the comparison that another names fails under some table.
pub fn plain_solve(alloc: Global, problem: &Problem) -> Result<Option<GroundList>, Memory>
    ensures answer { IfOk result (IsFound problem.now) }
    ensures each_listed { IfOk result
        (λ o. IfSome o (λ es. ListsEachLeast problem.now (lists_of es))) }
    ensures certain { IfOk result (λ o. IfSome o (CertainAreGround problem.now)) }
    ensures unresolved { IfOk result (λ o. IfSome o (UnresolvedFail problem.now)) }
{
    ground_states_are_listed();
    certain_entries_are_ground_states();
    unresolved_entries_fail();
    let all = contenders(alloc, problem)?;
    ground_list_of(alloc, problem, all)
}

/// All charge lists of a problem that may be valid within `window` of the ground, in 10^-12 V, with
/// their marks, or None where there are more than 4,096, by going through all charge lists of the
/// problem's base.
pub fn plain_window(
    alloc: Global,
    problem: &Problem,
    window: i64,
) -> Result<Option<GroundList>, Memory>
    requires { IsWindow window }
    ensures { IfOk result (IsWindowFound problem.now window) }
{
    let all = contenders(alloc, problem)?;
    window_list_of(alloc, problem, &window_of(window), all)
}
