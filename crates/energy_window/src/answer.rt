ghost use Rattle.std.specs.Prelude.{◌≡◌, ◌≤◌, ℕ, ℤ};
ghost use Rattle.charge_model.specs.Problem.{Problem as Given};
ghost use Rattle.charge_model.specs.GroundList.{lists_of};
ghost use Rattle.sidb_units.specs.declared.TheConstants.{MAX_NODES, MAX_WORKERS};
ghost use Rattle.window_model.specs.Windows.{IsWindow, ListsEachNear};
ghost use Rattle.candidate_marks.specs.Found.{CertainAreNear, UnresolvedFailWithin};
ghost use Rattle.ground_state.specs.Window.{IsWindowSolved};
ghost use Rattle.energy_window.specs.Answers.{IsWindowAnswer, IfWindowListed};

use ground_entries::GroundList;
use ground_state::{SolveAnswer, solve_within};
use potential_problem::Problem;
use sidb_io::Gate;
use sidb_units::{MAX_NODES, MAX_WORKERS};
use std::alloc::Global;
use std::thread::Threads;
use window_laws::laws::{
    certain_entries_are_near_the_ground, near_lists_are_listed, unresolved_entries_fail_within,
};

/// What a search for all lists within a window answers.
#[derive(Drop)]
pub enum WindowAnswer {
    /// The window list with its marks.
    List(GroundList),
    /// The search tree up to the end of the window has more nodes than the limit.
    Budget,
    /// The window list has more than 4,096 entries.
    ListTooLong,
    /// Memory did not suffice.
    Memory,
}

/// What the answer of a search says of the window list.
fn told(solved: SolveAnswer) -> WindowAnswer
    ensures answer { (p : Given) (window : ℤ) (limit : ℕ)
        → IsWindowSolved p window limit solved → IsWindowAnswer p window limit result }
    ensures memory { result ≡ WindowAnswer.Memory → solved ≡ SolveAnswer.Memory }
{
    match solved {
        SolveAnswer::List(solution) => {
            let _few = solution.list.len();
            WindowAnswer::List(solution.list)
        }
        SolveAnswer::Budget => WindowAnswer::Budget,
        SolveAnswer::ListTooLong => WindowAnswer::ListTooLong,
        SolveAnswer::Memory => WindowAnswer::Memory,
    }
}

/// All charge lists of a problem that may be valid within `window` of the ground, in 10^-12 V, with
/// their marks, if the search tree up to the end of the window has not more nodes than `limit`
/// (docs/MODEL.md, "The window list"). Its certificate was checked.
///
/// Under every potential table each valid list that is above no valid list by more than the window
/// is an entry, an entry marked certain is such a list, and the comparison that another names fails
/// under some table.
pub fn solve_window<R: Threads + Sync, G: Gate>(
    rt: &R,
    alloc: Global,
    problem: &Problem,
    window: i64,
    limit: u64,
    workers: u64,
    gate: &G,
) -> WindowAnswer
    requires window { IsWindow window }
    requires limit { (1 ≤ limit) × (limit ≤ MAX_NODES) }
    requires workers { (1 ≤ workers) × (workers ≤ MAX_WORKERS) }
    ensures answer { IsWindowAnswer problem.now window limit result }
    ensures each_listed { IfWindowListed result
        (λ es. ListsEachNear problem.now window (lists_of es)) }
    ensures certain { IfWindowListed result (CertainAreNear problem.now window) }
    ensures unresolved { IfWindowListed result (UnresolvedFailWithin problem.now window) }
{
    near_lists_are_listed();
    certain_entries_are_near_the_ground();
    unresolved_entries_fail_within();
    told(solve_within(rt, alloc, problem, window, limit, workers, gate))
}
