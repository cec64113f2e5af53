ghost use Rattle.std.specs.Prelude.{◌≤◌, IfOk, IsTrue};
ghost use Rattle.charge_model.specs.Tree.{IsLeastCertain, node_count};
ghost use Rattle.charge_model.specs.GroundList.{ListsEachLeast, lists_of};
ghost use Rattle.sidb_units.specs.declared.TheConstants.{MAX_NODES, MAX_WORKERS};
ghost use Rattle.window_model.specs.Windows.{IsWindow, IsMarkedWindowList, ListsEachNear};
ghost use Rattle.candidate_marks.specs.Found.{IsWindowFound, CertainAreGround, CertainAreNear, UnresolvedFail, UnresolvedFailWithin};
ghost use Rattle.tree_leaves.specs.Leaves.{AreLeaves};
ghost use Rattle.tree_leaves.specs.Answer.{IsLeafList};
ghost use Rattle.ground_state.specs.Answer.{IsSolved, IfListed};
ghost use Rattle.ground_state.specs.Window.{IsReach, IsWindowSolved, IsWindowTooLong};

use crate::effort::{checked_nodes, leaves_by};
use crate::keeping::contenders;
use crate::reach::{Reach, reach_of};
use branch_search::{Bound, least_bound};
use candidate_marks::window_list_of;
use ground_entries::{GroundList, Solved};
use ground_list_laws::laws::{
    certain_entries_are_ground_states, ground_states_are_listed, unresolved_entries_fail,
};
use potential_problem::Problem;
use prefix_laws::laws::{bounds_lie_below, prefixes_are_open};
use sidb_io::Gate;
use sidb_units::{MAX_ENTRIES, MAX_NODES, MAX_WORKERS, Memory};
use std::alloc::Global;
use std::thread::Threads;
use tree_leaves::laws::{higher_thresholds_have_no_fewer_nodes, nodes_count_their_children};
use tree_leaves::{LeafList, LeavesAnswer};
use window_laws::laws::{
    certain_entries_are_near_the_ground, marks_at_zero_are_ground_marks, near_lists_are_listed,
    unresolved_entries_fail_within, window_lists_at_zero_are_ground_lists,
};
use window_model::{Window, window_of};

/// What solving a problem answers.
#[derive(Drop)]
pub enum SolveAnswer {
    /// The list with its marks, the least certain energy, and the count of nodes.
    List(Solved),
    /// The search tree has more nodes than the limit.
    Budget,
    /// The list has more than 4,096 entries.
    ListTooLong,
    /// Memory did not suffice.
    Memory,
}

/// Whether more than 4,096 leaves are listed because no list is certainly valid.
fn are_too_many(problem: &Problem, reach: &Reach, leaves: &LeafList) -> bool
    requires reach { IsReach problem.now reach.now }
    requires leaves { AreLeaves problem.now reach.now.end leaves.now.lists }
    ensures { IsTrue result → IsWindowTooLong problem.now reach.now.window.width }
{
    prefixes_are_open();
    bounds_lie_below();
    let _sites = problem.sites();
    match reach.bound {
        Some(_) => false,
        None => leaves.len() > MAX_ENTRIES,
    }
}

/// The window list out of the leaves of the tree, or None where it has more than 4,096 entries.
fn window_list_in(
    alloc: Global,
    problem: &Problem,
    reach: &Reach,
    leaves: &LeafList,
) -> Result<Option<GroundList>, Memory>
    requires reach { IsReach problem.now reach.now }
    requires leaves { AreLeaves problem.now reach.now.end leaves.now.lists }
    ensures { IfOk result (IsWindowFound problem.now reach.now.window.width) }
{
    if are_too_many(problem, reach, leaves) {
        return Ok(None);
    }
    let kept = contenders(alloc, problem, reach, leaves)?;
    window_list_of(alloc, problem, &reach.window, kept)
}

/// The answer where this is the list of these leaves, once its certificate was checked.
fn checked<R: Threads + Sync>(
    rt: &R,
    alloc: Global,
    problem: &Problem,
    reach: &Reach,
    _limit: u64,
    workers: u64,
    leaves: &LeafList,
    list: GroundList,
) -> SolveAnswer
    requires reach { IsReach problem.now reach.now }
    requires list { IsMarkedWindowList problem.now reach.now.window.width list }
    requires within { node_count problem.now reach.now.end ≤ _limit }
    requires limit { _limit ≤ MAX_NODES }
    ensures { IsWindowSolved problem.now reach.now.window.width _limit result }
{
    match checked_nodes(rt, alloc, problem, reach, workers, leaves.nodes(), &list) {
        Err(Memory) => SolveAnswer::Memory,
        Ok(nodes) => SolveAnswer::List(Solved {
            list,
            bound: reach.bound,
            nodes,
        }),
    }
}

/// The answer where the tree up to the end of the window has these leaves.
fn solved<R: Threads + Sync>(
    rt: &R,
    alloc: Global,
    problem: &Problem,
    reach: &Reach,
    limit: u64,
    workers: u64,
    leaves: &LeafList,
) -> SolveAnswer
    requires reach { IsReach problem.now reach.now }
    requires leaves { IsLeafList problem.now reach.now.end limit leaves.now }
    requires limit { limit ≤ MAX_NODES }
    ensures { IsWindowSolved problem.now reach.now.window.width limit result }
{
    match window_list_in(alloc, problem, reach, leaves) {
        Err(Memory) => SolveAnswer::Memory,
        Ok(None) => SolveAnswer::ListTooLong,
        Ok(Some(list)) => checked(rt, alloc, problem, reach, limit, workers, leaves, list),
    }
}

/// The answer where this is the least certain energy.
fn solve_under<R: Threads + Sync>(
    rt: &R,
    alloc: Global,
    problem: &Problem,
    window: &Window,
    bound: Option<i64>,
    limit: u64,
    workers: u64,
) -> SolveAnswer
    requires bound { IsLeastCertain problem.now bound }
    requires limit { (1 ≤ limit) × (limit ≤ MAX_NODES) }
    ensures { IsWindowSolved problem.now window.now.width limit result }
{
    let reach = reach_of(problem, bound, window);
    match leaves_by(rt, alloc, problem, &reach, limit, workers) {
        LeavesAnswer::Lists(list) => solved(rt, alloc, problem, &reach, limit, workers, &list),
        LeavesAnswer::Budget => SolveAnswer::Budget,
        LeavesAnswer::Memory => SolveAnswer::Memory,
    }
}

/// The answer to a problem, within a window.
fn searched_within<R: Threads + Sync, G: Gate>(
    rt: &R,
    alloc: Global,
    problem: &Problem,
    window: &Window,
    limit: u64,
    workers: u64,
    gate: &G,
) -> SolveAnswer
    requires limit { (1 ≤ limit) × (limit ≤ MAX_NODES) }
    requires workers { (1 ≤ workers) × (workers ≤ MAX_WORKERS) }
    ensures { IsWindowSolved problem.now window.now.width limit result }
{
    higher_thresholds_have_no_fewer_nodes();
    nodes_count_their_children();
    match least_bound(rt, alloc, problem, limit, workers, gate) {
        Bound::Found(bound) => {
            solve_under(rt, alloc, problem, window, Some(bound), limit, workers)
        }
        Bound::NoneCertain => solve_under(rt, alloc, problem, window, None, limit, workers),
        Bound::Budget => SolveAnswer::Budget,
        Bound::Memory => SolveAnswer::Memory,
    }
}

/// The answer to a problem: that within a window of 0.
fn searched<R: Threads + Sync, G: Gate>(
    rt: &R,
    alloc: Global,
    problem: &Problem,
    limit: u64,
    workers: u64,
    gate: &G,
) -> SolveAnswer
    requires limit { (1 ≤ limit) × (limit ≤ MAX_NODES) }
    requires workers { (1 ≤ workers) × (workers ≤ MAX_WORKERS) }
    ensures { IsSolved problem.now limit result }
{
    window_lists_at_zero_are_ground_lists();
    marks_at_zero_are_ground_marks();
    searched_within(rt, alloc, problem, &window_of(0), limit, workers, gate)
}

/// All charge lists of a problem that may be valid within `window` of the ground, in 10^-12 V, with
/// their marks, the least certain energy, and how many nodes the search tree up to the end of the
/// window has, if they are not more than `limit`.
///
/// Under every potential table each valid list that is above no valid list by more than the window
/// is an entry, an entry marked certain is such a list, and the comparison that another names fails
/// under some table.
pub fn solve_within<R: Threads + Sync, G: Gate>(
    rt: &R,
    alloc: Global,
    problem: &Problem,
    window: i64,
    limit: u64,
    workers: u64,
    gate: &G,
) -> SolveAnswer
    requires window { IsWindow window }
    requires limit { (1 ≤ limit) × (limit ≤ MAX_NODES) }
    requires workers { (1 ≤ workers) × (workers ≤ MAX_WORKERS) }
    ensures answer { IsWindowSolved problem.now window limit result }
    ensures each_listed { IfListed result
        (λ es. ListsEachNear problem.now window (lists_of es)) }
    ensures certain { IfListed result (CertainAreNear problem.now window) }
    ensures unresolved { IfListed result (UnresolvedFailWithin problem.now window) }
{
    near_lists_are_listed();
    certain_entries_are_near_the_ground();
    unresolved_entries_fail_within();
    searched_within(rt, alloc, problem, &window_of(window), limit, workers, gate)
}

/// The ground list of a problem with its marks, the least certain energy, and how many nodes the
/// search tree under it has, if they are not more than `limit` (docs/MODEL.md, "Prefixes").
///
/// Under every potential table each ground state is an entry, an entry marked certain is a ground
/// state, and the comparison that another names fails under some table.
pub fn solve<R: Threads + Sync, G: Gate>(
    rt: &R,
    alloc: Global,
    problem: &Problem,
    limit: u64,
    workers: u64,
    gate: &G,
) -> SolveAnswer
    requires limit { (1 ≤ limit) × (limit ≤ MAX_NODES) }
    requires workers { (1 ≤ workers) × (workers ≤ MAX_WORKERS) }
    ensures answer { IsSolved problem.now limit result }
    ensures each_listed { IfListed result (λ es. ListsEachLeast problem.now (lists_of es)) }
    ensures certain { IfListed result (CertainAreGround problem.now) }
    ensures unresolved { IfListed result (UnresolvedFail problem.now) }
{
    ground_states_are_listed();
    certain_entries_are_ground_states();
    unresolved_entries_fail();
    searched(rt, alloc, problem, limit, workers, gate)
}
