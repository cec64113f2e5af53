// Which of the walks over the search tree go side by side.
ghost use Rattle.std.specs.Prelude.{◌≡◌, ◌≤◌, IfOk};
ghost use Rattle.charge_model.specs.Tree.{node_count};
ghost use Rattle.sidb_units.specs.declared.TheConstants.{MAX_NODES};
ghost use Rattle.window_model.specs.Windows.{IsMarkedWindowList};
ghost use Rattle.tree_leaves.specs.Answer.{IsLeavesAnswer};
ghost use Rattle.ground_state.specs.Window.{IsReach};

use crate::reach::Reach;
use checked_walk::walk_checked;
use ground_entries::GroundList;
use potential_problem::Problem;
use shared_check::walk_shared;
use shared_leaves::leaves_shared;
use sidb_units::{MAX_NODES, Memory};
use std::alloc::Global;
use std::thread::Threads;
use tree_leaves::{LeavesAnswer, leaves};

/// How many prefixes of a tree are not worth more than one thread.
const FEW_NODES: u64 = 20_000;

/// The leaves of the tree, where a first look entered few prefixes of many.
fn many_leaves<R: Threads + Sync>(
    rt: &R,
    alloc: Global,
    problem: &Problem,
    reach: &Reach,
    limit: u64,
    workers: u64,
) -> LeavesAnswer
    requires limit { (1 ≤ limit) × (limit ≤ MAX_NODES) }
    ensures { IsLeavesAnswer problem.now reach.now.end limit result }
{
    if workers > 1 {
        leaves_shared(rt, alloc, problem, reach.end, limit)
    } else {
        leaves(alloc, problem, reach.end, limit)
    }
}

/// The leaves of the tree up to the end of the window, side by side where there are several workers
/// and the tree is large.
pub fn leaves_by<R: Threads + Sync>(
    rt: &R,
    alloc: Global,
    problem: &Problem,
    reach: &Reach,
    limit: u64,
    workers: u64,
) -> LeavesAnswer
    requires limit { (1 ≤ limit) × (limit ≤ MAX_NODES) }
    ensures { IsLeavesAnswer problem.now reach.now.end limit result }
{
    let few = limit.min(FEW_NODES);
    match leaves(alloc, problem, reach.end, few) {
        LeavesAnswer::Lists(list) => LeavesAnswer::Lists(list),
        LeavesAnswer::Memory => LeavesAnswer::Memory,
        LeavesAnswer::Budget => {
            if few == limit {
                LeavesAnswer::Budget
            } else {
                many_leaves(rt, alloc, problem, reach, limit, workers)
            }
        }
    }
}

/// How many nodes the tree has, once the certificate of the list was checked: side by side where
/// there are several workers and the tree, which has this many nodes, is large. Were a token refused
/// there, the one checker would be asked, whose refusal is proved never to come.
pub fn checked_nodes<R: Threads + Sync>(
    rt: &R,
    alloc: Global,
    problem: &Problem,
    reach: &Reach,
    workers: u64,
    nodes: u64,
    list: &GroundList,
) -> Result<u64, Memory>
    requires reach { IsReach problem.now reach.now }
    requires list { IsMarkedWindowList problem.now reach.now.window.width list.now }
    requires few { node_count problem.now reach.now.end ≤ MAX_NODES }
    ensures { IfOk result (λ n. n ≡ node_count problem.now reach.now.end) }
{
    if workers > 1 && nodes > FEW_NODES {
        if let Some(found) = walk_shared(rt, alloc, problem, reach.window, reach.bound, list)? {
            return Ok(found);
        }
    }
    walk_checked(alloc, problem, reach.window, reach.bound, list)
}
