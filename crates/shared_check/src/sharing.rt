ghost use Rattle.std.specs.Prelude.{◌≡◌, ◌≤◌, [], All, IfOk, IfSome};
ghost use Rattle.std.specs.List.{AllZip};
ghost use Rattle.charge_model.specs.Tree.{IsLeastCertain, node_count};
ghost use Rattle.sidb_units.specs.declared.TheConstants.{MAX_NODES};
ghost use Rattle.window_model.specs.Windows.{IsMarkedWindowList};
ghost use Rattle.walk_model.specs.Walks.{raised_bound};
ghost use Rattle.shared_check.specs.Parts.{IsPart, IsCountOf};

use crate::adding::added;
use crate::head::share_under;
use crate::setting::Setting;
use crate::task::count_task;
use certificate_walk::laws::nodes_have_few_tokens;
use certificate_walk::threshold_of;
use charge_state::Charges;
use ground_entries::GroundList;
use potential_problem::Problem;
use rayon::prelude::*;
use sidb_units::Memory;
use std::alloc::Global;
use std::thread::Threads;
use token_sinks::Stop;
use tree_leaves::laws::nodes_count_their_children;
use walk_model::laws::each_problem_has_written_tokens;
use window_model::Window;

/// How many nodes begin with each task, in order: each is what its own walk counts, whatever the
/// others count.
fn count_tasks<R: Threads + Sync>(
    rt: &R,
    setting: &Setting,
    tasks: &[Charges],
) -> Result<Vec<Option<u64>>, Memory>
    requires { All (IsPart setting.now) tasks.now }
    ensures { IfOk result (λ counts. AllZip (IsCountOf setting.now) tasks.now counts.items) }
{
    // (each task is a walk, and so heavy enough for a thread)
    let gathered = tasks
        .par_iter()
        .with_min_len(1)
        .map(
            |task: &Charges| -> Result<Option<u64>, Memory>
                requires { IsPart setting.now task.now }
                ensures { IfOk result (IsCountOf setting.entry.now task.now) }
            { count_task(setting, task) },
        )
        .collect::<Result<Vec<Option<u64>>, Memory>>(rt, setting.alloc())?;
    gathered
}

/// How many nodes the tree has, or None where a token is refused.
fn count_shared<R: Threads + Sync>(rt: &R, setting: &Setting) -> Result<Option<u64>, Memory>
    requires { IsPart setting.now [] }
    ensures { IfOk result (IsCountOf setting.now []) }
{
    let mut tasks = Vec::new(setting.alloc());
    let few = match share_under(setting, &Charges::empty(), &mut tasks) {
        Ok(few) => few,
        Err(Stop::Fault) => return Ok(None),
        Err(Stop::Memory) => return Err(Memory),
    };
    let counts = count_tasks(rt, setting, tasks.as_slice())?;
    Ok(added(few, counts.as_slice()))
}

/// Tests the tokens of a certificate of a window list, with the subtrees of the search tree side
/// by side: how many nodes the tree has, or None where an entry or a token is refused. The bound
/// is the least certain energy, in 10^-12 V, or none where no list is certainly valid; the tree is
/// that under the bound and the window on top.
///
/// **Errors**: want of memory alone.
pub fn walk_shared<R: Threads + Sync>(
    rt: &R,
    alloc: Global,
    problem: &Problem,
    window: Window,
    bound: Option<i64>,
    list: &GroundList,
) -> Result<Option<u64>, Memory>
    requires list { IsMarkedWindowList problem.now window.width list.now }
    requires bound { IsLeastCertain problem.now bound }
    requires few { node_count problem.now (raised_bound window.width bound) ≤ MAX_NODES }
    ensures nodes { IfOk result (λ o. IfSome o
        (λ n. n ≡ node_count problem.now (raised_bound window.width bound))) }
{
    each_problem_has_written_tokens();
    nodes_have_few_tokens();
    nodes_count_their_children();
    let _known = problem.sites();
    let threshold = threshold_of(problem, window, bound);
    match Setting::new(alloc, problem, window, threshold, list)? {
        None => Ok(None),
        Some(setting) => count_shared(rt, &setting),
    }
}
