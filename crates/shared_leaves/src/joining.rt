ghost use denote.Param.Send.{IsSync};
ghost use Rattle.std.specs.Prelude.{◌≡◌, ◌<◌, ◌≤◌, All, IfOk, MatchOption, MatchResult, sum_by};
ghost use Rattle.std.specs.List.{AllZip};
ghost use Rattle.sidb_units.specs.declared.TheConstants.{MAX_NODES};
ghost use Rattle.tree_leaves.specs.Answer.{IsLeavesAnswer};
ghost use Rattle.shared_leaves.specs.Shares.{IsShare};
ghost use Rattle.shared_leaves.specs.Finds.{IsFoundOf, AreFound, IsMissed, IsJoined};

use crate::sharing::{Share, share_out};
use potential_problem::Problem;
use prefix_bound::laws::nodes_are_tested;
use rayon::prelude::*;
use sidb_units::{MAX_NODES, Memory};
use std::alloc::Global;
use std::sync::atomic::{AtomicU64, Ordering};
use std::thread::Threads;
use tree_leaves::{LeafList, LeavesAnswer, leaves, leaves_under};

/// Why leaves were not found.
#[derive(Clone, Copy, Debug, Drop)]
pub enum Missed {
    /// There are more nodes than the limit.
    Budget,
    /// There may be more nodes than the limit.
    Stopped,
    /// Memory did not suffice.
    Memory,
}

/// The leaves of one part, with the number of its nodes. It is not begun where the parts that are
/// done entered as many nodes as the limit, as far as `entered` tells.
fn leaves_of(
    alloc: Global,
    problem: &Problem,
    threshold: Option<i64>,
    share: &Share,
    limit: u64,
    entered: &AtomicU64,
) -> Result<LeafList, Missed>
    requires { IsShare problem.now share.now }
    ensures { IsFoundOf problem.now threshold limit share.now result }
{
    let Share::Under(prefix) = share else {
        return Ok(LeafList::none(alloc, 1));
    };
    if entered.load(Ordering::SeqCst) >= limit {
        return Err(Missed::Stopped);
    }
    match leaves_under(alloc, problem, threshold, prefix, limit) {
        Ok(Some(list)) => {
            entered.fetch_add(list.nodes(), Ordering::SeqCst);
            Ok(list)
        }
        Ok(None) => {
            entered.fetch_add(limit, Ordering::SeqCst);
            Err(Missed::Budget)
        }
        Err(_) => Err(Missed::Memory),
    }
}

/// The leaves of each part, in order of the parts, each with at most `limit` nodes.
fn leaves_of_all<R: Threads + Sync>(
    rt: &R,
    alloc: Global,
    problem: &Problem,
    threshold: Option<i64>,
    shares: &[Share],
    limit: u64,
) -> Result<Vec<LeafList>, Missed>
    requires { All (IsShare problem.now) shares.now }
    ensures { MatchResult result
        (λ parts. AllZip (AreFound problem.now threshold) shares.now parts.items)
        (IsMissed problem.now threshold limit shares.now) }
{
    let entered = AtomicU64::new(0);
    // (each part is a search, and so heavy enough for a thread)
    let gathered = shares
        .par_iter()
        .with_min_len(1)
        .map(
            |share: &Share| -> Result<LeafList, Missed>
                requires { IsShare problem.now share.now }
                ensures { IsFoundOf problem.entry.now threshold limit share.now result }
            { leaves_of(alloc, problem, threshold, share, limit, &entered) },
        )
        .collect::<Result<Vec<LeafList>, Missed>>(rt, alloc);
    match gathered {
        Ok(found) => found,
        Err(_) => Err(Missed::Memory),
    }
}

/// One list after the other, or None where they have more nodes than the limit.
fn joined(alloc: Global, parts: Vec<LeafList>, limit: u64) -> Result<Option<LeafList>, Memory>
    ensures { IfOk result (λ o. MatchOption o (limit < sum_by (λ part. part.nodes) parts.items)
        (IsJoined limit parts.items)) }
{
    let mut whole = LeafList::none(alloc, 0);
    for part in parts {
        if part.nodes() > limit - whole.nodes() {
            return Ok(None);
        }
        whole.append(part)?;
    }
    Ok(Some(whole))
}

/// In order, the possibly valid lists in the search tree under a threshold, in 10^-12 V, or under
/// none, with the number of its nodes (docs/MODEL.md, "Prefixes"), as `tree_leaves::leaves` gives
/// them. What begins with each prefix of a few charges is searched by itself, side by side. Where
/// there may be too many nodes, one thread goes over the tree to tell.
pub fn leaves_shared<R: Threads + Sync>(
    rt: &R,
    alloc: Global,
    problem: &Problem,
    bound: Option<i64>,
    limit: u64,
) -> LeavesAnswer
    requires limit { (1 ≤ limit) × (limit ≤ MAX_NODES) }
    ensures { IsLeavesAnswer problem.now bound limit result }
{
    nodes_are_tested();
    let Ok(shares) = share_out(alloc, problem, bound) else {
        return LeavesAnswer::Memory;
    };
    let parts = match leaves_of_all(rt, alloc, problem, bound, shares.as_slice(), limit) {
        Ok(parts) => parts,
        Err(Missed::Budget) => return LeavesAnswer::Budget,
        Err(Missed::Stopped) => return leaves(alloc, problem, bound, limit),
        Err(Missed::Memory) => return LeavesAnswer::Memory,
    };
    match joined(alloc, parts, limit) {
        Ok(Some(list)) => LeavesAnswer::Lists(list),
        Ok(None) => LeavesAnswer::Budget,
        Err(_) => LeavesAnswer::Memory,
    }
}
