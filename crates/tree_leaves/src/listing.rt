ghost use Rattle.std.specs.Prelude.{◌≡◌, ◌≢◌, ◌<◌, ◌≤◌, ◌∷◌, ◌++◌, ◌↔◌, [], length, IfOk, IsTrue, Some, None, MatchOption};
ghost use Rattle.charge_model.specs.declared.charge.Charge.TheVariants.{Pos};
ghost use Rattle.charge_model.specs.Rules.{IsChargeList};
ghost use Rattle.charge_model.specs.Tree.{is_node, node_count};
ghost use Rattle.sidb_units.specs.declared.TheConstants.{MAX_NODES};
ghost use Rattle.tree_leaves.specs.Answer.{IsLeafList, IsListedUnder, IsLeavesAnswer};
ghost use Rattle.tree_leaves.specs.Subtree.{IsPrefix, nodes_under, nodes_beyond};
ghost use Rattle.tree_leaves.specs.Visits.{IsVisited, AreChildrenVisited, IsLeafKept};

use crate::leaf_list::{LeafList, LeavesAnswer};
use charge_state::{Charge, Charges};
use leaf_rules::is_possible;
use potential_problem::Problem;
use prefix_bound::Track;
use prefix_bound::laws::{nodes_are_tested, pops_undo_pushes, refused_charges_close};
use sidb_units::{MAX_NODES, Memory};
use std::alloc::Global;

/// The lists found so far, and how many more prefixes may be entered.
#[derive(Drop)]
pub struct FoundLists {
    pub lists: Vec<Charges>,
    pub left: u64,
}

/// Keeps a node that has all its charges, where it is possibly valid.
fn keep_leaf(
    alloc: Global,
    problem: &Problem,
    threshold: Option<i64>,
    track: &Track,
    found: &mut FoundLists,
) -> Result<(), Memory>
    requires problem { track.now.problem ≡ problem.now }
    requires full { IsChargeList problem.now track.now.prefix }
    requires node { IsTrue (is_node problem.now threshold track.now.prefix) }
    ensures { IfOk result (λ _. IsLeafKept problem.now threshold track.now.prefix found.old
        found.new) }
{
    let possible = is_possible(alloc, problem, track)?;
    if possible {
        found.lists.push(track.charges().copy())?;
    }
    Ok(())
}

/// Visits the prefix with one more charge.
#[cycle(search)]
fn visit_child(
    alloc: Global,
    problem: &Problem,
    threshold: Option<i64>,
    track: &mut Track,
    charge: Charge,
    found: &mut FoundLists,
) -> Result<bool, Memory>
    requires problem { track.old.problem ≡ problem.now }
    requires prefix { IsPrefix problem.now track.old.prefix }
    requires room { length track.old.prefix < problem.now.sites }
    requires base { problem.now.base ≡ 2 → charge ≢ Pos }
    ensures within { IfOk result (λ within. IsTrue within
        ↔ (nodes_under problem.now threshold (track.old.prefix ++ charge ∷ []) ≤ found.old.left)) }
    ensures visited { IfOk result (λ within. IsTrue within → IsVisited problem.now threshold
        (track.old.prefix ++ charge ∷ []) found.old found.new) }
    ensures kept { IfOk result (λ within. IsTrue within → track.new ≡ track.old) }
{
    pops_undo_pushes();
    refused_charges_close();
    if !track.takes(problem, charge) {
        return Ok(true);
    }
    track.push(problem, charge);
    let within = visit(alloc, problem, threshold, track, found)?;
    if within {
        track.pop(problem);
    }
    Ok(within)
}

/// Visits the prefix with each charge of the base after it.
#[cycle(search)]
fn visit_children(
    alloc: Global,
    problem: &Problem,
    threshold: Option<i64>,
    track: &mut Track,
    found: &mut FoundLists,
) -> Result<bool, Memory>
    requires problem { track.old.problem ≡ problem.now }
    requires prefix { IsPrefix problem.now track.old.prefix }
    requires room { length track.old.prefix < problem.now.sites }
    ensures within { IfOk result (λ within. IsTrue within
        ↔ (nodes_beyond problem.now threshold track.old.prefix ≤ found.old.left)) }
    ensures visited { IfOk result (λ within. IsTrue within
        → AreChildrenVisited problem.now threshold track.old.prefix found.old found.new) }
    ensures kept { IfOk result (λ within. IsTrue within → track.new ≡ track.old) }
{
    if !visit_child(alloc, problem, threshold, track, Charge::Neg, found)? {
        return Ok(false);
    }
    if !visit_child(alloc, problem, threshold, track, Charge::Neutral, found)? {
        return Ok(false);
    }
    if problem.base() == 2 {
        return Ok(true);
    }
    visit_child(alloc, problem, threshold, track, Charge::Pos, found)
}

/// Enters the members of the tree that begin with the prefix, as far as there are not too many:
/// whether there were not.
#[cycle(search)]
fn visit(
    alloc: Global,
    problem: &Problem,
    threshold: Option<i64>,
    track: &mut Track,
    found: &mut FoundLists,
) -> Result<bool, Memory>
    requires problem { track.old.problem ≡ problem.now }
    requires prefix { IsPrefix problem.now track.old.prefix }
    ensures within { IfOk result (λ within. IsTrue within
        ↔ (nodes_under problem.now threshold track.old.prefix ≤ found.old.left)) }
    ensures visited { IfOk result (λ within. IsTrue within
        → IsVisited problem.now threshold track.old.prefix found.old found.new) }
    ensures kept { IfOk result (λ within. IsTrue within → track.new ≡ track.old) }
{
    if !track.enters(problem, threshold) {
        return Ok(true);
    }
    if found.left == 0 {
        return Ok(false);
    }
    found.left -= 1;
    if track.len() < problem.sites() {
        return visit_children(alloc, problem, threshold, track, found);
    }
    keep_leaf(alloc, problem, threshold, track, found)?;
    Ok(true)
}

/// The track of a prefix.
pub fn track_of<'a>(
    alloc: Global,
    problem: &'a Problem,
    prefix: &Charges,
) -> Result<Track<'a>, Memory>
    requires { IsPrefix problem.now prefix.now }
    ensures problem { IfOk result (λ track. track.problem ≡ problem.now) }
    ensures prefix { IfOk result (λ track. track.prefix ≡ prefix.now) }
{
    let mut track = Track::new(alloc, problem)?;
    for k in 0..prefix.len() {
        track.push(problem, prefix.at(k));
    }
    Ok(track)
}

/// Visits a prefix.
fn visit_prefix(
    alloc: Global,
    problem: &Problem,
    threshold: Option<i64>,
    prefix: &Charges,
    found: &mut FoundLists,
) -> Result<bool, Memory>
    requires { IsPrefix problem.now prefix.now }
    ensures within { IfOk result (λ within. IsTrue within
        ↔ (nodes_under problem.now threshold prefix.now ≤ found.old.left)) }
    ensures visited { IfOk result (λ within. IsTrue within
        → IsVisited problem.now threshold prefix.now found.old found.new) }
{
    let mut track = track_of(alloc, problem, prefix)?;
    visit(alloc, problem, threshold, &mut track, found)
}

/// In order, the possibly valid lists that begin with a prefix and lie in the search tree under a
/// threshold, in 10^-12 V, or under none, as far as the shorter prefixes are nodes; with the number
/// of its nodes that begin so. None where that is more than `limit`, which is as many as are
/// entered.
pub fn leaves_under(
    alloc: Global,
    problem: &Problem,
    threshold: Option<i64>,
    prefix: &Charges,
    limit: u64,
) -> Result<Option<LeafList>, Memory>
    requires { IsPrefix problem.now prefix.now }
    ensures { IfOk result (λ o. MatchOption o
        (limit < nodes_under problem.now threshold prefix.now)
        (IsListedUnder problem.now threshold prefix.now limit)) }
{
    let mut found = FoundLists {
        lists: Vec::new(alloc),
        left: limit,
    };
    if !visit_prefix(alloc, problem, threshold, prefix, &mut found)? {
        return Ok(None);
    }
    Ok(Some(LeafList {
        lists: found.lists,
        nodes: limit - found.left,
    }))
}

/// The leaves of the tree, or None where it has more nodes than the limit.
fn leaves_within(
    alloc: Global,
    problem: &Problem,
    bound: Option<i64>,
    limit: u64,
) -> Result<Option<LeafList>, Memory>
    ensures { IfOk result (λ o. MatchOption o (limit < node_count problem.now bound)
        (IsLeafList problem.now bound limit)) }
{
    nodes_are_tested();
    leaves_under(alloc, problem, bound, &Charges::empty(), limit)
}

/// In order, the possibly valid lists in the search tree under a threshold, in 10^-12 V, or under
/// none, with the number of its nodes (docs/MODEL.md, "Prefixes"). At most `limit` nodes are
/// entered.
pub fn leaves(alloc: Global, problem: &Problem, bound: Option<i64>, limit: u64) -> LeavesAnswer
    requires limit { (1 ≤ limit) × (limit ≤ MAX_NODES) }
    ensures { IsLeavesAnswer problem.now bound limit result }
{
    match leaves_within(alloc, problem, bound, limit) {
        Ok(Some(list)) => LeavesAnswer::Lists(list),
        Ok(None) => LeavesAnswer::Budget,
        Err(_) => LeavesAnswer::Memory,
    }
}
