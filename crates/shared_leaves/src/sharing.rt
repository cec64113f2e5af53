ghost use Rattle.std.specs.Prelude.{◌≡◌, ◌≢◌, ◌<◌, ◌≤◌, ◌+◌, ◌∷◌, ◌++◌, [], length, IfOk, IsTrue};
ghost use Rattle.charge_model.specs.declared.charge.Charge.TheVariants.{Pos};
ghost use Rattle.charge_model.specs.Tree.{is_node};
ghost use Rattle.tree_leaves.specs.Subtree.{IsPrefix};
ghost use Rattle.shared_leaves.specs.Shares.{AreShares, IsSharedOut};

use crate::MAX_DEPTH;
use charge_state::{Charge, Charges};
use potential_problem::Problem;
use prefix_bound::Track;
use prefix_bound::laws::pops_undo_pushes;
use sidb_units::Memory;
use std::alloc::Global;

/// A part of a search tree.
#[derive(Drop)]
pub enum Share {
    /// All members that begin with this prefix.
    Under(Charges),
    /// One member, which has room for one more charge.
    One,
}

/// Shares out what begins with the prefix and one more charge.
#[cycle(sharing)]
fn share_child(
    problem: &Problem,
    threshold: Option<i64>,
    track: &mut Track,
    charge: Charge,
    more: usize,
    shares: &mut Vec<Share>,
) -> Result<(), Memory>
    requires problem { track.old.problem ≡ problem.now }
    requires prefix { IsPrefix problem.now track.old.prefix }
    requires room { length track.old.prefix + more < problem.now.sites }
    requires base { problem.now.base ≡ 2 → charge ≢ Pos }
    ensures shared { IfOk result (λ _. IsSharedOut problem.now threshold
        (track.old.prefix ++ charge ∷ []) shares.old.items shares.new.items) }
    ensures kept { IfOk result (λ _. track.new ≡ track.old) }
{
    pops_undo_pushes();
    track.push(problem, charge);
    share_prefix(problem, threshold, track, more, shares)?;
    track.pop(problem);
    Ok(())
}

/// Shares out what begins with a node that has room: itself, and what begins with each charge of
/// the base after it.
#[cycle(sharing)]
fn share_node(
    problem: &Problem,
    threshold: Option<i64>,
    track: &mut Track,
    more: usize,
    shares: &mut Vec<Share>,
) -> Result<(), Memory>
    requires problem { track.old.problem ≡ problem.now }
    requires prefix { IsPrefix problem.now track.old.prefix }
    requires room { length track.old.prefix + more < problem.now.sites }
    requires node { IsTrue (is_node problem.now threshold track.old.prefix) }
    ensures shared { IfOk result (λ _. IsSharedOut problem.now threshold track.old.prefix
        shares.old.items shares.new.items) }
    ensures kept { IfOk result (λ _. track.new ≡ track.old) }
{
    shares.push(Share::One)?;
    share_child(problem, threshold, track, Charge::Neg, more, shares)?;
    share_child(problem, threshold, track, Charge::Neutral, more, shares)?;
    if problem.base() == 2 {
        return Ok(());
    }
    share_child(problem, threshold, track, Charge::Pos, more, shares)
}

/// Shares out what begins with the prefix, into prefixes of so many charges more.
#[cycle(sharing)]
fn share_prefix(
    problem: &Problem,
    threshold: Option<i64>,
    track: &mut Track,
    more: usize,
    shares: &mut Vec<Share>,
) -> Result<(), Memory>
    requires problem { track.old.problem ≡ problem.now }
    requires prefix { IsPrefix problem.now track.old.prefix }
    requires room { length track.old.prefix + more ≤ problem.now.sites }
    ensures shared { IfOk result (λ _. IsSharedOut problem.now threshold track.old.prefix
        shares.old.items shares.new.items) }
    ensures kept { IfOk result (λ _. track.new ≡ track.old) }
{
    if !track.enters(problem, threshold) {
        return Ok(());
    }
    if more > 0 {
        return share_node(problem, threshold, track, more - 1, shares);
    }
    shares.push(Share::Under(track.charges().copy()))?;
    Ok(())
}

/// Shares out the search tree under a threshold, in 10^-12 V, or under none, in order: what begins
/// with each prefix of a few charges that is a node, and each node of fewer.
pub fn share_out(
    alloc: Global,
    problem: &Problem,
    threshold: Option<i64>,
) -> Result<Vec<Share>, Memory>
    ensures { IfOk result (λ shares. AreShares problem.now threshold [] shares.items) }
{
    let mut shares = Vec::new(alloc);
    let mut track = Track::new(alloc, problem)?;
    let depth = problem.sites().min(MAX_DEPTH);
    share_prefix(problem, threshold, &mut track, depth, &mut shares)?;
    Ok(shares)
}
