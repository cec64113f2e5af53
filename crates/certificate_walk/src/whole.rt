ghost use Rattle.std.specs.Prelude.{◌≡◌, ◌<◌, ◌≤◌, ◌^◌, pos, List, length, None, IfOk};
ghost use Rattle.charge_model.specs.GroundList.{IsMarkedGroundList, lists_of};
ghost use Rattle.charge_model.specs.Tree.{IsLeastCertain, node_count};
ghost use Rattle.sidb_io.specs.Outside.{HasFault};
ghost use Rattle.sidb_units.specs.declared.TheConstants.{MAX_NODES};
ghost use Rattle.window_model.specs.Windows.{IsMarkedWindowList};
ghost use Rattle.certificate_model.specs.declared.token.Token.{Token as TokenData};
ghost use Rattle.token_sinks.specs.Taking.{IsFault, OnlyFaultRaises};
ghost use Rattle.walk_model.specs.Walks.{raised_bound, AreWalked};
ghost use Rattle.certificate_walk.specs.Walking.{AreTokensOf, HasRoomFor, IsFedAll};

use crate::laws::nodes_have_few_tokens;
use crate::walking::walk_under;
use charge_model::laws::energies_are_small;
use ground_entries::GroundList;
use potential_problem::Problem;
use prefix_bound::Track;
use sidb_units::Memory;
use std::alloc::Global;
use token_sinks::{Stop, TokenSink};
use tree_leaves::laws::nodes_count_their_children;
use walk_model::laws::{each_problem_has_written_tokens, ground_lists_have_written_tokens};
use window_laws::laws::marks_at_zero_are_ground_marks;
use window_model::{Window, window_of};
use written_tokens::Guide;

/// Gives a sink the tokens of the whole tree: how many nodes it has.
fn walk_tree<T: TokenSink>(alloc: Global, guide: &Guide, sink: &mut T) -> Result<u64, Stop>
    requires few { node_count guide.now.problem guide.now.threshold < 2 ^ 64 }
    requires clear { T.refused sink.old ≡ None }
    requires fits { HasRoomFor (T.stands_for sink.old) (AreTokensOf guide.now) }
    ensures fed { IsFedAll (AreTokensOf guide.now)
        (T.stands_for sink.old) (T.stands_for sink.new) (T.refused sink.new) result }
    ensures nodes { IfOk result (λ n. n ≡ node_count guide.now.problem guide.now.threshold) }
    ensures fault { IsFault result → HasFault (T.faults sink.old) (T.faults sink.new) }
    ensures counts { OnlyFaultRaises (T.faults sink.old) (T.faults sink.new) result }
    ensures over { T.over sink.new ≡ T.over sink.old }
{
    nodes_count_their_children();
    let mut track = match Track::new(alloc, guide.problem()) {
        Ok(track) => track,
        Err(Memory) => return Err(Stop::Memory),
    };
    walk_under(guide, &mut track, sink)
}

/// The threshold of the tree: the least certain energy and the window on top, in 10^-12 V.
pub fn threshold_of(problem: &Problem, window: Window, bound: Option<i64>) -> Option<i64>
    requires { IsLeastCertain problem.now bound }
    ensures { result ≡ raised_bound window.width bound }
{
    energies_are_small();
    let _known = problem.sites();
    match bound {
        None => None,
        Some(bound) => Some(bound + window.width),
    }
}

/// Gives a sink the tokens of a certificate of a window list: how many nodes the search tree has.
/// The bound is the least certain energy, in 10^-12 V, or none where no list is certainly valid;
/// the tree is that under the bound and the window on top.
pub fn walk_within<T: TokenSink>(
    alloc: Global,
    problem: &Problem,
    window: Window,
    bound: Option<i64>,
    list: &GroundList,
    tokens: &mut T,
) -> Result<u64, Stop>
    requires bound { IsLeastCertain problem.now bound }
    requires few { node_count problem.now (raised_bound window.width bound) ≤ MAX_NODES }
    requires list { IsMarkedWindowList problem.now window.width list.now }
    requires clear { T.refused tokens.old ≡ None }
    requires room { (taken : List TokenData) × T.stands_for tokens.old taken
        × (length taken ≤ 2 ^ 63) }
    ensures fed { IsFedAll (AreWalked problem.now window.width (raised_bound window.width bound)
        (lists_of list.now))
        (T.stands_for tokens.old) (T.stands_for tokens.new) (T.refused tokens.new) result }
    ensures nodes { IfOk result
        (λ n. n ≡ node_count problem.now (raised_bound window.width bound)) }
    ensures fault { IsFault result → HasFault (T.faults tokens.old) (T.faults tokens.new) }
    ensures counts { OnlyFaultRaises (T.faults tokens.old) (T.faults tokens.new) result }
    ensures over { T.over tokens.new ≡ T.over tokens.old }
{
    each_problem_has_written_tokens();
    nodes_have_few_tokens();
    let _known = problem.sites();
    let threshold = threshold_of(problem, window, bound);
    let guide = match Guide::new(alloc, problem, window, threshold, list) {
        Ok(guide) => guide,
        Err(Memory) => return Err(Stop::Memory),
    };
    walk_tree(alloc, &guide, tokens)
}

/// Gives a sink the tokens of a certificate of the ground list: how many nodes the search tree
/// has. The bound is the least certain energy, in 10^-12 V, or none where no list is certainly
/// valid; the tree is that under the bound.
pub fn walk<T: TokenSink>(
    alloc: Global,
    problem: &Problem,
    bound: Option<i64>,
    list: &GroundList,
    tokens: &mut T,
) -> Result<u64, Stop>
    requires bound { IsLeastCertain problem.now bound }
    requires few { node_count problem.now bound ≤ MAX_NODES }
    requires list { IsMarkedGroundList problem.now list.now }
    requires clear { T.refused tokens.old ≡ None }
    requires room { (taken : List TokenData) × T.stands_for tokens.old taken
        × (length taken ≤ 2 ^ 63) }
    ensures fed { IsFedAll (AreWalked problem.now (pos 0) bound (lists_of list.now))
        (T.stands_for tokens.old) (T.stands_for tokens.new) (T.refused tokens.new) result }
    ensures nodes { IfOk result (λ n. n ≡ node_count problem.now bound) }
    ensures fault { IsFault result → HasFault (T.faults tokens.old) (T.faults tokens.new) }
    ensures counts { OnlyFaultRaises (T.faults tokens.old) (T.faults tokens.new) result }
    ensures over { T.over tokens.new ≡ T.over tokens.old }
{
    marks_at_zero_are_ground_marks();
    ground_lists_have_written_tokens();
    walk_within(alloc, problem, window_of(0), bound, list, tokens)
}
