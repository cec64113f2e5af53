ghost use Rattle.std.specs.Prelude.{◌≡◌, ◌≤◌, ◌^◌, List, length, None, IfOk};
ghost use Rattle.charge_model.specs.GroundList.{lists_of};
ghost use Rattle.charge_model.specs.Tree.{IsLeastCertain, node_count};
ghost use Rattle.sidb_io.specs.Outside.{HasFault};
ghost use Rattle.sidb_units.specs.declared.TheConstants.{MAX_NODES};
ghost use Rattle.window_model.specs.Windows.{IsWindow, IsMarkedWindowList};
ghost use Rattle.certificate_model.specs.declared.token.Token.{Token};
ghost use Rattle.token_sinks.specs.Taking.{IsFault, OnlyFaultRaises};
ghost use Rattle.walk_model.specs.Walks.{raised_bound, AreWalked};
ghost use Rattle.certificate_walk.specs.Walking.{IsFedAll};

use certificate_walk::walk_within;
use ground_entries::GroundList;
use potential_problem::Problem;
use std::alloc::Global;
use token_sinks::{Stop, TokenSink};
use window_model::window_of;

/// Gives a sink the tokens of a certificate of a window list: how many nodes the search tree has.
/// The bound is the least certain energy, and the window its width, both in 10^-12 V; the tree is
/// that under the bound and the window on top.
pub fn walk_window<T: TokenSink>(
    alloc: Global,
    problem: &Problem,
    bound: Option<i64>,
    window: i64,
    list: &GroundList,
    tokens: &mut T,
) -> Result<u64, Stop>
    requires window { IsWindow window }
    requires bound { IsLeastCertain problem.now bound }
    requires few { node_count problem.now (raised_bound window bound) ≤ MAX_NODES }
    requires list { IsMarkedWindowList problem.now window list.now }
    requires clear { T.refused tokens.old ≡ None }
    requires room { (taken : List Token) × T.stands_for tokens.old taken
        × (length taken ≤ 2 ^ 63) }
    ensures fed { IsFedAll (AreWalked problem.now window (raised_bound window bound)
        (lists_of list.now))
        (T.stands_for tokens.old) (T.stands_for tokens.new) (T.refused tokens.new) result }
    ensures nodes { IfOk result (λ n. n ≡ node_count problem.now (raised_bound window bound)) }
    ensures fault { IsFault result → HasFault (T.faults tokens.old) (T.faults tokens.new) }
    ensures counts { OnlyFaultRaises (T.faults tokens.old) (T.faults tokens.new) result }
    ensures over { T.over tokens.new ≡ T.over tokens.old }
{
    walk_within(alloc, problem, window_of(window), bound, list, tokens)
}
