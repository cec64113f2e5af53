ghost use Rattle.std.specs.Prelude.{◌≤◌};

use charge_state::Charges;
use potential_problem::{Levels, Problem, problem_of, span_between};
use shared_leaves::leaves_shared;
use sidb_units::Memory;
use std::alloc::Global;
use std::test::Fail;
use std::thread::Threads;
use tree_leaves::{LeafList, LeavesAnswer, leaves};

/// Six sites without any potential, at which each charge is as good as any other.
fn six_apart(alloc: Global) -> Result<Problem, Memory> {
    let spans = [span_between(0, 0)];
    let levels = Levels {
        base: 3,
        mu_minus: 0,
        mu_plus: 0,
    };
    problem_of(alloc, 6, &[0; 15], &spans, &levels)
}

/// Whether two lists have the same charges.
fn are_same_charges(one: &Charges, other: &Charges) -> bool {
    if one.len() != other.len() {
        return false;
    }
    for i in 0..one.len() {
        if one.at(i) != other.at(i) {
            return false;
        }
    }
    true
}

/// Whether the same lists were found in the same order, with the same count of nodes.
fn are_same_leaves(one: &LeafList, other: &LeafList) -> bool {
    if one.len() != other.len() || one.nodes() != other.nodes() {
        return false;
    }
    for k in 0..one.len() {
        if !are_same_charges(one.charges(k), other.charges(k)) {
            return false;
        }
    }
    true
}

/// Whether the tree has so many lists and nodes, which one thread and several find alike, and is
/// refused where one node fewer is allowed.
fn has_leaves<R: Threads + Sync>(
    rt: &R,
    alloc: Global,
    problem: &Problem,
    lists: usize,
    nodes: u64,
) -> bool
    requires { (2 ≤ nodes) × (nodes ≤ 10000) }
{
    let fewer = leaves_shared(rt, alloc, problem, Some(0), nodes - 1);
    let LeavesAnswer::Lists(shared) = leaves_shared(rt, alloc, problem, Some(0), nodes) else {
        return false;
    };
    let LeavesAnswer::Lists(alone) = leaves(alloc, problem, Some(0), nodes) else {
        return false;
    };
    let counted = shared.len() == lists && shared.nodes() == nodes;
    counted && are_same_leaves(&shared, &alone) && matches!(fewer, LeavesAnswer::Budget)
}

/// All lists of six sites apart are valid: their tree has 1, 3, 9 and on to 729 prefixes. Each of
/// the 243 prefixes of five charges is searched by itself.
#[test]
fn leaves_are_found_side_by_side(rt: HostRuntime) -> Result<(), Fail> {
    let alloc = rt.alloc();
    let problem = six_apart(alloc)?;
    assert!(rt; has_leaves(&rt, alloc, &problem, 729, 1093));
    Ok(())
}
