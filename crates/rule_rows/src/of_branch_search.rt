ghost use Rattle.std.specs.Prelude.{◌≤◌, ◌^◌, unsigned_abs};

use crate::counting::StepCounts;
use crate::meeting::Meeting;
use crate::problems::{two_neighbours, wide_five};
use branch_search::{Bound, LeafList, LeavesAnswer, RoundAnswer, least_bound, leaves, round};
use charge_state::Charge;
use potential_problem::{Levels, Problem, problem_of, span_between};
use sidb_io::{Event, NoGate};
use sidb_units::Memory;
use std::alloc::Global;
use std::test::Fail;
use std::thread::Threads;

/// One site.
fn one_site(alloc: Global) -> Result<Problem, Memory> {
    let levels = Levels {
        base: 3,
        mu_minus: -320_000_000_000,
        mu_plus: -910_000_000_000,
    };
    problem_of(alloc, 1, &[], &[], &levels)
}

/// Three sites without any potential, at which each charge is as good as any other.
fn three_apart(alloc: Global) -> Result<Problem, Memory> {
    let spans = [span_between(0, 0)];
    let levels = Levels {
        base: 3,
        mu_minus: 0,
        mu_plus: 0,
    };
    problem_of(alloc, 3, &[0, 0, 0], &spans, &levels)
}

/// Whether the first site of the first list is negative.
fn begins_negative(list: &LeafList) -> bool {
    if list.len() == 0 {
        return false;
    }
    let first = list.charges(0);
    first.len() > 0 && first.at(0) == Charge::Neg
}

/// Whether the least certain energy is 0 and is found within so many prefixes and no fewer, and
/// whether the tree under it has so many lists and nodes, the first list being negative.
fn has_tree<R: Threads + Sync>(
    rt: &R,
    alloc: Global,
    problem: &Problem,
    first: u64,
    lists: usize,
    nodes: u64,
) -> bool
    requires first { (2 ≤ first) × (first ≤ 100) }
    requires nodes { (2 ≤ nodes) × (nodes ≤ 100) }
{
    let found = least_bound(rt, alloc, problem, first, 1, &NoGate);
    let fewer = least_bound(rt, alloc, problem, first - 1, 16, &NoGate);
    let over = matches!(
        leaves(alloc, problem, Some(0), nodes - 1),
        LeavesAnswer::Budget
    );
    let listed = match leaves(alloc, problem, Some(0), nodes) {
        LeavesAnswer::Lists(list) => {
            list.len() == lists && list.nodes() == nodes && begins_negative(&list)
        }
        _ => false,
    };
    let bounds = matches!(found, Bound::Found(0)) && matches!(fewer, Bound::Budget);
    bounds && over && listed
}

/// One site is negative: its tree is the empty prefix and that list. The lists of three sites
/// apart are all valid: their tree has 1, 3, 9 and 27 prefixes. A search of it is over with the
/// first list, after the 13 shorter prefixes, as no other can have less energy.
#[test]
fn trees_have_their_nodes(rt: HostRuntime) -> Result<(), Fail> {
    let alloc = rt.alloc();
    let one = one_site(alloc)?;
    let three = three_apart(alloc)?;
    assert!(rt; has_tree(&rt, alloc, &one, 2, 1, 2));
    assert!(rt; has_tree(&rt, alloc, &three, 14, 27, 40));
    Ok(())
}

/// Rounds at the energy of the one site, below it, and over the limit.
#[test]
fn rounds_find_energies(rt: HostRuntime) -> Result<(), Fail> {
    let alloc = rt.alloc();
    let problem = one_site(alloc)?;
    let at = round(&rt, alloc, &problem, 0, 2, 1, &NoGate);
    assert!(rt; matches!(at, RoundAnswer::Done(Some(0))));
    let below = round(&rt, alloc, &problem, -1, 2, 1, &NoGate);
    assert!(rt; matches!(below, RoundAnswer::Done(None)));
    let over = round(&rt, alloc, &problem, 0, 1, 1, &NoGate);
    assert!(rt; matches!(over, RoundAnswer::Exceeded));
    Ok(())
}

/// One worker claims nine tasks and once more, and enters the one list that is below all others;
/// of two each claims, and both may enter a list before they see the other's energy.
#[test]
fn workers_step_on_the_board(rt: HostRuntime) -> Result<(), Fail> {
    let alloc = rt.alloc();
    let problem = two_neighbours(alloc)?;
    let alone = StepCounts::new();
    let answer = round(&rt, alloc, &problem, 0, 100, 1, &alone);
    assert!(rt; matches!(answer, RoundAnswer::Done(Some(0))));
    assert_eq!(rt; alone.claims(), (10, 0));
    assert_eq!(rt; alone.enters(), 1);
    assert_eq!(rt; alone.publishes(), 1);
    let both = StepCounts::new();
    let answer = round(&rt, alloc, &problem, 0, 100, 2, &both);
    assert!(rt; matches!(answer, RoundAnswer::Done(Some(0))));
    let (first, second) = both.claims();
    assert!(rt; first >= 1 && second >= 1 && both.all_claims() == 11);
    let enters = both.enters();
    assert!(rt; enters == 1 || enters == 2);
    assert_eq!(rt; both.publishes(), enters);
    Ok(())
}

/// Two workers are at work at the same time: each is before its first claim when the other is.
#[test]
fn two_workers_meet_before_they_claim(rt: HostRuntime) -> Result<(), Fail> {
    let alloc = rt.alloc();
    let problem = two_neighbours(alloc)?;
    let gate = Meeting::before(Event::Claim);
    let answer = round(&rt, alloc, &problem, 0, 5, 2, &gate);
    assert!(rt; matches!(answer, RoundAnswer::Done(Some(0))));
    assert!(rt; gate.is_over());
    Ok(())
}

/// Both workers have looked before either enters a list, so both lists are entered: with the empty
/// prefix and the two of one charge these are the five nodes, and one of the two passes a limit of
/// four.
#[test]
fn two_workers_enter_at_once(rt: HostRuntime) -> Result<(), Fail> {
    let alloc = rt.alloc();
    let problem = two_neighbours(alloc)?;
    let gate = Meeting::before(Event::Enter);
    let within = round(&rt, alloc, &problem, 0, 5, 2, &gate);
    assert!(rt; matches!(within, RoundAnswer::Done(Some(0))));
    assert!(rt; gate.is_over());
    let gate = Meeting::before(Event::Enter);
    let over = round(&rt, alloc, &problem, 0, 4, 2, &gate);
    assert!(rt; matches!(over, RoundAnswer::Exceeded));
    assert!(rt; gate.is_over());
    Ok(())
}

/// Whether so many workers claim each of 16 tasks once, and once more each; whether they enter so
/// many members of four and five charges, one time each; and whether they pass a limit of one node
/// fewer than there are.
fn enters_each_once<R: Threads + Sync>(
    rt: &R,
    alloc: Global,
    workers: u64,
    threshold: i64,
    nodes: u64,
    enters: u64,
) -> Result<bool, Memory>
    requires workers { (1 ≤ workers) × (workers ≤ 16) }
    requires threshold { unsigned_abs threshold ≤ 2 ^ 60 }
    requires nodes { (2 ≤ nodes) × (nodes ≤ 100) }
{
    let problem = wide_five(alloc)?;
    let gate = StepCounts::new();
    let within = round(rt, alloc, &problem, threshold, nodes, workers, &gate);
    let over = round(rt, alloc, &problem, threshold, nodes - 1, workers, &NoGate);
    let answers = matches!(within, RoundAnswer::Done(None))
        && matches!(over, RoundAnswer::Exceeded);
    let counts = gate.all_claims() == workers + 16 && gate.enters() == enters;
    Ok(answers && counts && gate.publishes() == 0)
}

/// In the tree of five sites with at most k negative charges there are as many members of j charges
/// as ways to choose up to k of j, but not the list of neutral charges alone. A low of 0 leaves one
/// negative charge, a low of 1 two, and a low of 3 three: 20, 40 and 55 nodes, of which 10, 26
/// and 40 have four or five charges.
#[test]
fn each_node_is_entered_once(rt: HostRuntime) -> Result<(), Fail> {
    let alloc = rt.alloc();
    for workers in [1, 2, 16] {
        assert!(rt; enters_each_once(&rt, alloc, workers, 0, 20, 10)?);
        assert!(rt; enters_each_once(&rt, alloc, workers, 1, 40, 26)?);
        assert!(rt; enters_each_once(&rt, alloc, workers, 3, 55, 40)?);
    }
    Ok(())
}

/// Whether so many workers find energy 0 of three sites apart and none below, and refuse a limit
/// that the members of fewer than three charges reach.
fn finds_with<R: Threads + Sync>(rt: &R, alloc: Global, problem: &Problem, workers: u64) -> bool
    requires { (1 ≤ workers) × (workers ≤ 16) }
{
    let at = round(rt, alloc, problem, 0, 100, workers, &NoGate);
    let below = round(rt, alloc, problem, -1, 100, workers, &NoGate);
    let found = least_bound(rt, alloc, problem, 100, workers, &NoGate);
    let refused = least_bound(rt, alloc, problem, 13, workers, &NoGate);
    let rounds = matches!(at, RoundAnswer::Done(Some(0)))
        && matches!(below, RoundAnswer::Done(None));
    rounds && matches!(found, Bound::Found(0)) && matches!(refused, Bound::Budget)
}

/// One, two and sixteen workers find the same.
#[test]
fn workers_change_no_answer(rt: HostRuntime) -> Result<(), Fail> {
    let alloc = rt.alloc();
    let problem = three_apart(alloc)?;
    assert!(rt; finds_with(&rt, alloc, &problem, 1));
    assert!(rt; finds_with(&rt, alloc, &problem, 2));
    assert!(rt; finds_with(&rt, alloc, &problem, 16));
    Ok(())
}
