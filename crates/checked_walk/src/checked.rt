ghost use Rattle.std.specs.Prelude.{◌≡◌, ◌≤◌, List, IfOk};
ghost use Rattle.charge_model.specs.GroundList.{lists_of};
ghost use Rattle.charge_model.specs.Tree.{IsLeastCertain, node_count};
ghost use Rattle.sidb_units.specs.declared.TheConstants.{MAX_NODES};
ghost use Rattle.window_model.specs.Windows.{IsMarkedWindowList};
ghost use Rattle.certificate_model.specs.declared.token.Token.{Token};
ghost use Rattle.certificate_model.specs.Certificates.{FitsProblem, IsSound};
ghost use Rattle.certificate_check.specs.Checking.{IsOpening};
ghost use Rattle.walk_model.specs.Walks.{raised_bound, AreWalked};
ghost use Rattle.checked_walk.specs.Checked.{HasSoundWalk};

use certificate_check::{CertRefusal, Checker};
use certificate_laws::laws::certificates_have_one_verdict;
use certificate_walk::walk_within;
use ground_entries::GroundList;
use potential_problem::Problem;
use sidb_units::Memory;
use std::alloc::Global;
use token_sinks::Stop;
use walk_model::laws::{each_problem_has_written_tokens, written_certificates_are_sound};
use window_model::Window;

/// A checker for a list that has a sound certificate.
fn checker_of<'a>(
    alloc: Global,
    problem: &'a Problem,
    window: Window,
    list: &'a GroundList,
) -> Result<Checker<'a>, Memory>
    requires fits { FitsProblem problem.now list.now }
    requires sound { (tokens : List Token) × IsSound problem.now window.width list.now tokens }
    ensures { IfOk result (IsOpening problem.now window.width list.now) }
{
    certificates_have_one_verdict();
    match Checker::within(alloc, problem, window, list) {
        Ok(checker) => Ok(checker),
        Err(refusal) => match refusal {
            CertRefusal::Memory => Err(Memory),
            _ => unreachable!(),
        },
    }
}

/// Walks into a checker, which finds the certificate sound: how many nodes the search tree has.
fn walk_into<'a>(
    alloc: Global,
    problem: &'a Problem,
    window: Window,
    bound: Option<i64>,
    list: &'a GroundList,
    mut checker: Checker<'a>,
) -> Result<u64, Memory>
    requires list { IsMarkedWindowList problem.now window.width list.now }
    requires bound { IsLeastCertain problem.now bound }
    requires few { node_count problem.now (raised_bound window.width bound) ≤ MAX_NODES }
    requires opening { IsOpening problem.now window.width list.now checker }
    requires sound { HasSoundWalk problem.now window.width bound list.now }
    ensures nodes { IfOk result
        (λ n. n ≡ node_count problem.now (raised_bound window.width bound)) }
{
    certificates_have_one_verdict();
    let walked = walk_within(alloc, problem, window, bound, list, &mut checker);
    let found = checker.finish();
    match walked {
        Err(stop) => match stop {
            Stop::Memory => Err(Memory),
            Stop::Fault => match found {
                Ok(()) => unreachable!(),
                Err(_) => unreachable!(),
            },
        },
        Ok(nodes) => match found {
            Ok(()) => Ok(nodes),
            Err(_) => unreachable!(),
        },
    }
}

/// The tokens that are written for a window list make a sound certificate.
fn has_sound_walk(problem: &Problem, _window: Window, _bound: Option<i64>, _list: &GroundList)
    requires bound { IsLeastCertain problem.now _bound }
    requires list { IsMarkedWindowList problem.now _window.width _list.now }
    ensures { HasSoundWalk problem.now _window.width _bound _list.now }
{
    each_problem_has_written_tokens();
    written_certificates_are_sound();
    let _known = problem.sites();
}

/// Walks into a checker of its own, which finds the certificate sound: how many nodes the search
/// tree has, up to the least certain energy and the window on top. Nothing but memory can fail.
pub fn walk_checked(
    alloc: Global,
    problem: &Problem,
    window: Window,
    bound: Option<i64>,
    list: &GroundList,
) -> Result<u64, Memory>
    requires list { IsMarkedWindowList problem.now window.width list.now }
    requires bound { IsLeastCertain problem.now bound }
    requires few { node_count problem.now (raised_bound window.width bound) ≤ MAX_NODES }
    ensures nodes { IfOk result
        (λ n. n ≡ node_count problem.now (raised_bound window.width bound)) }
    ensures sound { HasSoundWalk problem.now window.width bound list.now }
{
    has_sound_walk(problem, window, bound, list);
    let checker = checker_of(alloc, problem, window, list)?;
    walk_into(alloc, problem, window, bound, list, checker)
}
