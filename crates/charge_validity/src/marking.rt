ghost use Rattle.std.specs.Prelude.{◌≡◌, ◌<◌, ◌↔◌, ℕ, IsTrue, IfOk, MatchOption};
ghost use Rattle.charge_model.specs.Rules.{IsChargeList, IsPossiblyValid};
ghost use Rattle.charge_validity.specs.OwnMarks.{AreTestsCertain, AreHopsCertain, IsHopCertain, BreaksHop, IsFirstHopTo, AreAllTestsCertain, AreAllHopsCertain, IsOwnDeciding, IsOwnMark};

use crate::validity::is_hop;
use charge_model::{Deciding, Mark};
use charge_state::Charges;
use hop_rule::{HopVerdict, hop};
use population_rule::{PopulationVerdict, population};
use potential_problem::{Problem, Span};
use sidb_units::Memory;
use std::alloc::Global;

/// The first test that some table breaks.
fn first_test(
    alloc: Global,
    problem: &Problem,
    charges: &Charges,
) -> Result<Option<Deciding>, Memory>
    requires list { IsChargeList problem.now charges.now }
    requires possible { IsPossiblyValid problem.now charges.now }
    ensures { IfOk result (λ o. MatchOption o (AreAllTestsCertain problem.now charges.now)
        (IsOwnDeciding problem.now charges.now)) }
{
    for i in 0..problem.sites() {
        match population(alloc, problem, charges, i)? {
            PopulationVerdict::Always => {}
            PopulationVerdict::Never => unreachable!(),
            PopulationVerdict::Depends(test, span) => {
                return Ok(Some(Deciding::Population(i, test, span)));
            }
        }
    }
    Ok(None)
}

/// The span of the slack of the hop from site `j` to site `i`, if it is a hop that some table
/// breaks.
fn broken_hop(
    alloc: Global,
    problem: &Problem,
    charges: &Charges,
    i: usize,
    j: usize,
) -> Result<Option<Span>, Memory>
    requires list { IsChargeList problem.now charges.now }
    requires possible { IsPossiblyValid problem.now charges.now }
    requires i { i < problem.now.sites }
    requires j { j < problem.now.sites }
    ensures { IfOk result (λ o. MatchOption o (IsHopCertain problem.now charges.now i j)
        (BreaksHop problem.now charges.now i j)) }
{
    if !is_hop(charges, i, j) {
        return Ok(None);
    }
    match hop(alloc, problem, charges, i, j)? {
        HopVerdict::Always => Ok(None),
        HopVerdict::Never => unreachable!(),
        HopVerdict::Depends(span) => Ok(Some(span)),
    }
}

/// The first hop to site `i` that some table breaks.
fn first_hop_to(
    alloc: Global,
    problem: &Problem,
    charges: &Charges,
    i: usize,
) -> Result<Option<Deciding>, Memory>
    requires list { IsChargeList problem.now charges.now }
    requires possible { IsPossiblyValid problem.now charges.now }
    requires site { i < problem.now.sites }
    ensures { IfOk result (λ o. MatchOption o (AreHopsCertain problem.now charges.now i)
        (IsFirstHopTo problem.now charges.now i)) }
{
    for j in 0..problem.sites() {
        if let Some(span) = broken_hop(alloc, problem, charges, i, j)? {
            return Ok(Some(Deciding::Hop(i, j, span)));
        }
    }
    Ok(None)
}

/// The first hop that some table breaks, where every table keeps all tests.
fn first_hop(
    alloc: Global,
    problem: &Problem,
    charges: &Charges,
) -> Result<Option<Deciding>, Memory>
    requires list { IsChargeList problem.now charges.now }
    requires possible { IsPossiblyValid problem.now charges.now }
    requires tests { AreAllTestsCertain problem.now charges.now }
    ensures { IfOk result (λ o. MatchOption o (AreAllHopsCertain problem.now charges.now)
        (IsOwnDeciding problem.now charges.now)) }
{
    for i in 0..problem.sites() {
        if let Some(hop) = first_hop_to(alloc, problem, charges, i)? {
            return Ok(Some(hop));
        }
    }
    Ok(None)
}

/// The mark of a possibly valid list by its own inequalities: certain where every table keeps
/// them, else the first that some table breaks.
pub fn own_mark(alloc: Global, problem: &Problem, charges: &Charges) -> Result<Mark, Memory>
    requires list { IsChargeList problem.now charges.now }
    requires possible { IsPossiblyValid problem.now charges.now }
    ensures { IfOk result (IsOwnMark problem.now charges.now) }
{
    if let Some(test) = first_test(alloc, problem, charges)? {
        return Ok(Mark::Unresolved(test));
    }
    match first_hop(alloc, problem, charges)? {
        Some(hop) => Ok(Mark::Unresolved(hop)),
        None => Ok(Mark::Certain),
    }
}
