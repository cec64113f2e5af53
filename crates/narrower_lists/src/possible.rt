ghost use Rattle.std.specs.Prelude.{All, AllPairs, IfOk, MatchOption};
ghost use Rattle.charge_model.specs.Charges.{IsBefore};
ghost use Rattle.charge_model.specs.Rules.{IsChargeList, IsPossiblyValid};
ghost use Rattle.charge_model.specs.GroundList.{lists_of};
ghost use Rattle.candidate_marks.specs.Candidates.{IsWeighedList};
ghost use Rattle.narrower_lists.specs.Possible.{ArePossible};

use candidate_marks::{Candidate, candidate_of};
use charge_state::Charges;
use charge_validity::is_possible;
use ground_entries::GroundList;
use potential_problem::Problem;
use sidb_units::Memory;
use std::alloc::Global;

/// A list with its mark and its energy, if it is possibly valid.
fn weighed(alloc: Global, problem: &Problem, charges: &Charges) -> Result<Option<Candidate>, Memory>
    requires { IsChargeList problem.now charges.now }
    ensures { IfOk result (λ o. MatchOption o (¬ IsPossiblyValid problem.now charges.now)
        (IsWeighedList problem.now charges.now)) }
{
    if !is_possible(alloc, problem, charges)? {
        return Ok(None);
    }
    let candidate = candidate_of(alloc, problem, charges)?;
    Ok(Some(candidate))
}

/// The entries of a list that are possibly valid in a problem, in order.
pub fn possible_entries(
    alloc: Global,
    problem: &Problem,
    list: &GroundList,
) -> Result<Vec<Candidate>, Memory>
    requires order { AllPairs IsBefore (lists_of list.now) }
    requires lists { All (IsChargeList problem.now) (lists_of list.now) }
    ensures { IfOk result (λ v. ArePossible problem.now (lists_of list.now) v.items) }
{
    let mut found = Vec::new(alloc);
    for k in 0..list.len() {
        match weighed(alloc, problem, &list.entry(k).charges)? {
            Some(candidate) => found.push(candidate)?,
            None => {}
        }
    }
    Ok(found)
}
