ghost use Rattle.std.specs.Prelude.{◌↔◌, pos, IfOk, IfSome, IsNone};
ghost use Rattle.candidate_marks.specs.Candidates.{AreContenders};
ghost use Rattle.candidate_marks.specs.Found.{IsFound};
ghost use Rattle.narrower_laws.specs.Narrower.{IsNarrower};
ghost use Rattle.ground_state.specs.Answer.{IsListedWithin};
ghost use Rattle.narrower_lists.specs.Listed.{IsWholeOf};

use crate::narrower::is_narrower;
use crate::possible::possible_entries;
use crate::solved::SolvedProblem;
use candidate_marks::{Candidate, ground_list_of};
use certain_energy_laws::laws::least_certain_energies_exist;
use charge_model::laws::problems_have_tables;
use ground_entries::GroundList;
use narrower_laws::laws::{
    narrower_ground_lists_are_no_longer, narrower_problems_take_no_more_nodes,
    staying_lists_are_listed,
};
use potential_problem::Problem;
use sidb_units::Memory;
use std::alloc::Global;
use window_laws::laws::window_lists_at_zero_are_ground_lists;

/// The entries of a wider problem that are possibly valid in a problem: each list that no list
/// beats there is among them, and one that none of them beats is beaten by no list.
fn contenders(
    alloc: Global,
    whole: &SolvedProblem,
    problem: &Problem,
) -> Result<Vec<Candidate>, Memory>
    requires { IsNarrower whole.now.problem problem.now }
    ensures { IfOk result (λ v. AreContenders problem.now (pos 0) v.items) }
{
    problems_have_tables();
    staying_lists_are_listed();
    window_lists_at_zero_are_ground_lists();
    let _sites = problem.sites();
    let list = whole.list();
    let possible = possible_entries(alloc, problem, list)?;
    Ok(possible)
}

/// The ground list of a narrower problem with its marks.
fn narrower_list(
    alloc: Global,
    whole: &SolvedProblem,
    problem: &Problem,
) -> Result<GroundList, Memory>
    requires { IsNarrower whole.now.problem problem.now }
    ensures { IfOk result (IsListedWithin problem.now whole.now.limit) }
{
    least_certain_energies_exist();
    narrower_ground_lists_are_no_longer();
    narrower_problems_take_no_more_nodes();
    let _sites = problem.sites();
    let _list = whole.list();
    let contenders = contenders(alloc, whole, problem)?;
    match ground_list_of(alloc, problem, contenders)? {
        Some(list) => Ok(list),
        None => unreachable!(),
    }
}

/// The ground list of a problem with its marks, found within a limit of nodes: what stays of the
/// list of a wider problem that was found within the same limit, or None where the problem is not
/// narrower or the limit another.
pub fn list_out_of(
    alloc: Global,
    whole: &SolvedProblem,
    problem: &Problem,
    limit: u64,
) -> Result<Option<GroundList>, Memory>
    ensures found { IfOk result (λ o. IfSome o (IsListedWithin problem.now limit)) }
    ensures none { IfOk result
        (λ o. IsNone o ↔ (IsWholeOf whole.now problem.now limit → ⊥)) }
{
    if limit != whole.limit() || !is_narrower(whole.problem(), problem) {
        return Ok(None);
    }
    let list = narrower_list(alloc, whole, problem)?;
    Ok(Some(list))
}
