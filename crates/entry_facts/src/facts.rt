ghost use Rattle.std.specs.Prelude.{◌≡◌, ◌↔◌, IsTrue, IfOk, MatchOption, All};
ghost use Rattle.charge_model.specs.Rules.{IsChargeList, IsPossiblyValid, IsCertainlyValid};
ghost use Rattle.charge_model.specs.GroundList.{lists_of};
ghost use Rattle.entry_facts.specs.Facts.{IsOwnFact, AreFacts, AreFactsOf, AreFactsOfEach};

use crate::energy::{ListEnergy, list_energy};
use crate::load::load;
use charge_model::laws::problems_have_tables;
use charge_state::Charges;
use charge_validity::laws::decided_lists_are_not_certain;
use charge_validity::own_mark;
use ground_entries::{GroundList, Mark};
use leaf_rules::{is_certain as is_certain_on, is_possible as is_possible_on};
use potential_problem::Problem;
use prefix_bound::Track;
use sidb_units::Memory;
use std::alloc::Global;

/// What is worked out once of a charge list: its energy, and where it is possibly valid the mark
/// by its own inequalities.
#[derive(Drop)]
pub struct EntryFacts {
    pub list: ListEnergy,
    pub own: Option<Mark>,
}

/// The mark of a track's list by its own inequalities, where it is possibly valid.
fn own_of(alloc: Global, problem: &Problem, track: &Track) -> Result<Option<Mark>, Memory>
    requires problem { track.now.problem ≡ problem.now }
    requires full { IsChargeList problem.now track.now.prefix }
    ensures { IfOk result (IsOwnFact problem.now track.now.prefix) }
{
    let possible = is_possible_on(alloc, problem, track)?;
    if !possible {
        return Ok(None);
    }
    let certain = is_certain_on(alloc, problem, track)?;
    if certain {
        return Ok(Some(Mark::Certain));
    }
    let mark = own_mark(alloc, problem, track.charges())?;
    Ok(Some(mark))
}

/// The facts of a charge list, by a track of the problem.
pub fn facts_of(
    alloc: Global,
    problem: &Problem,
    track: &mut Track,
    charges: &Charges,
) -> Result<EntryFacts, Memory>
    requires problem { track.old.problem ≡ problem.now }
    requires list { IsChargeList problem.now charges.now }
    ensures facts { IfOk result (AreFactsOf problem.now charges.now) }
    ensures problem { track.new.problem ≡ problem.now }
{
    load(problem, track, charges);
    let own = own_of(alloc, problem, track)?;
    let list = list_energy(alloc, problem, charges)?;
    Ok(EntryFacts { list, own })
}

/// The facts of each entry, in order.
pub fn all_facts(
    alloc: Global,
    problem: &Problem,
    list: &GroundList,
) -> Result<Vec<EntryFacts>, Memory>
    requires { All (IsChargeList problem.now) (lists_of list.now) }
    ensures { IfOk result (λ v. AreFactsOfEach problem.now (lists_of list.now) v.items) }
{
    let mut track = Track::new(alloc, problem)?;
    let mut facts = Vec::new(alloc);
    for j in 0..list.len() {
        let entry = facts_of(alloc, problem, &mut track, &list.entry(j).charges)?;
        facts.push(entry)?;
    }
    Ok(facts)
}

/// Whether a list is possibly valid.
pub fn is_possible_entry(problem: &Problem, facts: &EntryFacts) -> bool
    requires { AreFacts problem.now facts.now }
    ensures { IsTrue result ↔ IsPossiblyValid problem.now facts.now.list.charges }
{
    match facts.own {
        None => false,
        Some(_) => true,
    }
}

/// Whether a list is certainly valid.
pub fn is_certain(problem: &Problem, facts: &EntryFacts) -> bool
    requires { AreFacts problem.now facts.now }
    ensures { IsTrue result ↔ IsCertainlyValid problem.now facts.now.list.charges }
{
    problems_have_tables();
    decided_lists_are_not_certain();
    let _known = problem.sites();
    match facts.own {
        Some(Mark::Certain) => true,
        Some(Mark::Unresolved(_)) => false,
        None => false,
    }
}
