ghost use Rattle.std.specs.Prelude.{◌≡◌, ◌<◌, ◌↔◌, [], length, map, All, IfOk, IfSome, IsTrue, slice_index_or};
ghost use Rattle.charge_model.specs.GroundList.{IsGroundList, IsListed, IsCertain};
ghost use Rattle.level_range_laws.specs.Levels.{IsIn, at_level};
ghost use Rattle.level_range_laws.specs.Answers.{IsAnswerAt, lists_of_outcomes};
ghost use Rattle.level_candidates.specs.Candidates.{AreCandidates, lists_of_level_candidates};
ghost use Rattle.level_range.specs.Seen.{outcome_of};
ghost use Rattle.level_range.specs.Answering.{picked};

use crate::entries::PartEntry;
use crate::guessing::best_at;
use charge_model::laws::problems_have_tables;
use level_candidates::{Interval, LevelCandidate, includes, is_lower, is_never_above};
use potential_problem::Problem;
use prefix_extremes::Amount;
use sidb_units::Memory;
use std::alloc::Global;

/// Whether candidate i is certainly valid at a level, and has less energy than candidate k under
/// every table.
fn is_beaten_by(
    alloc: Global,
    problem: &Problem,
    all: &[LevelCandidate],
    _levels: Interval,
    level: Amount,
    i: usize,
    k: usize,
) -> Result<bool, Memory>
    requires all { AreCandidates problem.now _levels all.now }
    requires level { IsIn _levels level.value }
    requires winner { i < length all.now }
    requires place { k < length all.now }
    ensures { IfOk result (λ b. IsTrue b → IsListed (at_level problem.now level.value)
        (slice_index_or (lists_of_level_candidates all.now) k []) → ⊥) }
{
    let winner = &all[i];
    let list = &all[k];
    if !includes(winner.ends.certain, level) {
        return Ok(false);
    }
    let lower = is_lower(alloc, problem, winner, list)?;
    Ok(lower)
}

/// Whether candidate k is in the ground list at a level: possibly valid there, and no list that is
/// certainly valid there has less energy under every table.
fn is_listed_at(
    alloc: Global,
    problem: &Problem,
    all: &[LevelCandidate],
    _levels: Interval,
    level: Amount,
    k: usize,
) -> Result<bool, Memory>
    requires all { AreCandidates problem.now _levels all.now }
    requires level { IsIn _levels level.value }
    requires place { k < length all.now }
    ensures { IfOk result (λ b. IsTrue b
        ↔ IsListed (at_level problem.now level.value)
        (slice_index_or (lists_of_level_candidates all.now) k [])) }
{
    problems_have_tables();
    let _known = problem.sites();
    let list = &all[k];
    if !includes(list.ends.possible, level) {
        return Ok(false);
    }
    for i in 0..all.len() {
        let winner = &all[i];
        if includes(winner.ends.certain, level) && is_lower(alloc, problem, winner, list)? {
            return Ok(false);
        }
    }
    Ok(true)
}

/// The same; one list, where there is one, is tried before all.
fn is_listed_trying(
    alloc: Global,
    problem: &Problem,
    all: &[LevelCandidate],
    levels: Interval,
    level: Amount,
    guess: Option<usize>,
    k: usize,
) -> Result<bool, Memory>
    requires all { AreCandidates problem.now levels all.now }
    requires level { IsIn levels level.value }
    requires guess { IfSome guess (λ i. i < length all.now) }
    requires place { k < length all.now }
    ensures { IfOk result (λ b. IsTrue b
        ↔ IsListed (at_level problem.now level.value)
        (slice_index_or (lists_of_level_candidates all.now) k [])) }
{
    if let Some(i) = guess {
        if includes(all[k].ends.possible, level)
            && is_beaten_by(alloc, problem, all, levels, level, i, k)?
        {
            return Ok(false);
        }
    }
    is_listed_at(alloc, problem, all, levels, level, k)
}

/// The places of the candidates that are in the ground list at a level.
fn listed_at(
    alloc: Global,
    problem: &Problem,
    all: &[LevelCandidate],
    levels: Interval,
    level: Amount,
) -> Result<Vec<usize>, Memory>
    requires all { AreCandidates problem.now levels all.now }
    requires level { IsIn levels level.value }
    ensures ground { IfOk result
        (λ v. IsGroundList (at_level problem.now level.value) (picked all.now v.items)) }
    ensures places { IfOk result (λ v. All (λ k. k < length all.now) v.items) }
{
    problems_have_tables();
    let _known = problem.sites();
    let guess = best_at(all, level);
    let mut places = Vec::new(alloc);
    for k in 0..all.len() {
        if is_listed_trying(alloc, problem, all, levels, level, guess, k)? {
            places.push(k)?;
        }
    }
    Ok(places)
}

/// Whether candidate k is certain in the list of these: certainly valid at a level, and under every
/// table of at most the energy of each.
fn is_certain_at(
    alloc: Global,
    problem: &Problem,
    all: &[LevelCandidate],
    _levels: Interval,
    level: Amount,
    places: &[usize],
    k: usize,
) -> Result<bool, Memory>
    requires all { AreCandidates problem.now _levels all.now }
    requires level { IsIn _levels level.value }
    requires places { All (λ j. j < length all.now) places.now }
    requires place { k < length all.now }
    ensures { IfOk result (λ b. IsTrue b ↔ IsCertain (at_level problem.now level.value)
        (picked all.now places.now) (slice_index_or (lists_of_level_candidates all.now) k [])) }
{
    let list = &all[k];
    if !includes(list.ends.certain, level) {
        return Ok(false);
    }
    for i in 0..places.len() {
        if !is_never_above(alloc, problem, list, &all[places[i]])? {
            return Ok(false);
        }
    }
    Ok(true)
}

/// The entries of the candidates in these places, each with whether it is certain in their list.
fn entries_of(
    alloc: Global,
    problem: &Problem,
    all: &[LevelCandidate],
    levels: Interval,
    level: Amount,
    places: &[usize],
) -> Result<Vec<PartEntry>, Memory>
    requires all { AreCandidates problem.now levels all.now }
    requires level { IsIn levels level.value }
    requires places { All (λ j. j < length all.now) places.now }
    ensures lists { IfOk result
        (λ v. lists_of_outcomes (map outcome_of v.items) ≡ picked all.now places.now) }
    ensures certain { IfOk result (λ v. All (λ o. IsTrue o.certain
        ↔ IsCertain (at_level problem.now level.value) (picked all.now places.now) o.charges)
        (map outcome_of v.items)) }
{
    let mut entries = Vec::new(alloc);
    for i in 0..places.len() {
        let certain = is_certain_at(alloc, problem, all, levels, level, places, places[i])?;
        let charges = all[places[i]].charges.copy();
        entries.push(PartEntry { charges, certain })?;
    }
    Ok(entries)
}

/// The ground list at a level, each entry with whether it is certain.
pub fn answer_at(
    alloc: Global,
    problem: &Problem,
    all: &[LevelCandidate],
    levels: Interval,
    level: Amount,
) -> Result<Vec<PartEntry>, Memory>
    requires all { AreCandidates problem.now levels all.now }
    requires level { IsIn levels level.value }
    ensures { IfOk result
        (λ v. IsAnswerAt problem.now level.value (map outcome_of v.items)) }
{
    let places = listed_at(alloc, problem, all, levels, level)?;
    let entries = entries_of(alloc, problem, all, levels, level, places.as_slice())?;
    Ok(entries)
}
