ghost use Rattle.std.specs.Prelude.{◌≡◌, ◌≢◌, [], IfOk, IfSome};
ghost use Rattle.charge_model.specs.declared.charge.Charge.TheVariants.{Pos};
ghost use Rattle.charge_model.specs.Rules.{IsChargeList};
ghost use Rattle.charge_model.specs.Tree.{IsAttained};
ghost use Rattle.incumbent.specs.Hunting.{IsHunt};

use charge_state::Charge;
use leaf_rules::{greatest_energy, is_certain};
use potential_problem::Problem;
use prefix_bound::Track;
use search_guesses::Guess;
use sidb_units::Memory;
use std::alloc::Global;

/// The best list so far, with the greatest energy of a certainly valid list once there is one, in
/// 10^-12 V at scale 1, and a track on which lists are tested.
#[derive(Drop)]
pub struct Hunt<'a> {
    pub track: Track<'a>,
    pub best: Guess,
    pub energy: Option<i64>,
}

/// The charge of a site, not positive in base 2.
fn charge_of(problem: &Problem, guess: &Guess, k: usize) -> Charge
    ensures { problem.now.base ≡ 2 → result ≢ Pos }
{
    let number = guess.number(k);
    if number < 0 {
        Charge::Neg
    } else if number > 0 && problem.base() == 3 {
        Charge::Pos
    } else {
        Charge::Neutral
    }
}

/// Takes all charges off.
fn clear(track: &mut Track, problem: &Problem)
    requires { track.old.problem ≡ problem.now }
    ensures problem { track.new.problem ≡ problem.now }
    ensures empty { track.new.prefix ≡ [] }
{
    for _taken in 0..track.len() {
        track.pop(problem);
    }
}

/// Puts the charges of a list on.
fn fill(track: &mut Track, problem: &Problem, guess: &Guess)
    requires problem { track.old.problem ≡ problem.now }
    requires empty { track.old.prefix ≡ [] }
    ensures problem { track.new.problem ≡ problem.now }
    ensures list { IsChargeList problem.now track.new.prefix }
{
    for k in 0..problem.sites() {
        let charge = charge_of(problem, guess, k);
        track.push(problem, charge);
    }
}

/// Brings the track to a list.
fn load(track: &mut Track, problem: &Problem, guess: &Guess)
    requires { track.old.problem ≡ problem.now }
    ensures problem { track.new.problem ≡ problem.now }
    ensures list { IsChargeList problem.now track.new.prefix }
{
    clear(track, problem);
    fill(track, problem, guess);
}

/// The greatest energy of the track's list, if it is certainly valid.
fn tested(alloc: Global, problem: &Problem, track: &Track) -> Result<Option<i64>, Memory>
    requires problem { track.now.problem ≡ problem.now }
    requires list { IsChargeList problem.now track.now.prefix }
    ensures { IfOk result (λ o. IfSome o (IsAttained problem.now)) }
{
    let certain = is_certain(alloc, problem, track)?;
    if !certain {
        return Ok(None);
    }
    let energy = greatest_energy(alloc, problem, track.charges())?;
    Ok(Some(energy))
}

/// The lesser of two attained energies.
fn lesser(_problem: &Problem, energy: i64, before: Option<i64>) -> i64
    requires energy { IsAttained _problem.now energy }
    requires before { IfSome before (IsAttained _problem.now) }
    ensures { IsAttained _problem.now result }
{
    match before {
        None => energy,
        Some(least) => { if energy < least { energy } else { least } }
    }
}

/// Whether a list seems better than the best so far.
fn is_better(hunt: &Hunt, guess: &Guess) -> bool {
    hunt.energy.is_none() || guess.energy < hunt.best.energy
}

/// Tests a list that seems better than the best so far, and takes it where it is certainly valid.
pub fn offer(hunt: &mut Hunt, alloc: Global, problem: &Problem, guess: &Guess) -> Result<(), Memory>
    requires { IsHunt problem.now hunt.old }
    ensures { IsHunt problem.now hunt.new }
{
    if !is_better(hunt, guess) {
        return Ok(());
    }
    load(&mut hunt.track, problem, guess);
    if let Some(energy) = tested(alloc, problem, &hunt.track)? {
        hunt.energy = Some(lesser(problem, energy, hunt.energy));
        hunt.best = *guess;
    }
    Ok(())
}
