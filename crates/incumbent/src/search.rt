ghost use Rattle.std.specs.Prelude.{◌≡◌, IfOk, IfSome};
ghost use Rattle.charge_model.specs.Tree.{IsAttained};
ghost use Rattle.incumbent.specs.Hunting.{IsHunt};

use crate::hunt::{Hunt, offer};
use charge_model::MAX_SITES;
use potential_problem::Problem;
use prefix_bound::Track;
use search_guesses::{Couplings, Guess, couplings_of, settle, wide_guesses};
use sidb_units::Memory;
use std::alloc::Global;

/// How often the best list is varied at each site.
const ROUNDS: usize = 8;

/// Each of how many sites has a number, from some first one on.
fn patterned(couplings: &Couplings, period: usize, first: usize) -> Guess {
    let mut guess = Guess::neutral(couplings);
    for k in 0..couplings.sites {
        if k.wrapping_sub(first).checked_rem(period) == Some(0) {
            guess.set(couplings, k, -1);
        }
    }
    guess
}

/// Offers a list as it settles.
fn offer_settled(
    hunt: &mut Hunt,
    alloc: Global,
    problem: &Problem,
    couplings: &Couplings,
    guess: &Guess,
) -> Result<(), Memory>
    requires { IsHunt problem.now hunt.old }
    ensures { IsHunt problem.now hunt.new }
{
    let mut settled = *guess;
    settle(couplings, &mut settled, MAX_SITES);
    offer(hunt, alloc, problem, &settled)
}

/// Offers lists that settle from simple ones: all neutral, all negative, every other one negative.
fn offer_simple(
    hunt: &mut Hunt,
    alloc: Global,
    problem: &Problem,
    couplings: &Couplings,
) -> Result<(), Memory>
    requires { IsHunt problem.now hunt.old }
    ensures { IsHunt problem.now hunt.new }
{
    for period in 0..4 {
        for first in 0..period {
            let guess = patterned(couplings, period, first);
            offer_settled(hunt, alloc, problem, couplings, &guess)?;
        }
    }
    offer_settled(hunt, alloc, problem, couplings, &Guess::neutral(couplings))
}

/// Offers lists that are found by adding site after site, as they are and as they settle.
fn offer_wide(
    hunt: &mut Hunt,
    alloc: Global,
    problem: &Problem,
    couplings: &Couplings,
) -> Result<(), Memory>
    requires { IsHunt problem.now hunt.old }
    ensures { IsHunt problem.now hunt.new }
{
    let guesses = wide_guesses(alloc, couplings)?;
    for guess in guesses.as_slice() {
        offer(hunt, alloc, problem, guess)?;
        offer_settled(hunt, alloc, problem, couplings, guess)?;
    }
    Ok(())
}

/// Offers the best list as it settles after one site was given a number.
fn offer_varied(
    hunt: &mut Hunt,
    alloc: Global,
    problem: &Problem,
    couplings: &Couplings,
    site: usize,
    number: i64,
) -> Result<(), Memory>
    requires { IsHunt problem.now hunt.old }
    ensures { IsHunt problem.now hunt.new }
{
    let mut guess = hunt.best;
    guess.set(couplings, site, number);
    settle(couplings, &mut guess, site);
    offer_settled(hunt, alloc, problem, couplings, &guess)
}

/// Offers the best list varied at each site.
fn offer_round(
    hunt: &mut Hunt,
    alloc: Global,
    problem: &Problem,
    couplings: &Couplings,
) -> Result<(), Memory>
    requires { IsHunt problem.now hunt.old }
    ensures { IsHunt problem.now hunt.new }
{
    for site in 0..couplings.sites {
        offer_varied(hunt, alloc, problem, couplings, site, -1)?;
        offer_varied(hunt, alloc, problem, couplings, site, 0)?;
        if couplings.positive {
            offer_varied(hunt, alloc, problem, couplings, site, 1)?;
        }
    }
    Ok(())
}

/// Varies the best list until that gives no better one.
fn offer_rounds(
    hunt: &mut Hunt,
    alloc: Global,
    problem: &Problem,
    couplings: &Couplings,
) -> Result<(), Memory>
    requires { IsHunt problem.now hunt.old }
    ensures { IsHunt problem.now hunt.new }
{
    for _round in 0..ROUNDS {
        let before = hunt.best.energy;
        offer_round(hunt, alloc, problem, couplings)?;
        if hunt.best.energy == before {
            return Ok(());
        }
    }
    Ok(())
}

/// The greatest energy at scale 1, in 10^-12 V, of a certainly valid list that a short search
/// found, if it found one. Nothing is promised of how low it is.
pub fn certain_energy(alloc: Global, problem: &Problem) -> Result<Option<i64>, Memory>
    ensures { IfOk result (λ o. IfSome o (IsAttained problem.now)) }
{
    let couplings = couplings_of(alloc, problem)?;
    let mut hunt = Hunt {
        track: Track::new(alloc, problem)?,
        best: Guess::neutral(&couplings),
        energy: None,
    };
    offer_simple(&mut hunt, alloc, problem, &couplings)?;
    offer_wide(&mut hunt, alloc, problem, &couplings)?;
    if hunt.energy.is_some() {
        offer_rounds(&mut hunt, alloc, problem, &couplings)?;
    }
    Ok(hunt.energy)
}
