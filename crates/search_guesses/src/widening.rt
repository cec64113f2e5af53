use crate::couplings::Couplings;
use crate::guess::Guess;
use crate::row::SiteNumbers;
use sidb_units::Memory;
use std::alloc::Global;

/// How many prefixes of each length are kept.
const WIDTH: usize = 64;

/// What the sites past a prefix may add to each potential, and which sites may be positive.
#[derive(Clone, Copy)]
struct Rest {
    least: SiteNumbers,
    greatest: SiteNumbers,
    may: SiteNumbers,
}

/// A prefix, whose other sites are neutral, and a bound on its completions.
#[derive(Clone, Copy)]
struct GuessedPrefix {
    guess: Guess,
    bound: i64,
}

/// 1 for each site that may be positive.
fn positive_sites(couplings: &Couplings) -> SiteNumbers {
    let mut may = SiteNumbers::zero();
    for k in 0..couplings.sites {
        let mut least = couplings.fixed.get(k);
        for j in 0..couplings.sites {
            least = least.wrapping_sub(couplings.row(k).get(j));
        }
        if couplings.positive && least <= couplings.plus {
            may.add(k, 1);
        }
    }
    may
}

/// Adds what a site may add to each potential, or takes it away again.
fn add_site(rest: &mut Rest, couplings: &Couplings, j: usize, times: i64) {
    let row = couplings.row(j);
    let positive = times.wrapping_mul(rest.may.get(j));
    for k in 0..couplings.sites {
        let potential = row.get(k);
        rest.least
            .add(k, times.wrapping_mul(potential).wrapping_neg());
        rest.greatest.add(k, positive.wrapping_mul(potential));
    }
}

/// What all sites may add.
fn whole_rest(couplings: &Couplings) -> Rest {
    let mut rest = Rest {
        least: SiteNumbers::zero(),
        greatest: SiteNumbers::zero(),
        may: positive_sites(couplings),
    };
    for j in 0..couplings.sites {
        add_site(&mut rest, couplings, j, 1);
    }
    rest
}

/// Whether a site can have a number where its potential lies between these.
fn allows(couplings: &Couplings, number: i64, least: i64, greatest: i64) -> bool {
    if number < 0 {
        couplings.minus <= greatest
    } else if number > 0 {
        couplings.positive && least <= couplings.plus
    } else {
        couplings.plus <= greatest && least <= couplings.minus
    }
}

/// The lesser of an energy and those before.
fn lesser(cost: i64, before: Option<i64>) -> Option<i64> {
    match before {
        None => Some(cost),
        Some(least) => Some(if cost < least { cost } else { least }),
    }
}

/// The least that a site past the prefix may cost, or nothing where it can have no number.
fn cheapest(couplings: &Couplings, potential: i64, least: i64, greatest: i64) -> Option<i64> {
    let mut cost = None;
    if allows(couplings, -1, least, greatest) {
        cost = lesser(potential.wrapping_neg(), cost);
    }
    if allows(couplings, 0, least, greatest) {
        cost = lesser(0, cost);
    }
    if allows(couplings, 1, least, greatest) {
        cost = lesser(potential, cost);
    }
    cost
}

/// A bound on the completions of the first `depth` sites, or nothing where there is none.
fn bound_of(couplings: &Couplings, guess: &Guess, depth: usize, rest: &Rest) -> Option<i64> {
    let mut bound = guess.energy;
    for k in 0..couplings.sites {
        let potential = guess.potential(k);
        let least = potential.wrapping_add(rest.least.get(k));
        let greatest = potential.wrapping_add(rest.greatest.get(k));
        if k < depth {
            if !allows(couplings, guess.number(k), least, greatest) {
                return None;
            }
        } else {
            bound = bound.wrapping_add(cheapest(couplings, potential, least, greatest)?);
        }
    }
    Some(bound)
}

/// The place of the branch with the highest bound.
fn worst(branches: &[GuessedPrefix]) -> usize {
    let mut place = 0;
    let mut highest = i64::MIN;
    for (k, branch) in branches.iter().enumerate() {
        if highest < branch.bound {
            place = k;
            highest = branch.bound;
        }
    }
    place
}

/// Adds a branch, in place of the worst where there are enough.
fn keep(branches: &mut Vec<GuessedPrefix>, branch: GuessedPrefix) -> Result<(), Memory> {
    if branches.len() < WIDTH {
        branches.push(branch)?;
        return Ok(());
    }
    let place = worst(branches.as_slice());
    match branches.get_mut(place) {
        Some(other) => {
            if branch.bound < other.bound {
                *other = branch;
            }
        }
        None => {}
    }
    Ok(())
}

/// The best prefixes of one more site.
fn widened(
    alloc: Global,
    couplings: &Couplings,
    branches: &[GuessedPrefix],
    depth: usize,
    rest: &Rest,
) -> Result<Vec<GuessedPrefix>, Memory> {
    let mut next = Vec::new(alloc);
    for branch in branches {
        for number in [-1, 0, 1] {
            let mut guess = branch.guess;
            guess.set(couplings, depth, number);
            if let Some(bound) = bound_of(couplings, &guess, depth.saturating_add(1), rest) {
                keep(&mut next, GuessedPrefix { guess, bound })?;
            }
        }
    }
    Ok(next)
}

/// Lists that are found by adding site after site, with the best prefixes of each length.
pub fn wide_guesses(alloc: Global, couplings: &Couplings) -> Result<Vec<Guess>, Memory> {
    let mut rest = whole_rest(couplings);
    let mut branches = Vec::new(alloc);
    branches.push(GuessedPrefix {
        guess: Guess::neutral(couplings),
        bound: 0,
    })?;
    for depth in 0..couplings.sites {
        add_site(&mut rest, couplings, depth, -1);
        branches = widened(alloc, couplings, branches.as_slice(), depth, &rest)?;
    }
    let mut guesses = Vec::new(alloc);
    for branch in branches.as_slice() {
        guesses.push(branch.guess)?;
    }
    Ok(guesses)
}
