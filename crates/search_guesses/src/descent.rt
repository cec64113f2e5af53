use crate::couplings::Couplings;
use crate::guess::Guess;

/// A change of one site, and what it costs.
#[derive(Clone, Copy)]
struct SiteChange {
    site: usize,
    by: i64,
    cost: i64,
}

/// A hop, and what it costs.
#[derive(Clone, Copy)]
struct Hop {
    to: usize,
    from: usize,
    cost: i64,
}

/// The change of a site by one that its tests call for: it costs less than 0 where a test fails.
fn site_step(couplings: &Couplings, guess: &Guess, site: usize) -> SiteChange {
    let potential = guess.potential(site);
    let number = guess.number(site);
    let (by, cost) = if number < 0 {
        (1, potential.wrapping_sub(couplings.minus))
    } else if number > 0 {
        (-1, couplings.plus.wrapping_sub(potential))
    } else if potential > couplings.minus {
        (-1, couplings.minus.wrapping_sub(potential))
    } else if couplings.positive {
        (1, potential.wrapping_sub(couplings.plus))
    } else {
        (0, 0)
    };
    SiteChange { site, by, cost }
}

/// The cheapest change of a site other than the one that is kept.
fn best_step(couplings: &Couplings, guess: &Guess, kept: usize) -> SiteChange {
    let mut best = SiteChange {
        site: kept,
        by: 0,
        cost: 0,
    };
    for i in 0..couplings.sites {
        let step = site_step(couplings, guess, i);
        if i != kept && step.cost < best.cost {
            best = step;
        }
    }
    best
}

/// The cheaper of a hop and the hops to one site.
fn best_hop_to(couplings: &Couplings, guess: &Guess, kept: usize, to: usize, hop: Hop) -> Hop {
    let mut best = hop;
    let row = couplings.row(to);
    let number = guess.number(to);
    let potential = guess.potential(to);
    for from in 0..couplings.sites {
        let cost = potential
            .wrapping_sub(guess.potential(from))
            .wrapping_sub(row.get(from));
        if cost < best.cost && number < guess.number(from) && from != kept {
            best = Hop { to, from, cost };
        }
    }
    best
}

/// The cheapest hop that leaves one site as it is.
fn best_hop(couplings: &Couplings, guess: &Guess, kept: usize) -> Hop {
    let mut best = Hop {
        to: kept,
        from: kept,
        cost: 0,
    };
    for to in 0..couplings.sites {
        if to != kept {
            best = best_hop_to(couplings, guess, kept, to, best);
        }
    }
    best
}

/// Makes the cheapest change, or else the cheapest hop; false where none costs less than 0.
fn improve(couplings: &Couplings, guess: &mut Guess, kept: usize) -> bool {
    let step = best_step(couplings, guess, kept);
    if step.cost < 0 {
        guess.change(couplings, step.site, step.by);
        return true;
    }
    let hop = best_hop(couplings, guess, kept);
    if hop.cost < 0 {
        guess.change(couplings, hop.to, 1);
        guess.change(couplings, hop.from, -1);
        return true;
    }
    false
}

/// The most changes that are made before a list is left as it is.
const MOST_CHANGES: usize = 256;

/// Changes sites other than the one that is kept until no test fails and no hop lowers the energy.
pub fn settle(couplings: &Couplings, guess: &mut Guess, kept: usize) {
    for _change in 0..MOST_CHANGES {
        if !improve(couplings, guess, kept) {
            return;
        }
    }
}
