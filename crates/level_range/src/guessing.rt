// A list that beats most others at a level, tried before the others: what it finds is not promised.
ghost use Rattle.std.specs.Prelude.{◌<◌, length, IfSome};

use level_candidates::{LevelCandidate, includes};
use prefix_extremes::Amount;

/// Whether candidate i has a lower greatest energy than the best so far, or none is there so far.
fn is_better(all: &[LevelCandidate], i: usize, best: Option<usize>) -> bool
    requires place { i < length all.now }
    requires best { IfSome best (λ k. k < length all.now) }
{
    match best {
        None => true,
        Some(k) => all[i].span.hi < all[k].span.hi,
    }
}

/// The place of a list with the lowest greatest energy among those that are certainly valid at a
/// level.
pub fn best_at(all: &[LevelCandidate], level: Amount) -> Option<usize>
    ensures { IfSome result (λ k. k < length all.now) }
{
    let mut best = None;
    for i in 0..all.len() {
        if includes(all[i].ends.certain, level) && is_better(all, i, best) {
            best = Some(i);
        }
    }
    best
}
