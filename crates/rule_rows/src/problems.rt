ghost use Rattle.std.specs.Prelude.{◌≡◌, ◌⊎◌, IfOk};

use potential_problem::{Levels, Problem, problem_of, span_between};
use sidb_units::Memory;
use std::alloc::Global;

/// Three neighbours along a row of silicon, at the preset levels.
pub fn neighbours(alloc: Global, base: u64) -> Result<Problem, Memory>
    requires { (base ≡ 2) ⊎ (base ≡ 3) }
    ensures sites { IfOk result (λ p. p.sites ≡ 3) }
    ensures base { IfOk result (λ p. p.base ≡ base) }
{
    let spans = [
        span_between(620_124_254_312, 620_124_254_313),
        span_between(287_140_799_939, 287_140_799_940),
    ];
    let levels = Levels {
        base,
        mu_minus: -320_000_000_000,
        mu_plus: -910_000_000_000,
    };
    problem_of(alloc, 3, &[0, 1, 0], &spans, &levels)
}

/// Two neighbours along a row.
pub fn two_neighbours(alloc: Global) -> Result<Problem, Memory> {
    let spans = [span_between(620_124_254_312, 620_124_254_313)];
    let levels = Levels {
        base: 3,
        mu_minus: -320_000_000_000,
        mu_plus: -910_000_000_000,
    };
    problem_of(alloc, 2, &[0], &spans, &levels)
}

/// Three sites, of which the first and the last have a potential from 50 to 52.
pub fn apart(alloc: Global) -> Result<Problem, Memory>
    ensures sites { IfOk result (λ p. p.sites ≡ 3) }
    ensures base { IfOk result (λ p. p.base ≡ 3) }
{
    let spans = [
        span_between(50, 50),
        span_between(50, 52),
        span_between(51, 51),
    ];
    let levels = Levels {
        base: 3,
        mu_minus: -60,
        mu_plus: -1000,
    };
    problem_of(alloc, 3, &[0, 1, 2], &spans, &levels)
}

/// Two sites of which no list is certainly valid, as their potential is from 1 to 3.
pub fn wide_pair(alloc: Global) -> Result<Problem, Memory>
    ensures sites { IfOk result (λ p. p.sites ≡ 2) }
    ensures base { IfOk result (λ p. p.base ≡ 3) }
{
    let levels = Levels {
        base: 3,
        mu_minus: -2,
        mu_plus: -590_000_000_002,
    };
    problem_of(alloc, 2, &[0], &[span_between(1, 3)], &levels)
}

/// Five sites in base 2, each pair with a potential from 1 to 3. No list is certainly valid: two
/// negative charges may be too near, and beside one alone a neutral site may be too far. Up to
/// three negative charges are possible.
pub fn wide_five(alloc: Global) -> Result<Problem, Memory> {
    let levels = Levels {
        base: 2,
        mu_minus: -2,
        mu_plus: -590_000_000_002,
    };
    let classes = [0, 0, 0, 0, 0, 0, 0, 0, 0, 0];
    problem_of(alloc, 5, &classes, &[span_between(1, 3)], &levels)
}
