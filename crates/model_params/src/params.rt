ghost use Rattle.std.specs.Prelude.{◌≡◌, ◌↔◌, IsSome, IfSome};
ghost use Rattle.model_params.specs.Params.{AreParamsInRange};

use crate::{COULOMB_NUMBER, LEVEL_DEPTH, LEVEL_GAP, PERMITTIVITY, SCREENING_LENGTH};

/// What the potentials and the levels of a layout depend on.
#[derive(Clone, Copy, PartialEq, Eq, Debug)]
pub struct Params {
    /// The Coulomb number, in 10^-6 V·Å.
    pub coulomb: i64,
    /// Relative permittivity, in 10^-4.
    pub eps: i64,
    /// Screening length, in 10^-4 nm.
    pub lam: i64,
    /// How far the upper level lies below 0, in 10^-12 V.
    pub depth: i64,
    /// How far the lower level lies below the upper one, in 10^-12 V.
    pub gap: i64,
    /// How many charges a site may have: 2 or 3.
    pub base: u64,
    ghost in_range: { AreParamsInRange coulomb eps lam depth gap base },
}

/// The parameters, or `None` where one is out of its range.
pub fn params_of(
    coulomb: i64,
    eps: i64,
    lam: i64,
    depth: i64,
    gap: i64,
    base: u64,
) -> Option<Params>
    ensures some { IsSome result ↔ AreParamsInRange coulomb eps lam depth gap base }
    ensures potentials { IfSome result (λ p.
        (p.coulomb ≡ coulomb) × (p.eps ≡ eps) × (p.lam ≡ lam)) }
    ensures levels { IfSome result (λ p. (p.depth ≡ depth) × (p.gap ≡ gap) × (p.base ≡ base)) }
{
    if !COULOMB_NUMBER.holds(coulomb) {
        return None;
    }
    if !PERMITTIVITY.holds(eps) {
        return None;
    }
    if !SCREENING_LENGTH.holds(lam) {
        return None;
    }
    if !LEVEL_DEPTH.holds(depth) {
        return None;
    }
    if !LEVEL_GAP.holds(gap) {
        return None;
    }
    if base < 2 || 3 < base {
        return None;
    }
    Some(Params {
        coulomb,
        eps,
        lam,
        depth,
        gap,
        base,
    })
}
