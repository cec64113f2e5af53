ghost use Rattle.std.specs.Prelude.{◌^◌, ◌<ℤ◌, ◌≤ℤ◌, pos, unsigned_abs};
ghost use Rattle.screened_coulomb.specs.Potential.{HoldsDistance};
ghost use Rattle.screened_coulomb.specs.Rounding.{IsRoundedSpan};

use crate::rounding::rounded_span;
use crate::{Params, Span};
use charge_model::MAX_POTENTIAL;
use root_exp::root40;
use sidb_lattice::LEAST_SQUARED_DISTANCE;

/// The span of the potential at the squared distance `d`, in 10^-12 V, where `d` is in 10^-4 Å^2.
pub fn span_of(d: i64, p: &Params) -> Span
    requires near { pos LEAST_SQUARED_DISTANCE ≤ℤ d }
    requires far { d <ℤ pos (2 ^ 47) }
    ensures rule { IsRoundedSpan p.now (unsigned_abs d) result.lo result.hi }
    ensures holds { HoldsDistance p.now (unsigned_abs d) result.lo result.hi }
    ensures within { result.hi ≤ℤ MAX_POTENTIAL }
{
    rounded_span(p, root40(d))
}
