ghost use Rattle.std.specs.Prelude.{◌≡◌, ◌<◌, ◌&&◌, int_le, ◌++◌, ◌∷◌, [], length};
ghost use Rattle.charge_model.specs.declared.TheConstants.{MAX_SITES};
ghost use Rattle.prefix_rows.specs.Limits.{IsLimit, AreLimitsOf};

use crate::row::{Row, write};
use charge_state::{Charge, Charges};
use potential_problem::Problem;
use prefix_extremes::{Amount, Extremes};

/// What no extreme of a potential reaches, in 10^-12 V.
const FAR: i64 = 1_000_000_000_000_000_000;

/// The limits of a charge, in 10^-12 V: a site can have it where its least potential is at most
/// the least limit, and its greatest potential at least the greatest limit.
fn limit_of(problem: &Problem, charge: Charge) -> Extremes
    ensures { IsLimit problem.now charge result }
{
    let (least, greatest) = match charge {
        Charge::Neg => (FAR, problem.mu_minus()),
        Charge::Neutral => (problem.mu_minus(), problem.mu_plus()),
        Charge::Pos => {
            if problem.base() == 3 {
                (problem.mu_plus(), -FAR)
            } else {
                (-FAR, -FAR)
            }
        }
    };
    Extremes {
        least: Amount { value: least },
        greatest: Amount { value: greatest },
    }
}

/// Writes the limits of one more charge.
#[tactic(auto, using(crate::proofs::LimitLemmas::limits_pushed))]
pub fn add_limit(problem: &Problem, prefix: &Charges, charge: Charge, limits: &mut Row)
    requires room { length prefix.now < MAX_SITES }
    requires limits { AreLimitsOf problem.now prefix.now limits.old }
    ensures { AreLimitsOf problem.now (prefix.now ++ charge ∷ []) limits.new }
{
    write(limits, prefix.len(), limit_of(problem, charge));
}

/// Whether the extremes of a potential are within the limits.
pub fn is_within_limits(whole: Extremes, limit: Extremes) -> bool
    ensures { result ≡ (int_le whole.least.value limit.least.value
        && int_le limit.greatest.value whole.greatest.value) }
{
    let least = whole.least.value <= limit.least.value;
    let greatest = limit.greatest.value <= whole.greatest.value;
    least & greatest
}
