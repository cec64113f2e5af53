ghost use Rattle.std.specs.Prelude.{◌≡◌, slice_get};
ghost use Rattle.charge_state.specs.Tests.{tests_of};

use charge_model::{Charge, Test};

/// The k-th test of a charge, in the order in which a site is tested.
pub fn test_at(charge: Charge, k: usize) -> Option<Test>
    ensures value { result ≡ slice_get (tests_of charge) k }
{
    match (charge, k) {
        (Charge::Neg, 0) => Some(Test::AboveMinus),
        (Charge::Neutral, 0) => Some(Test::AbovePlus),
        (Charge::Neutral, 1) => Some(Test::BelowMinus),
        (Charge::Pos, 0) => Some(Test::BelowPlus),
        _ => None,
    }
}
