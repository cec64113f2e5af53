ghost use Rattle.std.specs.Prelude.{◌≡◌, ◌≤◌, ℕ, ℤ};
ghost use Rattle.charge_model.specs.Problem.{Problem, IsProblem};
ghost use Rattle.sidb_layout.specs.Layout.{Arrangement, IsLayout};
ghost use Rattle.model_params.specs.declared.params.Params.{Params};
ghost use Rattle.screened_coulomb.specs.Layouts.{HoldsDistances, IsClassSpan, IsProblemOf};
ghost use Rattle.screened_coulomb.specs.Rounding.{IsRoundedSpan};

use root_exp::laws::{roots_exist, rounded_sums_are_sized, rounded_sums_enclose_the_series};
use sidb_lattice::LEAST_SQUARED_DISTANCE;
use sidb_lattice::laws::{each_layout_has_classes, one_classing};

/// The rounding rule gives one span for a squared distance.
pub fn one_rounded_span()
    ensures { (p : Params) (d : ℕ) (lo hi lo2 hi2 : ℤ) → IsRoundedSpan p d lo hi
        → IsRoundedSpan p d lo2 hi2 → (lo ≡ lo2) × (hi ≡ hi2) }
{}

/// A layout and parameters have one problem.
pub fn one_problem()
    ensures { (layout : Arrangement) (p : Params) (a b : Problem) → IsProblemOf layout p a
        → IsProblemOf layout p b → a ≡ b }
{
    one_classing();
}

/// Each squared distance that two places of a layout may have has a span, which holds it.
pub fn each_distance_has_a_span()
    ensures { (p : Params) (d : ℕ) → LEAST_SQUARED_DISTANCE ≤ d
        → (lo : ℤ) × (hi : ℤ) × IsClassSpan p d lo hi }
{
    roots_exist();
    rounded_sums_are_sized();
    rounded_sums_enclose_the_series();
}

/// Each layout has a problem by each parameters, whose spans hold the distances of its pairs.
pub fn each_layout_has_a_problem()
    ensures { (layout : Arrangement) (p : Params) → IsLayout layout
        → (q : Problem) × IsProblemOf layout p q × HoldsDistances layout p q × IsProblem q }
{
    roots_exist();
    rounded_sums_are_sized();
    rounded_sums_enclose_the_series();
    each_layout_has_classes();
}
