ghost use Rattle.std.specs.Prelude.{◌≤◌, ℕ, List, ◌∷◌};
ghost use Rattle.charge_model.specs.declared.charge.Charge.{Charge};
ghost use Rattle.charge_model.specs.Problem.{IsTable, Problem, Table};
ghost use Rattle.share_laws.specs.Sums.{IsAtLeastOne, IsAtMostOne, highs_at, lows_at, sum_of};

use root_exp::laws::{
    closed_sums_are_greater, closed_sums_fall_with_the_order, sums_grow_with_the_order,
};

/// Under one table and at each order of the series the lower ends of the intervals of all entries
/// of a list add up to at most 1.
pub fn lower_ends_add_up_to_at_most_one()
    ensures { (p : Problem) (kt : ℕ) (l : List (List Charge)) (t : Table) (k : ℕ)
        → 1 ≤ kt → IsTable p t → IsAtMostOne (sum_of (lows_at p kt l t k l)) }
{
    closed_sums_are_greater();
}

/// The upper ends add up to at least 1, where there is an entry.
pub fn upper_ends_add_up_to_at_least_one()
    ensures { (p : Problem) (kt : ℕ) (c : List Charge) (l : List (List Charge)) (t : Table) (k : ℕ)
        → 1 ≤ kt → IsTable p t → IsAtLeastOne (sum_of (highs_at p kt (c ∷ l) t k (c ∷ l))) }
{
    closed_sums_are_greater();
    sums_grow_with_the_order();
    closed_sums_fall_with_the_order();
}
