ghost use Rattle.std.specs.Prelude.{◌≡◌, ◌≤ℤ◌, ℤ, Option, Some};
ghost use Rattle.charge_model.specs.Problem.{Problem};
ghost use Rattle.charge_model.specs.Tree.{IsAttained, IsLeastCertain};

/// Where an energy is attained the least certain energy is not none, and is not above that one.
#[tactic(auto, using(crate::proofs::Bounded::attained_bound))]
pub fn attained_energies_bound()
    ensures { (p : Problem) (bound : Option ℤ) (e : ℤ) → IsLeastCertain p bound → IsAttained p e
        → (least : ℤ) × (bound ≡ Some least) × (least ≤ℤ e) }
{}
