//! A text has at most one reading, and whether it has one is decided.
ghost use Rattle.std.specs.Prelude.{◌≡◌, ◌⊎◌, ℕ, List};
ghost use Rattle.gate_model.specs.declared.function.Function.{Function};
ghost use Rattle.gate_model.specs.declared.pairs.PairOf.{PairOf};
ghost use Rattle.gate_model.specs.Functions.{IsFunctionNamed};
ghost use Rattle.gate_model.specs.Logic.{HaveDistinctPlaces, IsLogic, Logic};
ghost use Rattle.gate_model.specs.Pairs.{ArePairs};
ghost use Rattle.gate_model.specs.Grids.{Axes};
ghost use Rattle.gate_model.specs.GridTexts.{IsGridText};

use sidb_units::laws::one_reading;

/// A text is one list of pairs.
pub fn one_pair_list()
    ensures { (most : ℕ) (text : List ℕ) (a b : List PairOf) → ArePairs most text a
        → ArePairs most text b → a ≡ b }
{
    one_reading();
}

/// Each text is a list of pairs, or is none.
pub fn some_pair_list()
    ensures { (most : ℕ) (text : List ℕ) → ((pairs : List PairOf) × ArePairs most text pairs)
        ⊎ ((pairs : List PairOf) → ArePairs most text pairs → ⊥) }
{
    one_reading();
}

/// A text is one grid.
pub fn one_grid()
    ensures { (text : List ℕ) (a b : Axes) → IsGridText text a → IsGridText text b → a ≡ b }
{
    one_reading();
}

/// Each text is a grid, or is none.
pub fn some_grid()
    ensures { (text : List ℕ) → ((a : Axes) × IsGridText text a)
        ⊎ ((a : Axes) → IsGridText text a → ⊥) }
{
    one_reading();
}

/// A name stands for one function of so many bits.
pub fn one_function()
    ensures { (name : List ℕ) (inputs : ℕ) (f g : Function) → IsFunctionNamed name inputs f
        → IsFunctionNamed name inputs g → f ≡ g }
{}

/// Each name stands for a function of so many bits, or for none.
pub fn some_function()
    ensures { (name : List ℕ) (inputs : ℕ) → ((f : Function) × IsFunctionNamed name inputs f)
        ⊎ ((f : Function) → IsFunctionNamed name inputs f → ⊥) }
{}

/// The places of pairs are all distinct, or they are not.
pub fn distinct_or_not()
    ensures { (inputs outputs : List PairOf) → HaveDistinctPlaces inputs outputs
        ⊎ (HaveDistinctPlaces inputs outputs → ⊥) }
{}

/// Pairs and a function make a gate, or they make none.
pub fn gate_or_not()
    ensures { (gate : Logic) → IsLogic gate ⊎ (IsLogic gate → ⊥) }
{}
