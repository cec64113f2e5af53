// The numbers that options give.
ghost use Rattle.std.specs.Prelude.{◌≡◌, ◌≤◌, ◌≤ℤ◌, ℕ, ℤ, pos, IfSome, IfNone};
ghost use Rattle.model_params.specs.Quantities.{IsInRangeOf};
ghost use Rattle.command_words.specs.Options.{IsOptionNumber, borrowed_text};

use model_params::Quantity;
use sidb_units::read_dec;

/// The most nodes of a search.
pub const NODE_LIMIT: Quantity = Quantity {
    places: 0,
    least: 1,
    greatest: 10_000_000,
    preset: 1_000_000,
};

/// The number of workers.
pub const WORKER_COUNT: Quantity = Quantity {
    places: 0,
    least: 1,
    greatest: 16,
    preset: 4,
};

/// How far above the ground lists are looked for, in 10^-12 V.
pub const WINDOW_WIDTH: Quantity = Quantity {
    places: 12,
    least: 0,
    greatest: 2_000_000_000_000,
    preset: 0,
};

/// Boltzmann's constant times the temperature, in 10^-12 V.
pub const THERMAL_ENERGY: Quantity = Quantity {
    places: 12,
    least: 1_000_000_000,
    greatest: 1_000_000_000_000,
    preset: 25_000_000_000,
};

/// The number that the generator begins with.
pub const GENERATOR_NUMBER: Quantity = Quantity {
    places: 0,
    least: 0,
    greatest: i64::MAX,
    preset: 0,
};

/// How many sites a generated layout has.
pub const GENERATED_SITES: Quantity = Quantity {
    places: 0,
    least: 0,
    greatest: 64,
    preset: 40,
};

/// How often an undecided rectangle may be quartered.
pub const REFINE_DEPTH: Quantity = Quantity {
    places: 0,
    least: 0,
    greatest: 6,
    preset: 2,
};

/// The number that the text gives, or the preset one where there is no text.
pub fn number_in(given: Option<&str>, quantity: &Quantity) -> Option<i64>
    requires places { quantity.now.places ≤ 12 }
    requires least { pos 0 ≤ℤ quantity.now.least }
    requires preset { IsInRangeOf quantity.now quantity.now.preset }
    ensures found { IfSome result (IsOptionNumber quantity.now (borrowed_text given.entry)) }
    ensures none { IfNone result ((v : ℤ)
        → IsOptionNumber quantity.now (borrowed_text given.entry) v → ⊥) }
    ensures within { IfSome result (IsInRangeOf quantity.now) }
{
    match given {
        Some(text) => read_dec(
            text.as_bytes(),
            quantity.places,
            quantity.least,
            quantity.greatest,
        )
        .ok(),
        None => Some(quantity.preset),
    }
}

/// The same for a number that is counted, and so has no sign.
pub fn count_in(given: Option<&str>, quantity: &Quantity) -> Option<u64>
    requires places { quantity.now.places ≤ 12 }
    requires least { pos 0 ≤ℤ quantity.now.least }
    requires preset { IsInRangeOf quantity.now quantity.now.preset }
    ensures found { IfSome result (λ n. IsOptionNumber quantity.now (borrowed_text given.entry)
        (pos n)) }
    ensures none { IfNone result ((n : ℕ)
        → IsOptionNumber quantity.now (borrowed_text given.entry) (pos n) → ⊥) }
    ensures within { IfSome result (λ n. IsInRangeOf quantity.now (pos n)) }
{
    Some(number_in(given, quantity)? as u64)
}
