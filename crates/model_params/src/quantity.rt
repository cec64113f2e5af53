ghost use Rattle.std.specs.Prelude.{◌↔◌, IsTrue};
ghost use Rattle.model_params.specs.Quantities.{IsInRangeOf};

/// A number that a run may set: a decimal with at most `places` digits after its point, in units of
/// 10^-places, from `least` to `greatest`. Where it is not set it is `preset`.
pub struct Quantity {
    pub places: u32,
    pub least: i64,
    pub greatest: i64,
    pub preset: i64,
}

/// The Coulomb number e/(4π ε0), in 10^-6 V·Å (docs/MODEL.md, "Screened Coulomb potential").
pub const COULOMB_NUMBER: Quantity = Quantity {
    places: 6,
    least: 14_000_000,
    greatest: 15_000_000,
    preset: 14_399_645,
};

/// Relative permittivity, in 10^-4.
pub const PERMITTIVITY: Quantity = Quantity {
    places: 4,
    least: 10_000,
    greatest: 1_000_000,
    preset: 56_000,
};

/// Screening length, in 10^-4 nm.
pub const SCREENING_LENGTH: Quantity = Quantity {
    places: 4,
    least: 1_000,
    greatest: 10_000_000,
    preset: 50_000,
};

/// How far the upper level lies below 0, in 10^-12 V.
pub const LEVEL_DEPTH: Quantity = Quantity {
    places: 12,
    least: 0,
    greatest: 2_000_000_000_000,
    preset: 320_000_000_000,
};

/// How far the lower level lies below the upper one, in 10^-12 V.
pub const LEVEL_GAP: Quantity = Quantity {
    places: 12,
    least: 0,
    greatest: 2_000_000_000_000,
    preset: 590_000_000_000,
};

impl Quantity {
    /// Whether the number is in the range.
    pub fn holds(&self, number: i64) -> bool
        ensures { IsTrue result ↔ IsInRangeOf self.now number }
    {
        self.least <= number && number <= self.greatest
    }
}
