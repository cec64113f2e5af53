ghost use Rattle.std.specs.Prelude.{◌≡◌, ◌⊎◌, ℕ, ℤ, pos, ◌<◌, ◌≤ℤ◌, ◌^◌, List};
ghost use Rattle.sidb_units.specs.declared.decimal_fault.DecFault.{DecFault};
ghost use Rattle.sidb_units.specs.Decimal.{HasDecimalFault, IsReadAs, decimal_text};

/// A text has exactly one reading: one number, or one fault.
pub fn one_reading()
    ensures some { (text : List ℕ) (places : ℕ) (least greatest : ℤ)
        → ((v : ℤ) × IsReadAs text places least greatest v)
        ⊎ ((e : DecFault) × HasDecimalFault text places least greatest e) }
    ensures value { (text : List ℕ) (places : ℕ) (least greatest v w : ℤ)
        → IsReadAs text places least greatest v → IsReadAs text places least greatest w → v ≡ w }
    ensures no_fault { (text : List ℕ) (places : ℕ) (least greatest v : ℤ) (e : DecFault)
        → IsReadAs text places least greatest v → ¬ HasDecimalFault text places least greatest e }
    ensures fault { (text : List ℕ) (places : ℕ) (least greatest : ℤ) (e f : DecFault)
        → HasDecimalFault text places least greatest e
        → HasDecimalFault text places least greatest f → e ≡ f }
{}

/// A number that is printed is read back, whatever the places.
pub fn printed_numbers_are_read()
    ensures { (n places : ℕ) (least greatest : ℤ)
        → n < 2 ^ 63 → least ≤ℤ pos n → pos n ≤ℤ greatest
        → IsReadAs (decimal_text places n) places least greatest (pos n) }
{}
