ghost use Rattle.std.specs.Prelude.{◌≡◌, ℤ, ℕ, ◌+◌, ◌/◌, ◌≤◌};
ghost use Rattle.std.specs.Int.{div_ceil};
ghost use Rattle.charge_model.specs.declared.span.Span.{Span};
ghost use Rattle.fixed_enclosure.specs.Hull.{IsHull, IsProduct, IsSum};

/// The sums of two spans have one span.
pub fn one_span_of_sums()
    ensures { (a b s t : Span) → IsHull (IsSum a b) s → IsHull (IsSum a b) t
        → (s.lo ≡ t.lo) × (s.hi ≡ t.hi) }
{}

/// The multiples of a span have one span.
pub fn one_span_of_products()
    ensures { (a s t : Span) (k : ℤ) → IsHull (IsProduct a k) s → IsHull (IsProduct a k) t
        → (s.lo ≡ t.lo) × (s.hi ≡ t.hi) }
{}

/// What is rounded down and what is rounded up differ by at most one.
pub fn roundings_are_near()
    ensures { (product divisor : ℕ) → 1 ≤ divisor → (product / divisor ≤ div_ceil product divisor)
        × (div_ceil product divisor ≤ product / divisor + 1) }
{}
