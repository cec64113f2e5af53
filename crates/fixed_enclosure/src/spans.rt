ghost use Rattle.std.specs.Prelude.{◌≡◌, ◌+ℤ◌, ◌*ℤ◌, ◌≤ℤ◌, neg_ℤ};
ghost use Rattle.std.specs.Int.{int_max, int_min};
ghost use Rattle.fixed_enclosure.specs.Hull.{IsHull, IsProduct, IsSum};

use crate::{MAX_END, Span, span_between};

/// The span of the sums of a number of `a` and a number of `b`.
pub fn add(a: Span, b: Span) -> Span
    requires least { neg_ℤ MAX_END ≤ℤ (a.lo +ℤ b.lo) }
    requires greatest { (a.hi +ℤ b.hi) ≤ℤ MAX_END }
    ensures lo { result.lo ≡ a.lo +ℤ b.lo }
    ensures hi { result.hi ≡ a.hi +ℤ b.hi }
    ensures hull { IsHull (IsSum a b) result }
{
    span_between(a.lo + b.lo, a.hi + b.hi)
}

/// The span of the numbers of `a` times `k`.
pub fn scale(a: Span, k: i64) -> Span
    requires least { neg_ℤ MAX_END ≤ℤ int_min (a.lo *ℤ k) (a.hi *ℤ k) }
    requires greatest { int_max (a.lo *ℤ k) (a.hi *ℤ k) ≤ℤ MAX_END }
    ensures lo { result.lo ≡ int_min (a.lo *ℤ k) (a.hi *ℤ k) }
    ensures hi { result.hi ≡ int_max (a.lo *ℤ k) (a.hi *ℤ k) }
    ensures hull { IsHull (IsProduct a k) result }
{
    ordered(a.lo * k, a.hi * k)
}

/// The span from the lesser to the greater of two numbers.
fn ordered(x: i64, y: i64) -> Span
    ensures lo { result.lo ≡ int_min x y }
    ensures hi { result.hi ≡ int_max x y }
{
    if y < x {
        span_between(y, x)
    } else {
        span_between(x, y)
    }
}
