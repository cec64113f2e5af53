ghost use Rattle.std.specs.Prelude.{◌≡◌, ◌↔◌, ◌≤ℤ◌, IsTrue, MatchBool, length};
ghost use Rattle.narrower_lists.specs.Agreement.{AreWithin, HaveSameNumbers, HaveSameClasses};
ghost use Rattle.narrower_laws.specs.Narrower.{IsNarrower};

use potential_problem::{Problem, Span};

/// Whether a span lies within another.
fn is_within(span: &Span, whole: &Span) -> bool
    ensures lo { IsTrue result → whole.now.lo ≤ℤ span.now.lo }
    ensures hi { IsTrue result → span.now.hi ≤ℤ whole.now.hi }
    ensures both { whole.now.lo ≤ℤ span.now.lo → span.now.hi ≤ℤ whole.now.hi → IsTrue result }
{
    whole.lo <= span.lo && span.hi <= whole.hi
}

/// Whether each span of a problem lies within that of the same class of a wider one.
fn are_spans_within(wide: &Problem, narrow: &Problem) -> bool
    requires { length narrow.now.spans ≡ length wide.now.spans }
    ensures { MatchBool result (AreWithin wide.now.spans narrow.now.spans)
        (¬ AreWithin wide.now.spans narrow.now.spans) }
{
    for class in 0..wide.classes() {
        if !is_within(&narrow.span(class), &wide.span(class)) {
            return false;
        }
    }
    true
}

/// Whether two problems have the same sites, base and levels.
fn has_same_numbers(wide: &Problem, narrow: &Problem) -> bool
    ensures { IsTrue result ↔ HaveSameNumbers wide.now narrow.now }
{
    wide.sites() == narrow.sites()
        && wide.base() == narrow.base()
        && wide.mu_minus() == narrow.mu_minus()
        && wide.mu_plus() == narrow.mu_plus()
}

/// Whether two lists of fixed charges are the same.
fn are_same_charges(charges: &[i64], others: &[i64]) -> bool
    ensures { IsTrue result ↔ (charges.now ≡ others.now) }
{
    charges == others
}

/// Whether two lists of classes are the same.
fn are_same_classes(classes: &[usize], others: &[usize]) -> bool
    ensures { IsTrue result ↔ (classes.now ≡ others.now) }
{
    classes == others
}

/// Whether two problems have the same fixed charges and the same class of each pair.
fn has_same_classes(wide: &Problem, narrow: &Problem) -> bool
    ensures { IsTrue result ↔ HaveSameClasses wide.now narrow.now }
{
    are_same_charges(wide.fixed_charges(), narrow.fixed_charges())
        && are_same_classes(wide.pair_classes(), narrow.pair_classes())
        && are_same_classes(wide.near_classes(), narrow.near_classes())
}

/// Whether the spans of a problem lie within those of another, and all else is the same.
pub fn is_narrower(wide: &Problem, narrow: &Problem) -> bool
    ensures { MatchBool result (IsNarrower wide.now narrow.now)
        (¬ IsNarrower wide.now narrow.now) }
{
    if !has_same_numbers(wide, narrow) || !has_same_classes(wide, narrow) {
        return false;
    }
    if wide.classes() != narrow.classes() {
        return false;
    }
    are_spans_within(wide, narrow)
}
