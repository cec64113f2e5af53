//! The thresholds between which the answer of a search lies, and what a round leaves of them.
ghost use Rattle.std.specs.Prelude.{◌≡◌, ◌<◌, ◌≤◌, ◌^◌, pos, negsuc, ◌+ℤ◌, ◌<ℤ◌, unsigned_abs, IsTrue, MatchBool};
ghost use Rattle.branch_search.specs.Bounds.{IsThresholdPassed};

use crate::halving::{Bound, GREATEST_ENERGY};

/// Two thresholds, in 10^-12 V: no certainly valid list lies below the one, and a round at the
/// other was exceeded.
#[derive(Clone, Copy)]
pub struct Range {
    pub below: i64,
    pub over: i64,
}

/// What a round inside a range leaves.
#[derive(Clone, Copy)]
pub enum Tried {
    /// A part of the range, or all of it.
    Left(Range),
    /// Nothing: the answer is known.
    Over(Bound),
}

/// The threshold half way.
pub fn middle(range: &Range) -> i64
    requires order { (range.now.below +ℤ pos 1) <ℤ range.now.over }
    requires below { unsigned_abs range.now.below ≤ 2 ^ 57 }
    requires over { unsigned_abs range.now.over ≤ 2 ^ 56 }
    ensures below { range.now.below <ℤ result }
    ensures over { result <ℤ range.now.over }
{
    range.below + (range.over - range.below) / 2
}

/// Whether no threshold lies between.
pub fn is_narrow(range: &Range) -> bool
    requires order { range.now.below <ℤ range.now.over }
    requires below { unsigned_abs range.now.below ≤ 2 ^ 57 }
    requires over { unsigned_abs range.now.over ≤ 2 ^ 56 }
    ensures { MatchBool result (range.now.over ≡ range.now.below +ℤ pos 1)
        ((range.now.below +ℤ pos 1) <ℤ range.now.over) }
{
    range.over - range.below == 1
}

/// The part above a threshold.
pub fn upper(range: &Range, threshold: i64) -> Range
    ensures below { result.below ≡ threshold }
    ensures over { result.over ≡ range.now.over }
{
    Range {
        below: threshold,
        over: range.over,
    }
}

/// The part up to a threshold.
pub fn lower(range: &Range, threshold: i64) -> Range
    ensures below { result.below ≡ range.now.below }
    ensures over { result.over ≡ threshold }
{
    Range {
        below: range.below,
        over: threshold,
    }
}

/// Whether a threshold lies between the two of a range.
pub fn is_inside(range: &Range, threshold: i64) -> bool
    ensures { IsTrue result → (range.now.below <ℤ threshold) × (threshold <ℤ range.now.over) }
{
    range.below < threshold && threshold < range.over
}

/// What is left where no certainly valid list lies up to a threshold inside a range and so many
/// prefixes of the tree under it were entered.
pub fn passed(range: &Range, threshold: i64, limit: u64, entered: u64) -> Tried
    ensures { IsThresholdPassed range.now threshold limit entered result }
{
    if entered > limit {
        Tried::Over(Bound::Budget)
    } else {
        Tried::Left(upper(range, threshold))
    }
}

/// All energies up to one at which a round was exceeded.
pub fn whole(over: i64) -> Range
    requires { unsigned_abs over ≤ 2 ^ 56 }
    ensures below { result.below ≡ negsuc (2 ^ 56) }
    ensures over { result.over ≡ over }
{
    Range {
        below: -GREATEST_ENERGY - 1,
        over,
    }
}
