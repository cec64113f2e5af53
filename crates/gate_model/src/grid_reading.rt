// Grids out of texts.
ghost use Rattle.std.specs.Prelude.{◌≡◌, ◌<◌, ◌≤◌, ◌≤ℤ◌, ◌+◌, ◌*◌, ◌^◌, ℕ, ℤ, pos, IfSome, IfNone, IsTrue, MatchBool};
ghost use Rattle.sidb_units.specs.Decimal.{IsReadAs};
ghost use Rattle.model_params.specs.Quantities.{IsInRangeOf, permittivity, screening_length};
ghost use Rattle.gate_model.specs.declared.grid.Axis.{Axis};
ghost use Rattle.gate_model.specs.Grids.{Axes, HasPointsIn, IsAxis};
ghost use Rattle.gate_model.specs.GridTexts.{AreNumbers, IsAxisText, IsCount, IsGridText, IsGridStart, IsGridStep};

use crate::grid::unsigned;
use crate::parts::{Three, in_three, in_two};
use crate::{Axis, Grid, MAX_GRID_STEP};
use model_params::{PERMITTIVITY, Quantity, SCREENING_LENGTH};
use sidb_units::laws::one_reading;
use sidb_units::{MAX_GRID, read_dec};

/// The least number of a quantity.
fn least_of(quantity: &Quantity) -> i64
    ensures { result ≡ quantity.now.least }
{
    quantity.least
}

/// The greatest number of a quantity.
fn greatest_of(quantity: &Quantity) -> i64
    ensures { result ≡ quantity.now.greatest }
{
    quantity.greatest
}

/// The first point of a direction that a word is.
fn start_in(word: &[u8], quantity: &Quantity) -> Option<i64>
    requires places { quantity.now.places ≤ 12 }
    requires least { pos 0 ≤ℤ quantity.now.least }
    requires order { quantity.now.least ≤ℤ quantity.now.greatest }
    ensures found { IfSome result (IsGridStart quantity.now word.now) }
    ensures none { IfNone result ((v : ℤ) → IsGridStart quantity.now word.now v → ⊥) }
{
    let least = least_of(quantity);
    let greatest = greatest_of(quantity);
    match read_dec(word, quantity.places, least, greatest) {
        Ok(start) => Some(start),
        Err(_) => None,
    }
}

/// The step that a word is.
fn step_in(word: &[u8]) -> Option<i64>
    ensures found { IfSome result (IsGridStep word.now) }
    ensures none { IfNone result ((v : ℤ) → IsGridStep word.now v → ⊥) }
{
    match read_dec(word, 4, 1, MAX_GRID_STEP) {
        Ok(step) => Some(step),
        Err(_) => None,
    }
}

/// The number of points that a word is.
fn count_in(word: &[u8]) -> Option<u64>
    ensures found { IfSome result (IsCount word.now) }
    ensures none { IfNone result ((n : ℕ) → IsCount word.now n → ⊥) }
{
    match read_dec(word, 0, 1, MAX_GRID as i64) {
        Ok(count) => Some(count as u64),
        Err(_) => None,
    }
}

/// The direction that three words are.
fn numbers_in(words: Three<'_>, quantity: &Quantity) -> Option<Axis>
    requires places { quantity.now.places ≤ 12 }
    requires least { pos 0 ≤ℤ quantity.now.least }
    requires order { quantity.now.least ≤ℤ quantity.now.greatest }
    ensures found { IfSome result (AreNumbers quantity.now
        words.entry.first.now words.entry.second.now words.entry.third.now) }
    ensures none { IfNone result ((axis : Axis) → AreNumbers quantity.now
        words.entry.first.now words.entry.second.now words.entry.third.now axis → ⊥) }
{
    let Some(start) = start_in(words.first, quantity) else {
        return None;
    };
    let Some(step) = step_in(words.second) else {
        return None;
    };
    let Some(count) = count_in(words.third) else {
        return None;
    };
    Some(Axis { start, step, count })
}

/// Whether the last of so many points, and so each one, is at most the greatest.
fn is_inside(start: u64, step: u64, count: u64, greatest: u64) -> bool
    requires start { start < 2 ^ 63 }
    requires step { step ≤ 10000000 }
    requires count { (1 ≤ count) × (count ≤ 64) }
    ensures { MatchBool result ((k : ℕ) → k < count → start + step * k ≤ greatest)
        (((k : ℕ) → k < count → start + step * k ≤ greatest) → ⊥) }
{
    start + step * (count - 1) <= greatest
}

/// Whether each point of a direction is in the range of the quantity.
fn has_points_in(axis: &Axis, quantity: &Quantity) -> bool
    requires start { IsInRangeOf quantity.now axis.now.start }
    requires least { pos 0 ≤ℤ quantity.now.least }
    requires step { (pos 1 ≤ℤ axis.now.step) × (axis.now.step ≤ℤ MAX_GRID_STEP) }
    requires count { (1 ≤ axis.now.count) × (axis.now.count ≤ MAX_GRID) }
    ensures { MatchBool result (HasPointsIn quantity.now axis.now)
        (HasPointsIn quantity.now axis.now → ⊥) }
{
    let start = unsigned(&axis.start);
    let step = unsigned(&axis.step);
    let greatest = unsigned(&quantity.greatest);
    is_inside(start, step, axis.count, greatest)
}

/// The direction that a part of a text is.
fn axis_in(part: &[u8], quantity: &Quantity) -> Option<Axis>
    requires places { quantity.now.places ≤ 12 }
    requires least { pos 0 ≤ℤ quantity.now.least }
    requires order { quantity.now.least ≤ℤ quantity.now.greatest }
    ensures found { IfSome result (IsAxisText quantity.now part.now) }
    ensures none { IfNone result ((axis : Axis) → IsAxisText quantity.now part.now axis → ⊥) }
{
    one_reading();
    let Some(words) = in_three(part, b':') else {
        return None;
    };
    let Some(axis) = numbers_in(words, quantity) else {
        return None;
    };
    if !has_points_in(&axis, quantity) {
        return None;
    }
    Some(axis)
}

/// The grid of two directions.
fn grid_of(eps: Axis, lam: Axis) -> Grid
    requires eps { IsAxis permittivity eps }
    requires lam { IsAxis screening_length lam }
    ensures eps { result.eps ≡ eps }
    ensures lam { result.lam ≡ lam }
{
    Grid {
        eps_start: eps.start,
        eps_step: eps.step,
        eps_count: eps.count,
        lam_start: lam.start,
        lam_step: lam.step,
        lam_count: lam.count,
    }
}

/// The grid that a text is, or `None` where it is none: `START:STEP:COUNT,START:STEP:COUNT`, first
/// permittivity and then screening length in nm, with at most four digits after a point.
pub fn read_grid(text: &[u8]) -> Option<Grid>
    ensures found { IfSome result (IsGridText text.now) }
    ensures none { IfNone result ((a : Axes) → IsGridText text.now a → ⊥) }
{
    let Some(both) = in_two(text, b',') else {
        return None;
    };
    let Some(eps) = axis_in(both.first, &PERMITTIVITY) else {
        return None;
    };
    let Some(lam) = axis_in(both.second, &SCREENING_LENGTH) else {
        return None;
    };
    Some(grid_of(eps, lam))
}
