// The sides of rectangles, and how they are cut.
ghost use Rattle.std.specs.Prelude.{◌≡◌, [], ◌∷◌, ◌+◌, ◌*◌, ◌≤◌, ◌<◌, ◌≤ℤ◌, pos, IfOk};
ghost use Rattle.gate_model.specs.Grids.{point_at};
ghost use Rattle.region_tiles.specs.Sides.{between, halves_of, is_cut, middle_of, steps_of};

use gate_model::Axis;
use sidb_units::Memory;
use std::alloc::Global;

/// A side of a rectangle, from one number to another: in 10^-4, or in 10^-4 nm.
#[derive(Clone, Copy, PartialEq, Eq, Debug)]
pub struct Side {
    pub from: u64,
    pub to: u64,
}

/// Whether a number lies between the ends of a side.
pub(crate) fn is_cut(side: Side) -> bool
    requires { side.to ≤ 10000000 }
    ensures { result ≡ is_cut side }
{
    side.from < side.to && side.from + 1 < side.to
}

/// The halves of a side that is cut, the lesser numbers first; else the side alone.
pub(crate) fn halves_of(alloc: Global, side: Side) -> Result<Vec<Side>, Memory>
    requires order { side.from ≤ side.to }
    requires small { side.to ≤ 10000000 }
    ensures { IfOk result (λ halves. halves.items ≡ halves_of side) }
{
    if is_cut(side) {
        two_halves(alloc, side)
    } else {
        alone(alloc, side)
    }
}

/// The two halves of a side.
fn two_halves(alloc: Global, side: Side) -> Result<Vec<Side>, Memory>
    requires order { side.from ≤ side.to }
    requires small { side.to ≤ 10000000 }
    ensures { IfOk result (λ halves. halves.items
        ≡ between side.from (middle_of side) ∷ between (middle_of side) side.to ∷ []) }
{
    let middle = (side.from + side.to) / 2;
    let mut halves = Vec::new(alloc);
    halves.push(Side {
        from: side.from,
        to: middle,
    })?;
    halves.push(Side {
        from: middle,
        to: side.to,
    })?;
    Ok(halves)
}

/// A side that is not cut.
fn alone(alloc: Global, side: Side) -> Result<Vec<Side>, Memory>
    ensures { IfOk result (λ halves. halves.items ≡ side ∷ []) }
{
    let mut halves = Vec::new(alloc);
    halves.push(side)?;
    Ok(halves)
}

/// A number that is at least 0.
fn natural(number: &i64) -> u64
    requires { pos 0 ≤ℤ number.now }
    ensures { number.now ≡ pos result }
{
    *number as u64
}

/// The side from point k of a direction to the next.
fn step_from(start: u64, step: u64, count: u64, k: u64) -> Side
    requires within { k < count }
    requires small { start + step * count ≤ 10000000 }
    ensures { result ≡ between (start + step * k) (start + step * (k + 1)) }
{
    Side {
        from: start + step * k,
        to: start + step * (k + 1),
    }
}

/// The sides of a direction of a grid, one from each of its points.
pub(crate) fn steps_of(alloc: Global, axis: &Axis) -> Result<Vec<Side>, Memory>
    requires from { pos 0 ≤ℤ axis.now.start }
    requires rising { pos 0 ≤ℤ axis.now.step }
    requires small { point_at axis.now axis.now.count ≤ℤ pos 10000000 }
    ensures { IfOk result (λ steps. steps.items ≡ steps_of axis.now) }
{
    let start = natural(&axis.start);
    let step = natural(&axis.step);
    let mut steps = Vec::new(alloc);
    for k in 0..axis.count {
        steps.push(step_from(start, step, axis.count, k))?;
    }
    Ok(steps)
}
