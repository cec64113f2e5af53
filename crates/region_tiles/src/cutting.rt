// Rectangles by their sides: the parts of a rectangle, and the rectangles of a grid.
ghost use Rattle.std.specs.Prelude.{◌≡◌, ◌^◌, ◌<◌, ◌++◌, List, All, IfOk, OnOk, map, pos};
ghost use Rattle.std.specs.List.{AllZip};
ghost use Rattle.model_params.specs.Quantities.{IsInRangeOf, permittivity, screening_length};
ghost use Rattle.gate_model.specs.Grids.{HasFarEnds};
ghost use Rattle.region_tiles.specs.Alike.{AreAlike};
ghost use Rattle.region_tiles.specs.Sides.{IsSideWithin};
ghost use Rattle.region_tiles.specs.Rectangles.{AreGridRectangles, AreParts, AreRectangles, HasSides, Sides, can_be_cut, eps_side, lam_side, sides_of};
ghost use Rattle.region_tiles.specs.Tiles.{area_of};

use crate::Side;
use crate::sides::{halves_of, is_cut, steps_of};
use gate_model::Grid;
use parameter_regions::{Params, Rectangle, rectangle_between};
use sidb_units::Memory;
use std::alloc::Global;

/// Whether a rectangle can be cut: whether a number lies between the ends of one of its sides.
pub fn can_be_cut(r: &Rectangle) -> bool
    ensures { result ≡ can_be_cut r.now }
{
    is_cut(eps_side(r)) || is_cut(lam_side(r))
}

/// The parts of a rectangle, permittivity outer and screening length inner: each side that can be
/// cut is halved in its middle, rounded down.
pub fn parts_of(alloc: Global, r: &Rectangle) -> Result<Vec<Rectangle>, Memory>
    ensures { IfOk result (λ parts. AreParts r.now parts.items) }
{
    let eps = halves_of(alloc, eps_side(r))?;
    let lam = halves_of(alloc, lam_side(r))?;
    rectangles_with(alloc, &r.weakest, eps.as_slice(), lam.as_slice())
}

/// The rectangles of a grid, permittivity outer and screening length inner: each from a point to the
/// next in both directions. All else is as in the parameters.
pub fn rectangles_of(alloc: Global, params: &Params, grid: &Grid) -> Result<Vec<Rectangle>, Memory>
    requires { HasFarEnds grid.now }
    ensures { IfOk result (λ rectangles. AreGridRectangles params.now grid.now rectangles.items) }
{
    let eps = steps_of(alloc, &grid.eps())?;
    let lam = steps_of(alloc, &grid.lam())?;
    rectangles_with(alloc, params, eps.as_slice(), lam.as_slice())
}

/// The area of a rectangle, in units of 10^-4 times 10^-4 nm.
pub(crate) fn area(r: &Rectangle) -> u64
    ensures value { result ≡ area_of r.now }
    ensures small { result < 2 ^ 64 }
{
    let eps = eps_side(r);
    let lam = lam_side(r);
    (eps.to - eps.from) * (lam.to - lam.from)
}

/// The permittivities of a rectangle.
fn eps_side(r: &Rectangle) -> Side
    ensures value { result ≡ eps_side r.now }
    ensures within { IsSideWithin permittivity result }
{
    Side {
        from: r.strongest.eps as u64,
        to: r.weakest.eps as u64,
    }
}

/// The screening lengths of a rectangle.
fn lam_side(r: &Rectangle) -> Side
    ensures value { result ≡ lam_side r.now }
    ensures within { IsSideWithin screening_length result }
{
    Side {
        from: r.weakest.lam as u64,
        to: r.strongest.lam as u64,
    }
}

/// The rectangles of these sides, permittivity outer and screening length inner.
fn rectangles_with(
    alloc: Global,
    params: &Params,
    eps: &[Side],
    lam: &[Side],
) -> Result<Vec<Rectangle>, Memory>
    requires eps { All (IsSideWithin permittivity) eps.now }
    requires lam { All (IsSideWithin screening_length) lam.now }
    ensures { IfOk result (λ rectangles. AreRectangles params.now eps.now lam.now rectangles.items) }
{
    let mut rectangles = Vec::new(alloc);
    for i in 0..eps.len() {
        push_row(params, eps[i], lam, &mut rectangles)?;
    }
    Ok(rectangles)
}

/// Puts the rectangles of one side of permittivity behind those that are there.
fn push_row(
    params: &Params,
    eps: Side,
    lam: &[Side],
    rectangles: &mut Vec<Rectangle>,
) -> Result<(), Memory>
    requires eps { IsSideWithin permittivity eps }
    requires lam { All (IsSideWithin screening_length) lam.now }
    ensures { OnOk result ((seen : List Sides)
        → AllZip (HasSides params.now) seen rectangles.old.items
        → AllZip (HasSides params.now) (seen ++ map (sides_of eps) lam.now) rectangles.new.items) }
{
    for j in 0..lam.len() {
        rectangles.push(rectangle_of(params, eps, lam[j]))?;
    }
    Ok(())
}

/// The rectangle of these sides.
fn rectangle_of(params: &Params, eps: Side, lam: Side) -> Rectangle
    requires eps { IsSideWithin permittivity eps }
    requires lam { IsSideWithin screening_length lam }
    ensures { HasSides params.now (sides_of eps lam) result }
{
    let weakest = corner(params, eps.to, lam.from);
    let strongest = corner(params, eps.from, lam.to);
    rectangle_between(weakest, strongest)
}

/// The parameters with another permittivity and another screening length.
fn corner(params: &Params, eps: u64, lam: u64) -> Params
    requires eps { IsInRangeOf permittivity (pos eps) }
    requires lam { IsInRangeOf screening_length (pos lam) }
    ensures eps { result.eps ≡ pos eps }
    ensures lam { result.lam ≡ pos lam }
    ensures rest { AreAlike params.now result }
{
    Params {
        coulomb: params.coulomb,
        eps: eps as i64,
        lam: lam as i64,
        depth: params.depth,
        gap: params.gap,
        base: params.base,
    }
}
