ghost use Rattle.std.specs.Prelude.{◌≡◌, ◌↔◌, ◌+◌, ◌-◌, ◌*◌, ◌<◌, ◌≤◌, ◌≤ℤ◌, ◌^◌, pos, IsTrue};
ghost use Rattle.model_params.specs.Quantities.{IsInRangeOf, permittivity, screening_length};
ghost use Rattle.gate_model.specs.Grids.{HasFarEnds, HasPointsIn, IsAxis, point_at};

use model_params::{PERMITTIVITY, Quantity, SCREENING_LENGTH};
use std::marker::Model;

/// One direction of a grid: where it starts, its step, both in 10^-4, and how many points it has.
#[derive(Clone, Copy, PartialEq, Eq, Debug)]
pub struct Axis {
    pub start: i64,
    pub step: i64,
    pub count: u64,
}

/// The number without its sign.
pub(crate) fn unsigned(number: &i64) -> u64
    requires { pos 0 ≤ℤ number.now }
    ensures value { number.now ≡ pos result }
    ensures fits { result < 2 ^ 63 }
{
    *number as u64
}

/// Whether one step behind the last of so many points is still at most the greatest.
fn has_room(start: u64, step: u64, count: u64, greatest: u64) -> bool
    requires count { (1 ≤ count) × (count ≤ 64) }
    requires last { start + step * (count - 1) ≤ greatest }
    requires small { greatest ≤ 10000000 }
    ensures { IsTrue result ↔ (start + step * count ≤ greatest) }
{
    step <= greatest - (start + step * (count - 1))
}

impl Axis {
    /// Whether the far end, one step behind the last point, is in the range of the quantity.
    fn has_far_end(&self, quantity: &Quantity) -> bool
        requires axis { IsAxis quantity.now self.now }
        requires least { pos 0 ≤ℤ quantity.now.least }
        requires small { quantity.now.greatest ≤ℤ pos 10000000 }
        ensures { IsTrue result ↔ IsInRangeOf quantity.now (point_at self.now self.now.count) }
    {
        let start = unsigned(&self.start);
        let step = unsigned(&self.step);
        has_room(start, step, self.count, unsigned(&quantity.greatest))
    }

    /// Point k, where it is at most 10^7.
    pub fn point(&self, k: u64) -> i64
        requires start { pos 0 ≤ℤ self.now.start }
        requires step { pos 0 ≤ℤ self.now.step }
        requires k { k < 64 }
        requires small { point_at self.now k ≤ℤ pos 10000000 }
        ensures { result ≡ point_at self.now k }
    {
        (unsigned(&self.start) + unsigned(&self.step) * k) as i64
    }
}

/// A grid of points: permittivities in 10^-4 and screening lengths in 10^-4 nm. Each point is in
/// the range of parameters.
#[derive(Clone, Copy, PartialEq, Eq, Debug)]
pub struct Grid {
    pub eps_start: i64,
    pub eps_step: i64,
    pub eps_count: u64,
    pub lam_start: i64,
    pub lam_step: i64,
    pub lam_count: u64,
}

impl Model for Grid {
    ghost use Rattle.gate_model.specs.Grids.{Axes, AreAxes};

    ghost Value = { Axes };

    ghost use Rattle.gate_model.specs.SeenGrid.{fields_of, seen_axes};

    ghost view = { seen_axes };

    ghost invariant = { λ s. AreAxes (seen_axes s) };

    ghost inverse = { fields_of };
}

impl Grid {
    /// The permittivities.
    pub fn eps(&self) -> Axis
        ensures value { result ≡ self.now.eps }
        ensures axis { IsAxis permittivity result }
    {
        Axis {
            start: self.eps_start,
            step: self.eps_step,
            count: self.eps_count,
        }
    }

    /// The screening lengths.
    pub fn lam(&self) -> Axis
        ensures value { result ≡ self.now.lam }
        ensures axis { IsAxis screening_length result }
    {
        Axis {
            start: self.lam_start,
            step: self.lam_step,
            count: self.lam_count,
        }
    }

    /// Whether the far end of each direction, one step behind its last point, is in range too.
    pub fn has_far_ends(&self) -> bool
        ensures { IsTrue result ↔ HasFarEnds self.now }
    {
        self.eps().has_far_end(&PERMITTIVITY) && self.lam().has_far_end(&SCREENING_LENGTH)
    }

    /// The permittivity of the points at place k, in 10^-4.
    pub fn eps_at(&self, k: u64) -> i64
        requires { k < self.now.eps.count }
        ensures value { result ≡ point_at self.now.eps k }
        ensures within { IsInRangeOf permittivity result }
    {
        self.eps().point(k)
    }

    /// The screening length of the points at place k, in 10^-4 nm.
    pub fn lam_at(&self, k: u64) -> i64
        requires { k < self.now.lam.count }
        ensures value { result ≡ point_at self.now.lam k }
        ensures within { IsInRangeOf screening_length result }
    {
        self.lam().point(k)
    }
}
