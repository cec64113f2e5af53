// Lattices of given vectors, and the squared distance of two places.
ghost use Rattle.std.specs.Prelude.{◌≡◌, ◌+◌, ◌*◌, ◌^◌, ◌<◌, ◌≤◌, ◌↔◌, ◌*ℤ◌, ◌+ℤ◌, pos, unsigned_abs, IsTrue, IsSome, IfSome};
ghost use Rattle.sidb_layout.specs.Site.{IsInRange};
ghost use Rattle.sidb_layout.specs.Lattice.{silicon, AreVectors, HasVectors, x_of, y_of, squared_distance as squared};

use crate::{Lattice, MAX_OFFSET, MAX_STEPS, Site};

/// Whether two steps in one direction are short enough together.
fn are_steps(a: i64, b: i64) -> bool
    ensures { IsTrue result ↔ (unsigned_abs a + unsigned_abs b ≤ MAX_STEPS) }
{
    let size = a.unsigned_abs();
    size <= MAX_STEPS && b.unsigned_abs() <= MAX_STEPS - size
}

/// Whether the parts of an offset are short enough.
fn is_offset(x: i64, y: i64) -> bool
    ensures { IsTrue result ↔ ((unsigned_abs x ≤ MAX_OFFSET) × (unsigned_abs y ≤ MAX_OFFSET)) }
{
    x.unsigned_abs() <= MAX_OFFSET && y.unsigned_abs() <= MAX_OFFSET
}

/// Whether these numbers are the vectors of a lattice.
fn are_vectors(ax: i64, ay: i64, bx: i64, by: i64, cx: i64, cy: i64) -> bool
    ensures { IsTrue result ↔ AreVectors ax ay bx by cx cy }
{
    are_steps(ax, bx) && are_steps(ay, by) && is_offset(cx, cy)
}

/// The lattice of these vectors, in hundredths of an ångström, or `None` where one is too long.
pub fn lattice_of(ax: i64, ay: i64, bx: i64, by: i64, cx: i64, cy: i64) -> Option<Lattice>
    ensures found { IfSome result (HasVectors ax ay bx by cx cy) }
    ensures in_range { IsSome result ↔ AreVectors ax ay bx by cx cy }
{
    if !are_vectors(ax, ay, bx, by, cx, cy) {
        return None;
    }
    Some(Lattice {
        ax,
        ay,
        bx,
        by,
        cx,
        cy,
    })
}

/// The lattice of H-Si(100)-2x1: 3.84 Å along a row, 7.68 Å from row to row, and the second atom of
/// a dimer 2.25 Å from the first.
pub fn default_lattice() -> Lattice
    ensures { result ≡ silicon }
{
    Lattice {
        ax: 384,
        ay: 0,
        bx: 0,
        by: 768,
        cx: 0,
        cy: 225,
    }
}

/// The sum of a column's, a row's and an atom's part of a position along one direction.
fn position(place: Site, column: i64, row: i64, atom: i64) -> i64
    requires place { IsInRange place }
    requires steps { unsigned_abs column + unsigned_abs row ≤ MAX_STEPS }
    requires offset { unsigned_abs atom ≤ MAX_OFFSET }
    ensures value { result ≡ ((place.n *ℤ column) +ℤ (place.m *ℤ row)) +ℤ (place.l *ℤ atom) }
    ensures within { unsigned_abs result ≤ 4000400 }
{
    place.n * column + place.m * row + place.l * atom
}

/// The squared distance of two places of a lattice, in squared hundredths of an ångström.
pub fn squared_distance_on(lattice: &Lattice, a: Site, b: Site) -> i64
    requires a { IsInRange a }
    requires b { IsInRange b }
    ensures value { result ≡ pos (squared lattice.now a b) }
    ensures within { squared lattice.now a b < 2 ^ 47 }
{
    let x_gap = position(a, lattice.ax, lattice.bx, lattice.cx).abs_diff(position(
        b, lattice.ax, lattice.bx, lattice.cx,
    ));
    let y_gap = position(a, lattice.ay, lattice.by, lattice.cy).abs_diff(position(
        b, lattice.ay, lattice.by, lattice.cy,
    ));
    (x_gap * x_gap + y_gap * y_gap) as i64
}

/// The squared distance of two places of the default lattice.
pub fn squared_distance(a: Site, b: Site) -> i64
    requires a { IsInRange a }
    requires b { IsInRange b }
    ensures value { result ≡ pos (squared silicon a b) }
    ensures within { squared silicon a b < 2 ^ 47 }
{
    squared_distance_on(&default_lattice(), a, b)
}
