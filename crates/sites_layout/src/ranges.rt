// The ranges of the numbers of lines, and the lattice that lines give.
ghost use Rattle.std.specs.Prelude.{◌≡◌, ◌↔◌, IsTrue, IsSome, IfSome, MatchOption};
ghost use Rattle.sidb_layout.specs.Lattice.{HasVectors};
ghost use Rattle.sidb_layout.specs.Refusal.{IsFirstOutside};
ghost use Rattle.sites_layout.specs.SitesLines.{vectors_of};
ghost use Rattle.sites_layout.specs.SitesFaults.{AreInReach, IsLineInRange, AreLinesInRange, IsLatticeOf, HasTheseVectors};

use crate::line::{SitesLine, Vectors};
use sidb_layout::{Lattice, default_lattice, lattice_of};

/// The lattice of these vectors.
fn lattice_from(vectors: &Vectors) -> Option<Lattice>
    ensures found { IfSome result (HasTheseVectors vectors.now) }
    ensures none { IsSome result ↔ AreInReach vectors.now }
{
    let Vectors { column, row, atom } = *vectors;
    lattice_of(column.x, column.y, row.x, row.y, atom.x, atom.y)
}

/// Whether the numbers of the line are in range.
fn is_in_range(line: &SitesLine) -> bool
    ensures { IsTrue result ↔ IsLineInRange line.now }
{
    match line {
        SitesLine::Empty => true,
        SitesLine::Place(site) => site.is_in_range(),
        SitesLine::Charge(fix) => fix.is_in_range(),
        SitesLine::Lattice(vectors) => lattice_from(vectors).is_some(),
    }
}

/// The first line with a number out of range.
pub fn first_out(lines: &[SitesLine]) -> Option<usize>
    ensures { MatchOption result (AreLinesInRange lines.now)
        (IsFirstOutside IsLineInRange lines.now) }
{
    for (i, line) in lines.iter().enumerate() {
        if !is_in_range(line) {
            return Some(i);
        }
    }
    None
}

/// The vectors of the line `lattice`.
fn first_vectors(lines: &[SitesLine]) -> Option<Vectors>
    ensures { result ≡ vectors_of lines.now }
{
    for line in lines {
        if let SitesLine::Lattice(vectors) = line {
            return Some(*vectors);
        }
    }
    None
}

/// The lattice that the lines give.
pub fn lattice_in(lines: &[SitesLine]) -> Lattice
    requires { AreLinesInRange lines.now }
    ensures { IsLatticeOf lines.now result }
{
    match first_vectors(lines) {
        None => default_lattice(),
        Some(vectors) => lattice_from(&vectors).unwrap(),
    }
}
