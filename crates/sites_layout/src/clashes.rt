// Places that are given twice, and places that are too close.
ghost use Rattle.std.specs.Prelude.{◌≡◌, ◌<◌, ◌↔◌, length, IsTrue, IsSomeAnd, IfSome, MatchOption};
ghost use Rattle.sidb_layout.specs.Site.{IsInRange};
ghost use Rattle.sites_layout.specs.SitesLines.{place_in};
ghost use Rattle.sites_layout.specs.SitesFaults.{IsLineInRange, AreLinesInRange, HasNoClash, IsEarliestClash, IsFirstClash};
ghost use Rattle.sites_layout.specs.SitesClash.{ClashRelation, NoLineBefore};

use crate::line::SitesLine;
use sidb_layout::{LEAST_SQUARED_DISTANCE, Lattice, Site, squared_distance_on};

/// How the places of two lines may clash: by being the same, or by lying too close on a lattice.
#[derive(Clone, Copy)]
pub enum LineClash {
    Same,
    Close(Lattice),
}

/// The place of a site or of a fixed charge.
fn place_of(line: &SitesLine) -> Option<Site>
    requires { IsLineInRange line.now }
    ensures value { result ≡ place_in line.now }
    ensures in_range { IfSome result IsInRange }
{
    match line {
        SitesLine::Place(site) => Some(*site),
        SitesLine::Charge(fix) => Some(fix.site),
        _ => None,
    }
}

/// Whether two places clash.
fn clashes(clash: LineClash, a: Site, b: Site) -> bool
    requires a { IsInRange a }
    requires b { IsInRange b }
    ensures { IsTrue result ↔ ClashRelation clash a b }
{
    match clash {
        LineClash::Same => a == b,
        LineClash::Close(lattice) => {
            squared_distance_on(&lattice, a, b) < LEAST_SQUARED_DISTANCE as i64
        }
    }
}

/// Whether the place of the line, if it has one, clashes with this place.
fn has_clash(clash: LineClash, line: &SitesLine, place: Site) -> bool
    requires line { IsLineInRange line.now }
    requires place { IsInRange place }
    ensures { IsTrue result ↔ IsSomeAnd (place_in line.now) (λ a. ClashRelation clash a place) }
{
    match place_of(line) {
        Some(other) => clashes(clash, other, place),
        None => false,
    }
}

/// The earliest line before line `j` whose place clashes with the place on line `j`.
fn earliest_before(clash: LineClash, lines: &[SitesLine], j: usize) -> Option<usize>
    requires ranges { AreLinesInRange lines.now }
    requires within { j < length lines.now }
    ensures { MatchOption result (NoLineBefore clash lines.now j)
        (λ i. IsEarliestClash (ClashRelation clash) lines.now i j) }
{
    let Some(place) = place_of(&lines[j]) else {
        return None;
    };
    for i in 0..j {
        if has_clash(clash, &lines[i], place) {
            return Some(i);
        }
    }
    None
}

/// The first line whose place clashes with an earlier one, behind the earliest such line.
pub fn first_clash(clash: LineClash, lines: &[SitesLine]) -> Option<(usize, usize)>
    requires { AreLinesInRange lines.now }
    ensures { MatchOption result (HasNoClash (ClashRelation clash) lines.now)
        (λ pair. IsFirstClash (ClashRelation clash) lines.now pair.0 pair.1) }
{
    for j in 0..lines.len() {
        if let Some(i) = earliest_before(clash, lines, j) {
            return Some((i, j));
        }
    }
    None
}
