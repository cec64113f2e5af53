// The first refusal of places and fixed charges.
ghost use Rattle.std.specs.Prelude.{◌≡◌, ◌+◌, ◌<◌, ◌≤◌, ◌↔◌, length, IsTrue, All, MatchOption};
ghost use Rattle.sidb_layout.specs.Site.{IsInRange, IsFixInRange, place_at, places_of};
ghost use Rattle.sidb_layout.specs.Refusal.{IsFirstOutside, IsFirstOutOfRange, IsEarliest, IsFirstPair, ArePlacesInRange, IsLayoutRefusal};
ghost use Rattle.sidb_layout.specs.Clash.{Clashes, NoneBefore, HasNoPair, AreFinePlaces};

use crate::{Fix, LEAST_SQUARED_DISTANCE, Lattice, LayoutFault, Site, squared_distance_on};
use sidb_units::{MAX_FIXED, MAX_SITES};

/// How a place may clash with an earlier one: by being the same, or by lying too close.
#[derive(Clone, Copy)]
enum Clash {
    Same,
    Close(Lattice),
}

/// The first site out of range.
fn first_site_out(sites: &[Site]) -> Option<usize>
    ensures { MatchOption result (All IsInRange sites.now) (IsFirstOutside IsInRange sites.now) }
{
    for (i, site) in sites.iter().enumerate() {
        if !site.is_in_range() {
            return Some(i);
        }
    }
    None
}

/// The first fixed charge out of range.
fn first_fix_out(fixes: &[Fix]) -> Option<usize>
    ensures { MatchOption result (All IsFixInRange fixes.now)
        (IsFirstOutside IsFixInRange fixes.now) }
{
    for (a, fix) in fixes.iter().enumerate() {
        if !fix.is_in_range() {
            return Some(a);
        }
    }
    None
}

/// The first place out of range, counted through the sites and then the fixed charges.
fn first_out(sites: &[Site], fixes: &[Fix]) -> Option<usize>
    ensures { MatchOption result (ArePlacesInRange sites.now fixes.now)
        (IsFirstOutOfRange sites.now fixes.now) }
{
    if let Some(i) = first_site_out(sites) {
        return Some(i);
    }
    match first_fix_out(fixes) {
        None => None,
        Some(a) => Some(sites.len() + a),
    }
}

/// The place that stands here, counted through the sites and then the fixed charges.
fn place_of(sites: &[Site], fixes: &[Fix], k: usize) -> Site
    requires ranges { ArePlacesInRange sites.now fixes.now }
    requires within { k < length sites.now + length fixes.now }
    ensures value { result ≡ place_at (places_of sites.now fixes.now) k }
    ensures in_range { IsInRange result }
{
    if k < sites.len() {
        sites[k]
    } else {
        fixes[k - sites.len()].site
    }
}

/// Whether two places clash.
fn clashes(clash: Clash, a: Site, b: Site) -> bool
    requires a { IsInRange a }
    requires b { IsInRange b }
    ensures { IsTrue result ↔ Clashes clash a b }
{
    match clash {
        Clash::Same => a == b,
        Clash::Close(lattice) => {
            squared_distance_on(&lattice, a, b) < LEAST_SQUARED_DISTANCE as i64
        }
    }
}

/// The earliest place before place `j` that clashes with it.
fn earliest_before(clash: Clash, sites: &[Site], fixes: &[Fix], j: usize) -> Option<usize>
    requires ranges { ArePlacesInRange sites.now fixes.now }
    requires within { j < length sites.now + length fixes.now }
    ensures { MatchOption result (NoneBefore (Clashes clash) (places_of sites.now fixes.now) j)
        (λ i. IsEarliest (Clashes clash) (places_of sites.now fixes.now) i j) }
{
    let place = place_of(sites, fixes, j);
    for i in 0..j {
        if clashes(clash, place_of(sites, fixes, i), place) {
            return Some(i);
        }
    }
    None
}

/// The first place that clashes with an earlier one, behind the earliest that it clashes with.
fn first_pair(clash: Clash, sites: &[Site], fixes: &[Fix]) -> Option<(usize, usize)>
    requires ranges { ArePlacesInRange sites.now fixes.now }
    requires few { length sites.now + length fixes.now ≤ 72 }
    ensures { MatchOption result (HasNoPair (Clashes clash) (places_of sites.now fixes.now))
        (λ pair. IsFirstPair (Clashes clash) (places_of sites.now fixes.now) pair.0 pair.1) }
{
    for j in 0..sites.len() + fixes.len() {
        if let Some(i) = earliest_before(clash, sites, fixes, j) {
            return Some((i, j));
        }
    }
    None
}

/// The refusal of these places and fixed charges on this lattice.
pub(crate) fn fault_of(lattice: Lattice, sites: &[Site], fixes: &[Fix]) -> Option<LayoutFault>
    ensures { MatchOption result (AreFinePlaces lattice sites.now fixes.now)
        (IsLayoutRefusal lattice sites.now fixes.now) }
{
    if let Some(i) = first_out(sites, fixes) {
        return Some(LayoutFault::OutOfRange(i));
    }
    if sites.len() > MAX_SITES {
        return Some(LayoutFault::TooMany);
    }
    if fixes.len() > MAX_FIXED {
        return Some(LayoutFault::TooManyFixes);
    }
    if let Some((i, j)) = first_pair(Clash::Same, sites, fixes) {
        return Some(LayoutFault::Duplicate(i, j));
    }
    match first_pair(Clash::Close(lattice), sites, fixes) {
        None => None,
        Some((i, j)) => Some(LayoutFault::TooClose(i, j)),
    }
}
