// The classes of a layout's squared distances.
ghost use Rattle.std.specs.Prelude.{◌≡◌, ◌≢◌, ◌<◌, ◌+◌, ◌≤◌, ◌⊎◌, length, Contains, slice_index, IfOk, All};
ghost use Rattle.std.specs.List.Sorted.{IsStrictlyIncreasing};
ghost use Rattle.sidb_lattice.specs.Classes.{AreClasses, IsDistance, pair_distance as distance_of_pair, near_distance as distance_of_near};
ghost use Rattle.sidb_lattice.specs.Measured.{AreAllPairs, AreAllNear, AreRising, ArePlaces};

use crate::Classes;
use sidb_layout::{Layout, squared_distance_on};
use sidb_units::Memory;
use std::alloc::Global;

/// The squared distance of two sites.
fn pair_distance(layout: &Layout, i: usize, j: usize) -> u64
    requires order { i < j }
    requires within { j < length layout.now.sites }
    ensures value { result ≡ distance_of_pair layout.now i j }
    ensures in_range { IsDistance result }
{
    let _sites = layout.len();
    squared_distance_on(&layout.lattice(), layout.site(i), layout.site(j)) as u64
}

/// The squared distance of a site and a fixed charge.
fn near_distance(layout: &Layout, i: usize, a: usize) -> u64
    requires i { i < length layout.now.sites }
    requires a { a < length layout.now.fixes }
    ensures value { result ≡ distance_of_near layout.now i a }
    ensures in_range { IsDistance result }
{
    let _sites = layout.len();
    squared_distance_on(&layout.lattice(), layout.site(i), layout.fix(a).site) as u64
}

/// The squared distance of each pair of sites, in the order (0,1), (0,2) and on.
fn pair_distances(alloc: Global, layout: &Layout) -> Result<Vec<u64>, Memory>
    ensures { IfOk result (λ distances. AreAllPairs layout.now distances.items) }
{
    let sites = layout.len();
    let mut distances = Vec::new(alloc);
    for i in 0..sites {
        for j in i + 1..sites {
            distances.push(pair_distance(layout, i, j))?;
        }
    }
    Ok(distances)
}

/// The squared distance of each site with each fixed charge, site by site.
fn near_distances(alloc: Global, layout: &Layout) -> Result<Vec<u64>, Memory>
    ensures { IfOk result (λ distances. AreAllNear layout.now distances.items) }
{
    let fixes = layout.fixes();
    let mut distances = Vec::new(alloc);
    for i in 0..layout.len() {
        for a in 0..fixes {
            distances.push(near_distance(layout, i, a))?;
        }
    }
    Ok(distances)
}

/// The numbers of two lists in rising order, each once.
fn rising(alloc: Global, pairs: &[u64], near: &[u64]) -> Result<Vec<u64>, Memory>
    ensures { IfOk result (λ distances. AreRising pairs.now near.now distances.items) }
{
    let mut distances = Vec::from_slice(alloc, pairs)?;
    distances.extend_from_slice(near)?;
    distances.sort_unstable();
    distances.dedup();
    Ok(distances)
}

/// The place of a number in a rising list.
fn place_in(distances: &[u64], distance: u64) -> usize
    requires rising { IsStrictlyIncreasing distances.now }
    requires present { Contains distances.now distance }
    ensures within { result < length distances.now }
    ensures value { slice_index distances.now result ≡ distance }
{
    match distances.binary_search(&distance) {
        Ok(place) => place,
        Err(_) => unreachable!(),
    }
}

/// The place of each wanted number in a rising list.
fn places_in(alloc: Global, distances: &[u64], wanted: &[u64]) -> Result<Vec<usize>, Memory>
    requires rising { IsStrictlyIncreasing distances.now }
    requires present { All (Contains distances.now) wanted.now }
    ensures { IfOk result (λ places. ArePlaces distances.now wanted.now places.items) }
{
    let mut places = Vec::new(alloc);
    for distance in wanted {
        places.push(place_in(distances, *distance))?;
    }
    Ok(places)
}

/// The classes of the squared distances of a layout: one for each value among the pairs of sites
/// and the sites with fixed charges, by rising value.
pub fn classes_of(alloc: Global, layout: &Layout) -> Result<Classes, Memory>
    ensures { IfOk result (AreClasses layout.now) }
{
    let pairs = pair_distances(alloc, layout)?;
    let near = near_distances(alloc, layout)?;
    let distances = rising(alloc, pairs.as_slice(), near.as_slice())?;
    let pair_classes = places_in(alloc, distances.as_slice(), pairs.as_slice())?;
    let near_classes = places_in(alloc, distances.as_slice(), near.as_slice())?;
    let (sites, fixes) = (layout.len(), layout.fixes());
    Ok(Classes::from_parts(sites, fixes, distances, pair_classes, near_classes))
}
