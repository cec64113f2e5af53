ghost use Rattle.std.specs.Prelude.{◌≡◌, ◌≢◌, ◌+◌, ◌-◌, ◌*◌, ◌<◌, ◌≤◌, pos, suc, length};
ghost use Rattle.charge_model.specs.Problem.{pairs_before};
ghost use Rattle.sidb_lattice.specs.Classes.{IsClassing, classing_of, class_between, class_near, distance_of, IsDistance};

use std::marker::Model;

/// The squared distances of a layout in rising order, each once, and for each pair of sites and
/// each site with each fixed charge its class: the place of its squared distance in that list.
#[derive(Drop)]
pub struct Classes {
    sites: usize,
    fixes: usize,
    distances: Vec<u64>,
    pair_classes: Vec<usize>,
    near_classes: Vec<usize>,
}

impl Model for Classes {
    ghost use Rattle.sidb_lattice.specs.Classes.{Classing, IsClassing};

    ghost Value = { Classing };

    ghost use Rattle.sidb_lattice.specs.Classed.{classed};

    ghost view = { classed };

    ghost invariant = { λ s. IsClassing (classed s) };
}

impl Classes {
    /// The classes of these parts.
    pub(crate) fn from_parts(
        sites: usize,
        fixes: usize,
        distances: Vec<u64>,
        pair_classes: Vec<usize>,
        near_classes: Vec<usize>,
    ) -> Classes
        requires { IsClassing (classing_of sites fixes distances.items pair_classes.items
            near_classes.items) }
        ensures { result ≡ classing_of sites fixes distances.items pair_classes.items
            near_classes.items }
    {
        Classes {
            sites,
            fixes,
            distances,
            pair_classes,
            near_classes,
        }
    }

    /// How many sites there are.
    pub fn sites(&self) -> usize
        ensures value { result ≡ self.now.sites }
        ensures classes { IsClassing self.now }
    {
        self.sites
    }

    /// How many classes there are.
    pub fn len(&self) -> usize
        ensures value { result ≡ length self.now.distances }
        ensures classes { IsClassing self.now }
    {
        self.distances.len()
    }

    /// The squared distance of a class, in squared hundredths of an ångström.
    pub fn distance(&self, class: usize) -> i64
        requires { class < length self.now.distances }
        ensures value { result ≡ pos (distance_of self.now class) }
        ensures within { IsDistance (distance_of self.now class) }
    {
        self.distances[class] as i64
    }

    /// The class of two distinct sites, in either order.
    pub fn class(&self, i: usize, j: usize) -> usize
        requires distinct { i ≢ j }
        requires i { i < self.now.sites }
        requires j { j < self.now.sites }
        ensures value { result ≡ class_between self.now i j }
        ensures within { result < length self.now.distances }
    {
        let place = if i < j {
            pair_place(self.sites, i, j)
        } else {
            pair_place(self.sites, j, i)
        };
        self.pair_classes[place]
    }

    /// The class of site `i` with fixed charge `a`.
    pub fn near(&self, i: usize, a: usize) -> usize
        requires i { i < self.now.sites }
        requires a { a < self.now.fixes }
        ensures value { result ≡ class_near self.now i a }
        ensures within { result < length self.now.distances }
    {
        self.near_classes[i * self.fixes + a]
    }

    /// The class of each pair of sites, in the order (0,1), (0,2) and on.
    pub fn pair_classes(&self) -> &[usize]
        ensures { result.now ≡ self.now.pair_classes }
    {
        self.pair_classes.as_slice()
    }

    /// The class of each site with each fixed charge, site by site.
    pub fn near_classes(&self) -> &[usize]
        ensures { result.now ≡ self.now.near_classes }
    {
        self.near_classes.as_slice()
    }
}

/// The place of a pair in the order (0,1), (0,2) and on.
fn pair_place(sites: usize, first: usize, second: usize) -> usize
    requires few { sites ≤ 64 }
    requires order { first < second }
    requires second { second < sites }
    ensures value { result ≡ pairs_before sites first + (second - suc first) }
    ensures below { result < pairs_before sites sites }
{
    first * sites - first * (first + 1) / 2 + (second - first - 1)
}
