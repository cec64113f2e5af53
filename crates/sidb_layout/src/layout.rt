ghost use Rattle.std.specs.Prelude.{◌≡◌, ◌<◌, length, slice_get, Some, IfOk};
ghost use Rattle.sidb_layout.specs.Layout.{IsLayout, arrangement_of};
ghost use Rattle.sidb_layout.specs.Dropping.{sites_but};
ghost use Rattle.sidb_layout.specs.Site.{place_at, places_of_fixes};

use crate::dropping::kept_sites;
use crate::{Fix, Lattice, Site};
use sidb_units::Memory;
use std::alloc::Global;
use std::marker::Model;

/// Places of one lattice that hold sites, at most 64, and fixed point charges, at most 8. Each list
/// stands in row order, and all places are distinct and at least 2.25 Å apart.
#[derive(Drop)]
pub struct Layout {
    lattice: Lattice,
    sites: Vec<Site>,
    fixes: Vec<Fix>,
}

impl Model for Layout {
    ghost use Rattle.sidb_layout.specs.Layout.{Arrangement, IsLayout};

    ghost Value = { Arrangement };

    ghost use Rattle.sidb_layout.specs.Arranged.{arranged};

    ghost view = { arranged };

    ghost invariant = { λ s. IsLayout (arranged s) };
}

impl Layout {
    /// The layout of these parts.
    pub(crate) fn from_parts(lattice: Lattice, sites: Vec<Site>, fixes: Vec<Fix>) -> Layout
        requires { IsLayout (arrangement_of lattice sites.items fixes.items) }
        ensures { result ≡ arrangement_of lattice sites.items fixes.items }
    {
        Layout {
            lattice,
            sites,
            fixes,
        }
    }

    /// How many sites there are.
    pub fn len(&self) -> usize
        ensures value { result ≡ length self.now.sites }
        ensures layout { IsLayout self.now }
    {
        self.sites.len()
    }

    /// The place of site `i`, counted in row order.
    pub fn site(&self, i: usize) -> Site
        requires { i < length self.now.sites }
        ensures { result ≡ place_at self.now.sites i }
    {
        self.sites[i]
    }

    /// How many fixed charges there are.
    pub fn fixes(&self) -> usize
        ensures value { result ≡ length self.now.fixes }
        ensures layout { IsLayout self.now }
    {
        self.fixes.len()
    }

    /// Fixed charge `a`, counted in row order.
    pub fn fix(&self, a: usize) -> Fix
        requires { a < length self.now.fixes }
        ensures value { slice_get self.now.fixes a ≡ Some result }
        ensures place { result.site ≡ place_at (places_of_fixes self.now.fixes) a }
    {
        self.fixes[a]
    }

    /// The lattice of the places.
    pub fn lattice(&self) -> Lattice
        ensures { result ≡ self.now.lattice }
    {
        self.lattice
    }
}

/// The layout without the sites at these places, counted in row order. Its lattice and its fixed
/// charges stay.
pub fn without(alloc: Global, layout: &Layout, gone: &[usize]) -> Result<Layout, Memory>
    ensures { IfOk result (λ left. left ≡ arrangement_of layout.now.lattice
        (sites_but gone.now layout.now.sites) layout.now.fixes) }
{
    let kept = kept_sites(alloc, layout.sites.as_slice(), gone)?;
    let fixes = Vec::from_slice(alloc, layout.fixes.as_slice())?;
    Ok(Layout::from_parts(layout.lattice, kept, fixes))
}
