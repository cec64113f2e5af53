// Layouts of given places.
ghost use Rattle.std.specs.Prelude.{◌≡◌, ◌≢◌, ◌↔◌, ℕ, [], Err, IfOk};
ghost use Rattle.sidb_layout.specs.declared.fault.LayoutFault.{LayoutFault};
ghost use Rattle.sidb_layout.specs.Lattice.{silicon};
ghost use Rattle.sidb_layout.specs.Refusal.{IsMadeOf, IsLayoutRefusal};
ghost use Rattle.sidb_layout.specs.Clash.{AreFinePlaces};

use crate::faults::fault_of;
use crate::{Fix, Lattice, Layout, LayoutFault, Site, default_lattice};
use sidb_units::Memory;
use std::alloc::Global;

/// The layout of places that are not refused.
fn made(alloc: Global, lattice: Lattice, sites: &[Site], fixes: &[Fix]) -> Result<Layout, Memory>
    requires { AreFinePlaces lattice sites.now fixes.now }
    ensures { IfOk result (IsMadeOf lattice sites.now fixes.now) }
{
    let mut own_sites = Vec::from_slice(alloc, sites)?;
    own_sites.sort()?;
    let mut own_fixes = Vec::from_slice(alloc, fixes)?;
    own_fixes.sort_by_key(|fix| fix.site)?;
    Ok(Layout::from_parts(lattice, own_sites, own_fixes))
}

/// The layout on this lattice that holds these sites and fixed charges, in row order.
pub fn layout_on(
    alloc: Global,
    lattice: Lattice,
    sites: &[Site],
    fixes: &[Fix],
) -> Result<Layout, LayoutFault>
    ensures made { IfOk result (IsMadeOf lattice sites.now fixes.now) }
    ensures refused { (fault : LayoutFault) → fault ≢ LayoutFault.Memory
        → ((result ≡ Err fault) ↔ IsLayoutRefusal lattice sites.now fixes.now fault) }
{
    if let Some(fault) = fault_of(lattice, sites, fixes) {
        return Err(fault);
    }
    match made(alloc, lattice, sites, fixes) {
        Ok(layout) => Ok(layout),
        Err(Memory) => Err(LayoutFault::Memory),
    }
}

/// The layout on the default lattice that holds these sites and fixed charges, in row order.
pub fn layout_with(alloc: Global, sites: &[Site], fixes: &[Fix]) -> Result<Layout, LayoutFault>
    ensures made { IfOk result (IsMadeOf silicon sites.now fixes.now) }
    ensures refused { (fault : LayoutFault) → fault ≢ LayoutFault.Memory
        → ((result ≡ Err fault) ↔ IsLayoutRefusal silicon sites.now fixes.now fault) }
    ensures never_too_close { (i j : ℕ) → result ≢ Err (LayoutFault.TooClose i j) }
{
    layout_on(alloc, default_lattice(), sites, fixes)
}

/// The layout on the default lattice that holds these sites, in row order, and no fixed charge.
pub fn layout_of(alloc: Global, sites: &[Site]) -> Result<Layout, LayoutFault>
    ensures made { IfOk result (IsMadeOf silicon sites.now []) }
    ensures refused { (fault : LayoutFault) → fault ≢ LayoutFault.Memory
        → ((result ≡ Err fault) ↔ IsLayoutRefusal silicon sites.now [] fault) }
    ensures never_too_close { (i j : ℕ) → result ≢ Err (LayoutFault.TooClose i j) }
{
    layout_with(alloc, sites, &[])
}
