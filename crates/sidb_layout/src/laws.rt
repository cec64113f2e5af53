ghost use Rattle.std.specs.Prelude.{◌≡◌, ◌≢◌, ◌<◌, ◌≤◌, ◌↔◌, ℕ, List, Contains, length};
ghost use Rattle.sidb_layout.specs.declared.site.Site.{Site};
ghost use Rattle.sidb_layout.specs.declared.site.Fix.{Fix};
ghost use Rattle.sidb_layout.specs.declared.lattice.Lattice.{Lattice};
ghost use Rattle.sidb_layout.specs.declared.fault.LayoutFault.{LayoutFault};
ghost use Rattle.sidb_layout.specs.Site.{IsInRange, place_at};
ghost use Rattle.sidb_layout.specs.Lattice.{silicon, squared_distance};
ghost use Rattle.sidb_layout.specs.Layout.{Arrangement};
ghost use Rattle.sidb_layout.specs.Dropping.{sites_but};
ghost use Rattle.sidb_layout.specs.Refusal.{IsMadeOf, IsLayoutRefusal};

use crate::LEAST_SQUARED_DISTANCE;

/// Different places of the default lattice are at least 2.25 Å apart.
#[tactic(auto, using(crate::proofs::Silicon::roomy))]
pub fn default_lattice_is_roomy()
    ensures { (a b : Site) → IsInRange a → IsInRange b → a ≢ b
        → LEAST_SQUARED_DISTANCE ≤ squared_distance silicon a b }
{}

/// Two places are as far apart in either order.
pub fn distances_have_no_direction()
    ensures { (v : Lattice) (a b : Site) → squared_distance v a b ≡ squared_distance v b a }
{}

/// The same places and fixed charges have one refusal at most.
#[tactic(auto, using(crate::proofs::OneRefusal::one_refusal))]
pub fn one_refusal()
    ensures { (v : Lattice) (sites : List Site) (fixes : List Fix) (f g : LayoutFault)
        → IsLayoutRefusal v sites fixes f → IsLayoutRefusal v sites fixes g → f ≡ g }
{}

/// The same places and fixed charges make one layout.
pub fn one_layout()
    ensures { (v : Lattice) (sites : List Site) (fixes : List Fix) (p q : Arrangement)
        → IsMadeOf v sites fixes p → IsMadeOf v sites fixes q → p ≡ q }
{}

/// The sites that stay are exactly those whose places are not gone.
pub fn the_other_sites_stay()
    ensures { (gone : List ℕ) (sites : List Site) (s : Site) → Contains (sites_but gone sites) s
        ↔ ((k : ℕ) × (k < length sites) × (¬ Contains gone k) × (place_at sites k ≡ s)) }
{}
