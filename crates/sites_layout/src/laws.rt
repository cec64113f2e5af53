//! What sites texts promise: each has one reading.
ghost use Rattle.std.specs.Prelude.{◌≡◌, ℕ, List};
ghost use Rattle.sidb_layout.specs.declared.lattice.Lattice.{Lattice};
ghost use Rattle.sidb_layout.specs.Layout.{Arrangement};
ghost use Rattle.sidb_layout.specs.Refusal.{IsMadeOf};
ghost use Rattle.sqd_scan.specs.declared.fault.SqdFault.{SqdFault as FaultData};
ghost use Rattle.sites_layout.specs.declared.line.SitesLine.{SitesLine};
ghost use Rattle.sites_layout.specs.SitesLines.{sites_in_lines, fixes_of};
ghost use Rattle.sites_layout.specs.SitesFaults.{IsClear, IsSitesText, IsSitesFault};

/// A text is the sites text of one layout at most.
pub fn one_layout()
    ensures { (text : List ℕ) (p q : Arrangement)
        → IsSitesText text p → IsSitesText text q → p ≡ q }
{
    sidb_layout::laws::one_layout();
}

/// A text has one first fault at most.
pub fn one_fault()
    ensures { (text : List ℕ) (f g : FaultData)
        → IsSitesFault text f → IsSitesFault text g → f ≡ g }
{}

/// A sites text has no fault.
pub fn no_fault()
    ensures { (text : List ℕ) (p : Arrangement) (f : FaultData)
        → IsSitesText text p → IsSitesFault text f → ⊥ }
{}

/// Lines without a fault give sites and fixed charges that make a layout.
pub fn clear_lines_make_a_layout()
    ensures { (v : Lattice) (ls : List SitesLine) → IsClear v ls
        → (p : Arrangement) × IsMadeOf v (sites_in_lines ls) (fixes_of ls) p }
{
    sidb_layout::laws::distances_have_no_direction();
    layout_laws::laws::clear_places_make_a_layout();
}
