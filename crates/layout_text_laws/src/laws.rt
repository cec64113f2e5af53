ghost use Rattle.std.specs.Prelude.{◌⊎◌, ℕ, List};
ghost use Rattle.sidb_layout.specs.Layout.{Arrangement};
ghost use Rattle.sqd_layout.specs.SqdFault.{SqdFault};
ghost use Rattle.sites_layout.specs.SitesFaults.{IsSitesText, IsSitesFault};
ghost use Rattle.sqd_layout.specs.DotsFaults.{IsSqdText, IsSqdFault};

/// Each text is the sites text of a layout, or has a first fault.
pub fn each_sites_text_is_read()
    ensures { (text : List ℕ) → ((p : Arrangement) × IsSitesText text p)
        ⊎ ((f : SqdFault) × IsSitesFault text f) }
{
    layout_laws::laws::places_are_in_range_or_not();
    layout_laws::laws::fixes_are_in_range_or_not();
    layout_laws::laws::places_are_the_same_or_not();
    sites_layout::laws::clear_lines_make_a_layout();
}

/// Each text draws a layout and skips some number of items, or it has a first fault.
pub fn each_text_is_drawn()
    ensures { (text : List ℕ)
        → ((layout : Arrangement) × (skipped : ℕ) × IsSqdText text layout skipped)
        ⊎ ((f : SqdFault) × IsSqdFault text f) }
{
    sqd_dots::laws::some_reading();
    layout_laws::laws::places_make_a_layout_or_are_refused();
    sidb_layout::laws::default_lattice_is_roomy();
}
