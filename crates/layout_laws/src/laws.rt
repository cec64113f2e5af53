ghost use Rattle.std.specs.Prelude.{◌≡◌, ◌≢◌, ◌⊎◌, List, AllPairs};
ghost use Rattle.sidb_layout.specs.declared.site.Site.{Site};
ghost use Rattle.sidb_layout.specs.declared.site.Fix.{Fix};
ghost use Rattle.sidb_layout.specs.declared.lattice.Lattice.{Lattice};
ghost use Rattle.sidb_layout.specs.declared.fault.LayoutFault.{LayoutFault};
ghost use Rattle.sidb_layout.specs.Site.{IsInRange, IsFixInRange, places_of};
ghost use Rattle.sidb_layout.specs.Layout.{Arrangement};
ghost use Rattle.sidb_layout.specs.Refusal.{IsTooClose, AreFew, AreDistinct, IsMadeOf, IsLayoutRefusal};

/// A place is in range, or it is not.
#[tactic(auto, using(crate::proofs::Decisions::in_range))]
pub fn places_are_in_range_or_not()
    ensures { (s : Site) → IsInRange s ⊎ (IsInRange s → ⊥) }
{}

/// A fixed charge is in range, or it is not.
#[tactic(auto, using(crate::proofs::Decisions::fix_in_range))]
pub fn fixes_are_in_range_or_not()
    ensures { (f : Fix) → IsFixInRange f ⊎ (IsFixInRange f → ⊥) }
{}

/// Two places are the same, or they are not.
#[tactic(auto, using(crate::proofs::Decisions::same))]
pub fn places_are_the_same_or_not()
    ensures { (a b : Site) → (a ≡ b) ⊎ (a ≢ b) }
{}

/// Few places and fixed charges in range, no two of them the same or too close, make a layout.
pub fn clear_places_make_a_layout()
    ensures { (v : Lattice) (sites : List Site) (fixes : List Fix) → AreFew sites fixes
        → AreDistinct (places_of sites fixes)
        → AllPairs (λ a b. ¬ IsTooClose v a b) (places_of sites fixes)
        → (p : Arrangement) × IsMadeOf v sites fixes p }
{
    sidb_layout::laws::distances_have_no_direction();
}

/// Places and fixed charges make a layout and have no refusal, or they have a refusal.
pub fn places_make_a_layout_or_are_refused()
    ensures { (v : Lattice) (sites : List Site) (fixes : List Fix)
        → ((p : Arrangement) × IsMadeOf v sites fixes p
        × ((f : LayoutFault) → IsLayoutRefusal v sites fixes f → ⊥))
        ⊎ ((f : LayoutFault) × IsLayoutRefusal v sites fixes f) }
{
    sidb_layout::laws::distances_have_no_direction();
}

/// Places and fixed charges that make a layout have no refusal.
pub fn a_layout_is_not_refused()
    ensures { (v : Lattice) (sites : List Site) (fixes : List Fix) (p : Arrangement)
        (f : LayoutFault) → IsMadeOf v sites fixes p → IsLayoutRefusal v sites fixes f → ⊥ }
{}
