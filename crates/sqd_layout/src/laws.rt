//! What files of SiQAD promise: each has one reading.
ghost use Rattle.std.specs.Prelude.{◌≡◌, ℕ, List};
ghost use Rattle.sidb_layout.specs.Layout.{Arrangement};
ghost use Rattle.sqd_scan.specs.declared.fault.SqdFault.{SqdFault as FaultData};
ghost use Rattle.sqd_layout.specs.DotsFaults.{IsSqdText, IsSqdFault};

/// A text in the manner of SiQAD draws one layout at most, and skips one number of items.
pub fn one_drawn_layout()
    ensures { (text : List ℕ) (p q : Arrangement) (j k : ℕ)
        → IsSqdText text p j → IsSqdText text q k → (p ≡ q) × (j ≡ k) }
{
    sqd_dots::laws::one_drawing();
    sidb_layout::laws::one_layout();
}

/// A text has one first fault at most as a text in the manner of SiQAD.
pub fn one_sqd_fault()
    ensures { (text : List ℕ) (f g : FaultData)
        → IsSqdFault text f → IsSqdFault text g → f ≡ g }
{
    sqd_dots::laws::one_drawing();
    sqd_dots::laws::one_fault();
    sqd_dots::laws::no_fault();
    sidb_layout::laws::one_refusal();
}

/// A text that draws a layout has no fault.
pub fn no_sqd_fault()
    ensures { (text : List ℕ) (p : Arrangement) (skipped : ℕ) (f : FaultData)
        → IsSqdText text p skipped → IsSqdFault text f → ⊥ }
{
    sqd_dots::laws::one_drawing();
    sqd_dots::laws::no_fault();
    layout_laws::laws::a_layout_is_not_refused();
}
