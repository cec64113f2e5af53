//! What the marks of whole texts promise: each text is whole in one way, or has one first fault.
ghost use Rattle.std.specs.Prelude.{◌≡◌, ◌⊎◌, ℕ, List};
ghost use Rattle.sqd_nesting.specs.Texts.{Item, IsWhole};
ghost use Rattle.sqd_nesting.specs.Faults.{IsFirstFault};
ghost use Rattle.sqd_scan.specs.declared.fault.SqdFault.{SqdFault as FaultData};

/// A whole text is one list of items: its marks, each name, blank, quote and value of them, and
/// what stands between them.
pub fn one_reading()
    ensures { (text : List ℕ) (xs ys : List Item) → IsWhole text xs → IsWhole text ys → xs ≡ ys }
{
    sqd_scan::laws::one_mark();
}

/// A text has one first fault at most.
pub fn one_fault()
    ensures { (text : List ℕ) (f g : FaultData)
        → IsFirstFault text f → IsFirstFault text g → f ≡ g }
{
    sqd_scan::laws::one_mark();
    sqd_scan::laws::no_mark_fault();
    sqd_scan::laws::one_mark_fault();
}

/// A whole text has no fault.
pub fn no_fault()
    ensures { (text : List ℕ) (items : List Item) (f : FaultData)
        → IsWhole text items → IsFirstFault text f → ⊥ }
{
    sqd_scan::laws::one_mark();
    sqd_scan::laws::no_mark_fault();
    sqd_scan::laws::one_mark_fault();
}

/// Each text is whole, or has a first fault.
pub fn some_reading()
    ensures { (text : List ℕ) → ((items : List Item) × IsWhole text items)
        ⊎ ((f : FaultData) × IsFirstFault text f) }
{
    sqd_scan::laws::some_front();
}
