//! What drawings promise: each text draws one thing, or has one first fault, and never both.
ghost use Rattle.std.specs.Prelude.{◌≡◌, ◌⊎◌, ℕ, List};
ghost use Rattle.sqd_dots.specs.declared.drawing.Dot.{Dot as DotData};
ghost use Rattle.sqd_scan.specs.declared.fault.SqdFault.{SqdFault as FaultData};
ghost use Rattle.sqd_dots.specs.Drawings.{IsDrawing, IsDrawingFault};

/// A text draws one list of dots at most, and skips one number of items.
pub fn one_drawing()
    ensures { (text : List ℕ) (a b : List DotData) (j k : ℕ)
        → IsDrawing text a j → IsDrawing text b k → (a ≡ b) × (j ≡ k) }
{
    sqd_nesting::laws::one_reading();
}

/// A text has one first fault at most.
pub fn one_fault()
    ensures { (text : List ℕ) (f g : FaultData)
        → IsDrawingFault text f → IsDrawingFault text g → f ≡ g }
{
    sqd_nesting::laws::one_reading();
    sqd_nesting::laws::one_fault();
    sqd_nesting::laws::no_fault();
}

/// A text that draws something has no fault.
pub fn no_fault()
    ensures { (text : List ℕ) (dots : List DotData) (skipped : ℕ) (f : FaultData)
        → IsDrawing text dots skipped → IsDrawingFault text f → ⊥ }
{
    sqd_nesting::laws::one_reading();
    sqd_nesting::laws::no_fault();
}

/// Each text draws something, or has a first fault.
pub fn some_reading()
    ensures { (text : List ℕ)
        → ((dots : List DotData) × (skipped : ℕ) × IsDrawing text dots skipped)
        ⊎ ((f : FaultData) × IsDrawingFault text f) }
{
    sqd_nesting::laws::some_reading();
}
