//! What the marks in front of bytes promise.
ghost use Rattle.std.specs.Prelude.{◌≡◌, ◌⊎◌, ℕ, List, ◌++◌};
ghost use Rattle.sqd_marks.specs.Marks.{TextMark, IsWellFormedMark, mark_bytes};
ghost use Rattle.sqd_scan.specs.Fronts.{HasMark, IsFaultOf};
ghost use Rattle.sqd_scan.specs.declared.fault.SqdFault.{SqdFault as FaultData};

/// Bytes begin with one mark at most, each name, blank, quote and value of it; so no mark is the
/// front of another.
pub fn one_mark()
    ensures { (m n : TextMark) (x y : List ℕ) → IsWellFormedMark m → IsWellFormedMark n
        → mark_bytes m ++ x ≡ mark_bytes n ++ y → m ≡ n }
{
    sqd_marks::laws::one_spelling();
}

/// Bytes that begin with a mark don't end inside one, and no byte of theirs is the first that
/// continues none.
pub fn no_mark_fault()
    ensures { (at : ℕ) (bytes : List ℕ) (m : TextMark) (x : List ℕ) (fault : FaultData)
        → IsWellFormedMark m → bytes ≡ mark_bytes m ++ x → IsFaultOf at bytes fault → ⊥ }
{}

/// Bytes that begin with no mark have one reason for it.
pub fn one_mark_fault()
    ensures { (at : ℕ) (bytes : List ℕ) (f g : FaultData)
        → IsFaultOf at bytes f → IsFaultOf at bytes g → f ≡ g }
{}

/// All bytes begin with a mark, or have a reason for it that they begin with none.
pub fn some_front()
    ensures { (at : ℕ) (bytes : List ℕ)
        → HasMark bytes ⊎ ((f : FaultData) × IsFaultOf at bytes f) }
{}
