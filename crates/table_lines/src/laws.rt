//! What the lines of table texts promise: each text has one list of them, or a first row at fault.
ghost use Rattle.std.specs.Prelude.{◌≡◌, ◌⊎◌, ◌++◌, ℕ, List};
ghost use Rattle.table_lines.specs.declared.fault.TableFault.{TableFault as FaultData};
ghost use Rattle.table_lines.specs.declared.line.TableLine.{TableLine as LineData};
ghost use Rattle.table_lines.specs.FineLines.{AreTableLinesIn, IsRowFault};

use text_rows::laws::{each_text_has_rows, each_word_is_read};

/// A text has one list of lines at most.
pub fn one_list_of_lines()
    ensures { (text : List ℕ) (ls ms : List LineData)
        → AreTableLinesIn text ls → AreTableLinesIn text ms → ls ≡ ms }
{}

/// A text begins with one list of lines at most.
pub fn one_front_of_lines()
    ensures { (a b x y : List ℕ) (ls ms : List LineData)
        → AreTableLinesIn a ls → AreTableLinesIn b ms → a ++ x ≡ b ++ y → ls ≡ ms }
{}

/// A text has one first row at fault at most.
pub fn one_row_fault()
    ensures { (first : ℕ) (text : List ℕ) (f g : FaultData)
        → IsRowFault first text f → IsRowFault first text g → f ≡ g }
{}

/// A text that is a list of lines has no row at fault.
pub fn no_row_fault()
    ensures { (first : ℕ) (text : List ℕ) (ls : List LineData) (f : FaultData)
        → AreTableLinesIn text ls → IsRowFault first text f → ⊥ }
{}

/// Each text is a list of lines, or has a first row at fault.
pub fn each_text_has_lines()
    ensures { (text : List ℕ) → ((ls : List LineData) × AreTableLinesIn text ls)
        ⊎ ((f : FaultData) × IsRowFault 1 text f) }
{
    each_word_is_read();
    each_text_has_rows();
}
