//! What printed table texts promise: each is read back as the problem that it was printed of.
ghost use Rattle.std.specs.Prelude.{◌≡◌};
ghost use Rattle.charge_model.specs.Problem.{Problem as ProblemData, IsProblem};
ghost use Rattle.text_rows.specs.Rows.{text_of};
ghost use Rattle.table_reading.specs.Reading.{IsTableText};
ghost use Rattle.potential_table.specs.TableRows.{table_rows};

pub use table_reading::laws::{each_text_is_read, no_fault, one_fault, one_problem};

/// What is printed of a problem is a table text of it.
pub fn printed_text()
    ensures { (p : ProblemData) → IsProblem p → IsTableText (text_of (table_rows p)) p }
{}

/// What is printed of a problem is read back as this problem, and as no other.
pub fn read_back()
    ensures { (p q : ProblemData) → IsProblem p → IsTableText (text_of (table_rows p)) q → q ≡ p }
{}
