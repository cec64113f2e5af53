//! What holds of every input: it has one meaning, or one fault.
ghost use Rattle.std.specs.Prelude.{◌≡◌, ◌≢◌, ◌⊎◌, ℕ, List, Some};
ghost use Rattle.charge_model.specs.Problem.{Problem as ProblemData, IsProblem};
ghost use Rattle.command_words.specs.declared.settings.InputForm.{InputForm};
ghost use Rattle.command_words.specs.declared.settings.Settings.{Settings};
ghost use Rattle.fault_lines.specs.declared.input_fault.InputFault.{InputFault};
ghost use Rattle.fault_lines.specs.FaultLines.{IsNamed};
ghost use Rattle.ground_report.specs.declared.about.About.{About as AboutData};
ghost use Rattle.sidb_layout.specs.Layout.{Arrangement, IsLayout};
ghost use Rattle.task_input.specs.Input.{HoldsDistancesBy, IsInput, IsInputFault};

use layout_text_laws::laws::{each_sites_text_is_read, each_text_is_drawn};
use screened_coulomb::laws as layout_problems;

/// By the same settings the same bytes mean one problem, of which one thing is told.
pub fn one_input()
    ensures { (s : Settings) (bytes : List ℕ) (p q : ProblemData) (a b : AboutData)
        → IsInput s bytes p a → IsInput s bytes q b → (p ≡ q) × (a ≡ b) }
{
    sites_layout::laws::one_layout();
    sqd_layout::laws::one_drawn_layout();
    layout_problems::one_problem();
    potential_table::laws::one_problem();
}

/// In one form bytes have one fault at most.
pub fn one_fault()
    ensures { (form : InputForm) (bytes : List ℕ) (f g : InputFault) → IsInputFault form bytes f
        → IsInputFault form bytes g → f ≡ g }
{
    sites_layout::laws::one_fault();
    sqd_layout::laws::one_sqd_fault();
    potential_table::laws::one_fault();
}

/// Bytes that mean a problem have no fault.
pub fn no_fault()
    ensures { (s : Settings) (bytes : List ℕ) (p : ProblemData) (a : AboutData) (f : InputFault)
        → IsInput s bytes p a → IsInputFault s.form bytes f → ⊥ }
{
    sites_layout::laws::no_fault();
    sqd_layout::laws::no_sqd_fault();
    potential_table::laws::no_fault();
}

/// By all settings each input means a problem, or has a first fault, which is not want of memory.
pub fn some_input()
    ensures { (s : Settings) (bytes : List ℕ)
        → ((p : ProblemData) × (a : AboutData) × IsInput s bytes p a × IsProblem p)
        ⊎ ((f : InputFault) × IsInputFault s.form bytes f × IsNamed f) }
{
    each_sites_text_is_read();
    each_text_is_drawn();
    potential_table::laws::each_text_is_read();
    layout_problems::each_layout_has_a_problem();
}

/// Where an input has a layout, the span of each class holds the distance of its pairs.
pub fn spans_hold_distances()
    ensures { (s : Settings) (bytes : List ℕ) (p : ProblemData) (a : AboutData)
        (layout : Arrangement) → IsInput s bytes p a → a.layout ≡ Some layout
        → HoldsDistancesBy s layout p }
{}

/// An input that is not a table has a layout.
pub fn inputs_have_layouts()
    ensures { (s : Settings) (bytes : List ℕ) (p : ProblemData) (a : AboutData)
        → IsInput s bytes p a → s.form ≢ InputForm.Table
        → (layout : Arrangement) × (a.layout ≡ Some layout) }
{}

/// What is told of as the layout of an input is one.
pub fn input_layouts_are_layouts()
    ensures { (s : Settings) (bytes : List ℕ) (p : ProblemData) (a : AboutData)
        (layout : Arrangement) → IsInput s bytes p a → a.layout ≡ Some layout
        → IsLayout layout }
{}
