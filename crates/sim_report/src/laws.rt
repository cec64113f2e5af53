//! What the texts promise.
ghost use Rattle.std.specs.Prelude.{◌≡◌, ℕ, ℤ, Bool, List};
ghost use Rattle.charge_model.specs.Problem.{Problem};
ghost use Rattle.charge_model.specs.GroundList.{Entry};
ghost use Rattle.ground_report.specs.declared.about.About.{About as AboutData};
ghost use Rattle.sim_report.specs.GroundText.{IsGroundText};
ghost use Rattle.sim_report.specs.WindowText.{IsWindowText};

/// For what it is about, a problem and entries there is one ground text at most, with energies or
/// without.
pub fn one_ground_text()
    ensures { (a : AboutData) (p : Problem) (es : List Entry) (energies : Bool) (s t : List ℕ)
        → IsGroundText a p es energies s → IsGroundText a p es energies t → s ≡ t }
{
    ground_report::laws::one_list_of_energies();
}

/// The same of the window text.
pub fn one_window_text()
    ensures { (a : AboutData) (p : Problem) (window : ℤ) (es : List Entry) (energies : Bool)
        (s t : List ℕ) → IsWindowText a p window es energies s
        → IsWindowText a p window es energies t → s ≡ t }
{
    ground_report::laws::one_list_of_energies();
}
