//! What the report in JSON promises.
ghost use Rattle.std.specs.Prelude.{◌≡◌, ℕ, Bool, List, None, false, map};
ghost use Rattle.charge_model.specs.Problem.{Problem};
ghost use Rattle.charge_model.specs.GroundList.{Entry};
ghost use Rattle.ground_report.specs.declared.about.About.{About as AboutData};
ghost use Rattle.serde_json.specs.View.{items_of};
ghost use Rattle.serde_json.specs.Written.{items_have_float};
ghost use Rattle.sim_report_json.specs.Parts.{entry_data};
ghost use Rattle.sim_report_json.specs.GroundJson.{IsGroundJson};

/// For what it is about, a problem and entries there is one report in JSON at most, with energies
/// or without.
pub fn one_ground_json()
    ensures { (a : AboutData) (p : Problem) (es : List Entry) (energies : Bool) (s t : List ℕ)
        → IsGroundJson a p es energies s → IsGroundJson a p es energies t → s ≡ t }
{
    ground_report::laws::one_list_of_energies();
}

/// The entries of a report without energies have no float, so that their compact text is known.
#[tactic(auto, using(crate::proofs::NoFloats::plain_no_float))]
pub fn entries_have_no_floats()
    ensures { (es : List Entry) → items_have_float (items_of (map (entry_data None) es)) ≡ false }
{}
