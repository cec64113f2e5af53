//! What the energies of entries promise.
ghost use Rattle.std.specs.Prelude.{◌≡◌, List};
ghost use Rattle.charge_model.specs.declared.span.Span.{Span};
ghost use Rattle.charge_model.specs.Problem.{Problem};
ghost use Rattle.charge_model.specs.GroundList.{Entry};
ghost use Rattle.ground_report.specs.Energies.{AreEnergies};

/// The entries of a list have one list of energies at most.
#[tactic(auto, using(crate::proofs::OneSpan::one_list))]
pub fn one_list_of_energies()
    ensures { (p : Problem) (es : List Entry) (spans others : List Span)
        → AreEnergies p es spans → AreEnergies p es others → spans ≡ others }
{}
