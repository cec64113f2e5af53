//! What a mark by a list's own inequalities means.
ghost use Rattle.std.specs.Prelude.{List};
ghost use Rattle.charge_model.specs.declared.charge.Charge.{Charge};
ghost use Rattle.charge_model.specs.declared.mark.Deciding.{Deciding};
ghost use Rattle.charge_model.specs.Problem.{Problem};
ghost use Rattle.charge_model.specs.Rules.{IsCertainlyValid};
ghost use Rattle.charge_validity.specs.OwnMarks.{IsOwnDeciding};

/// A list that an inequality of its own decides is not certainly valid.
#[tactic(auto, using(crate::proofs::OwnMarkLemmas::own_not_certain))]
pub fn decided_lists_are_not_certain()
    ensures { (p : Problem) (c : List Charge) (d : Deciding)
        → IsOwnDeciding p c d → IsCertainlyValid p c → ⊥ }
{}
