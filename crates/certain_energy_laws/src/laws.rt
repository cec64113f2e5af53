ghost use Rattle.std.specs.Prelude.{◌⊎◌, ℤ, ◌-ℤ◌, List, Option};
ghost use Rattle.charge_model.specs.declared.charge.Charge.{Charge};
ghost use Rattle.charge_model.specs.Problem.{Problem, Table, IsProblem, IsLeast, IsGreatest};
ghost use Rattle.charge_model.specs.Rules.{energy, slack, Inequality, IsInequalityOf, IsChargeList, IsValid, Beats};
ghost use Rattle.charge_model.specs.GroundList.{IsCandidate};
ghost use Rattle.charge_model.specs.Tree.{IsLeastCertain};

/// The energy of a charge list has a greatest value over the tables of scale 1.
#[tactic(auto, using(crate::proofs::Extremes::greatest_energy))]
pub fn energies_have_greatest_values()
    ensures { (p : Problem) (c : List Charge) → IsProblem p
        → (greatest : ℤ) × IsGreatest p (λ t. energy p t c) greatest }
{}

/// The energy of a charge list has a least value over the tables of scale 1.
#[tactic(auto, using(crate::proofs::Extremes::least_energy))]
pub fn energies_have_least_values()
    ensures { (p : Problem) (c : List Charge) → IsProblem p
        → (least : ℤ) × IsLeast p (λ t. energy p t c) least }
{}

/// The energy of one charge list less that of another has a least and a greatest value over the
/// tables of scale 1.
pub fn energy_differences_have_extremes()
    ensures least { (p : Problem) (w c : List Charge) → IsProblem p
        → (least : ℤ) × IsLeast p (λ t. energy p t w -ℤ energy p t c) least }
    ensures greatest { (p : Problem) (w c : List Charge) → IsProblem p
        → (greatest : ℤ) × IsGreatest p (λ t. energy p t w -ℤ energy p t c) greatest }
{}

/// The slack of each inequality of a charge list has a least value over the tables of scale 1.
#[tactic(auto, using(crate::proofs::Extremes::least_slack))]
pub fn slacks_have_least_values()
    ensures { (p : Problem) (c : List Charge) (q : Inequality) → IsProblem p
        → IsInequalityOf p c q → (least : ℤ) × IsLeast p (slack p c q) least }
{}

/// The slack of each inequality of a charge list has a greatest value over the tables of scale 1.
#[tactic(auto, using(crate::proofs::Extremes::greatest_slack))]
pub fn slacks_have_greatest_values()
    ensures { (p : Problem) (c : List Charge) (q : Inequality) → IsProblem p
        → IsInequalityOf p c q → (greatest : ℤ) × IsGreatest p (slack p c q) greatest }
{}

/// Whether a list is a possibly valid list of the base is decided.
#[tactic(auto, using(crate::proofs::Lists::candidate_decided))]
pub fn lists_are_candidates_or_not()
    ensures { (p : Problem) (c : List Charge) → IsProblem p
        → IsCandidate p c ⊎ (IsCandidate p c → ⊥) }
{}

/// Whether a list is a charge list that is valid under a table is decided.
pub fn lists_are_valid_or_not()
    ensures { (p : Problem) (t : Table) (c : List Charge)
        → (IsChargeList p c × IsValid p t c) ⊎ (IsChargeList p c × IsValid p t c → ⊥) }
{}

/// Whether one list beats another is decided.
#[tactic(auto, using(crate::proofs::Lists::beats_decided))]
pub fn lists_beat_each_other_or_not()
    ensures { (p : Problem) (w c : List Charge) → IsProblem p
        → Beats p w c ⊎ (Beats p w c → ⊥) }
{}

/// Each problem has a least certain energy, or no certainly valid list.
#[tactic(auto, using(crate::proofs::Existence::least_certain))]
pub fn least_certain_energies_exist()
    ensures { (p : Problem) → IsProblem p → (bound : Option ℤ) × IsLeastCertain p bound }
{}
