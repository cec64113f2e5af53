//! What the overall verdict of a truth table says.
ghost use Rattle.std.specs.Prelude.{◌≡◌, List, All};
ghost use Rattle.bdl_pairs.specs.declared.truth.PatternAnswer.{PatternAnswer};
ghost use Rattle.bdl_pairs.specs.declared.verdicts.PatternVerdict.TheVariants.{Works as PatternWorks};
ghost use Rattle.bdl_pairs.specs.declared.cell.CellAnswer.TheVariants.{Works};
ghost use Rattle.gate_report.specs.Answers.{overall};

/// A truth table is said to work only where each pattern works.
#[tactic(auto, using(crate::proofs::Overall::works_each))]
pub fn working_tables_work_at_each_pattern()
    ensures { (t : List PatternAnswer) → overall 0 t ≡ Works
        → All (λ a. a.verdict ≡ PatternWorks) t }
{}
