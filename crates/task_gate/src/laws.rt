//! What holds of the answers of these tasks: there is one for the settings and a layout, and what it
//! tells.
ghost use Rattle.std.specs.Prelude.{◌≡◌, ◌⊎◌, ℕ, List, Option, Some};
ghost use Rattle.clap.specs.Walk.{Text};
ghost use Rattle.sidb_layout.specs.Layout.{Arrangement, IsLayout};
ghost use Rattle.gate_model.specs.GridTexts.{IsGridText};
ghost use Rattle.gate_model.specs.Grids.{AreAxes, Axes};
ghost use Rattle.gate_model.specs.Logic.{IsLogic, Logic};
ghost use Rattle.bdl_pairs.specs.Remaining.{IsOn};
ghost use Rattle.command_words.specs.declared.gate_settings.GateSettings.{GateSettings as GateData};
ghost use Rattle.command_words.specs.declared.settings.Settings.{Settings as SettingsData};
ghost use Rattle.command_words.specs.Gates.{HasGate};
ghost use Rattle.command_words.specs.Options.{IsReadWhereGiven};
ghost use Rattle.command_words.specs.Settings.{HasDomainNeeds, HasTruthNeeds};
ghost use Rattle.run_answer.specs.declared.status.Status.{Status as StatusData};
ghost use Rattle.run_answer.specs.declared.status.Status.TheVariants.{Answered};
ghost use Rattle.task_gate.specs.Answers.{IsDomainAnswer, IsGivenGate, IsTruthAnswer, TellsDomain, TellsTruth};
ghost use Rattle.task_gate.specs.GateSite.{IsSiteAnswer};

use gate_report::laws::working_tables_work_at_each_pattern;
use operational_domain::laws::{
    each_gate_has_a_table, failing_gates_miss_a_bit, failing_patterns_miss_a_bit, one_cell,
    one_table, some_cell, working_gates_read_their_bits, working_patterns_read_their_bits,
};

/// Settings give one gate at most, and give one where they have what a gate needs.
pub fn one_given_gate()
    ensures one { (g : GateData) (a b : Logic) → IsGivenGate g a → IsGivenGate g b → a ≡ b }
    ensures some { (g : GateData) → HasGate g → (gate : Logic) × IsGivenGate g gate × IsLogic gate }
{}

/// The grid that a text means keeps what each grid keeps.
pub fn given_grids_are_grids()
    ensures { (points : Option Text) (axes : Axes) → IsReadWhereGiven IsGridText points (Some axes)
        → AreAxes axes }
{}

/// All places of a gate are sites, or one line names the first that is none.
pub fn one_site_answer()
    ensures one { (gate : Logic) (layout : Arrangement) (a b : StatusData) (t u : List ℕ)
        → IsSiteAnswer gate layout a t → IsSiteAnswer gate layout b u → (a ≡ b) × (t ≡ u) }
    ensures not_on { (gate : Logic) (layout : Arrangement) (status : StatusData) (text : List ℕ)
        → IsOn gate layout.sites → IsSiteAnswer gate layout status text → ⊥ }
    ensures some { (gate : Logic) (layout : Arrangement) → IsOn gate layout.sites
        ⊎ ((status : StatusData) × (text : List ℕ) × IsSiteAnswer gate layout status text) }
{}

/// For the settings and a layout one status and one text at most are the truth answer.
pub fn one_truth_answer()
    ensures { (s : SettingsData) (layout : Arrangement) (a b : StatusData) (t u : List ℕ)
        → IsLayout layout → IsTruthAnswer s layout a t → IsTruthAnswer s layout b u
        → (a ≡ b) × (t ≡ u) }
{
    one_table();
    one_cell();
}

/// For settings that give a gate, and a layout, some status and some text are the truth answer.
pub fn some_truth_answer()
    ensures { (s : SettingsData) (layout : Arrangement) → IsLayout layout → HasTruthNeeds s
        → (status : StatusData) × (text : List ℕ) × IsTruthAnswer s layout status text }
{
    each_gate_has_a_table();
    some_cell();
}

/// For the settings and a layout one status and one text at most are the domain answer.
pub fn one_domain_answer()
    ensures { (s : SettingsData) (layout : Arrangement) (a b : StatusData) (t u : List ℕ)
        → IsLayout layout → IsDomainAnswer s layout a t → IsDomainAnswer s layout b u
        → (a ≡ b) × (t ≡ u) }
{
    one_table();
    one_cell();
}

/// For settings that give a gate and the grid that a text means, and a layout, some status and some
/// text are the domain answer.
pub fn some_domain_answer()
    ensures { (s : SettingsData) (points : Option Text) (layout : Arrangement) → IsLayout layout
        → HasDomainNeeds s → IsReadWhereGiven IsGridText points s.gate.grid
        → (status : StatusData) × (text : List ℕ) × IsDomainAnswer s layout status text }
{
    each_gate_has_a_table();
    some_cell();
}

/// A truth table that is answered tells what each pattern does under every potential table.
pub fn truth_answers_tell()
    ensures { (s : SettingsData) (layout : Arrangement) (text : List ℕ)
        → IsTruthAnswer s layout Answered text → TellsTruth s layout text }
{
    working_patterns_read_their_bits();
    failing_patterns_miss_a_bit();
    working_tables_work_at_each_pattern();
}

/// A domain that is answered tells what the gate does at each point under every potential table.
pub fn domain_answers_tell()
    ensures { (s : SettingsData) (layout : Arrangement) (text : List ℕ)
        → IsDomainAnswer s layout Answered text → TellsDomain s layout text }
{
    working_gates_read_their_bits();
    failing_gates_miss_a_bit();
}
