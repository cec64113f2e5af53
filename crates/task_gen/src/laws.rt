//! What holds of generated layouts and of the answers about them: there is one for all settings, and
//! what it tells.
ghost use Rattle.std.specs.Prelude.{◌≡◌, ◌≤◌, ℕ, List, [], length};
ghost use Rattle.charge_model.specs.declared.TheConstants.{MAX_SITES};
ghost use Rattle.charge_model.specs.Problem.{Problem, IsProblem};
ghost use Rattle.sidb_layout.specs.Lattice.{silicon};
ghost use Rattle.sidb_layout.specs.Layout.{Arrangement};
ghost use Rattle.sidb_layout.specs.Refusal.{IsMadeOf};
ghost use Rattle.run_answer.specs.declared.status.Status.{Status as StatusData};
ghost use Rattle.run_answer.specs.declared.status.Status.TheVariants.{Answered};
ghost use Rattle.command_words.specs.declared.settings.Settings.{Settings as SettingsData};
ghost use Rattle.task_gen.specs.GenAnswer.{IsGenAnswer, IsGenProblem};
ghost use Rattle.task_gen.specs.Generator.{sites_for_number};
ghost use Rattle.task_gen.specs.Told.{TellsGeneratedList};

use ground_state::laws::{one_answer, solutions_are_listed};
use layout_laws::laws::clear_places_make_a_layout;
use marked_list_laws::laws::each_problem_has_a_marked_list;
use prefix_laws::laws::one_least_certain;
use screened_coulomb::laws::{each_layout_has_a_problem, one_problem};
use sidb_layout::laws::{default_lattice_is_roomy, one_layout};
use task_ground::laws::ground_lists_hold;

/// A number generates as many sites as are asked for.
#[tactic(auto, using(crate::proofs::Fine::count_of))]
pub fn so_many_sites_are_generated()
    ensures { (number count : ℕ) → length (sites_for_number number count) ≡ count }
{}

/// The sites that a number generates, up to 64, make a layout of the default lattice: they are in
/// range, and their columns rise.
pub fn generated_sites_make_a_layout()
    ensures { (number count : ℕ) → count ≤ MAX_SITES
        → (p : Arrangement) × IsMadeOf silicon (sites_for_number number count) [] p }
{
    clear_places_make_a_layout();
    default_lattice_is_roomy();
}

/// The number of the settings generates one problem.
pub fn one_gen_problem()
    ensures { (s : SettingsData) (p q : Problem) → IsGenProblem s p → IsGenProblem s q → p ≡ q }
{
    one_layout();
    one_problem();
}

/// The number of the settings generates some problem.
pub fn some_gen_problem()
    ensures { (s : SettingsData) → (p : Problem) × IsGenProblem s p × IsProblem p }
{
    generated_sites_make_a_layout();
    each_layout_has_a_problem();
}

/// By the same settings one status and one text at most are the answer.
pub fn one_gen_answer()
    ensures { (s : SettingsData) (a b : StatusData) (t u : List ℕ)
        → IsGenAnswer s a t → IsGenAnswer s b u → (a ≡ b) × (t ≡ u) }
{
    one_gen_problem();
    one_answer();
    solutions_are_listed();
    one_least_certain();
}

/// By all settings some status and some text are the answer.
pub fn some_gen_answer()
    ensures { (s : SettingsData)
        → (status : StatusData) × (text : List ℕ) × IsGenAnswer s status text }
{
    some_gen_problem();
    one_answer();
    each_problem_has_a_marked_list();
}

/// A summary that is answered counts the marked ground list of the generated problem.
pub fn gen_answers_tell()
    ensures { (s : SettingsData) (text : List ℕ) → IsGenAnswer s Answered text
        → TellsGeneratedList s text }
{
    ground_lists_hold();
}
