//! What holds of the answers of these tasks: there is one for each problem, and what it tells.
ghost use Rattle.std.specs.Prelude.{◌≡◌, ◌≢◌, ℕ, List, None};
ghost use Rattle.charge_model.specs.Problem.{Problem, IsProblem};
ghost use Rattle.command_words.specs.declared.settings.Settings.{Settings};
ghost use Rattle.ground_report.specs.declared.about.About.{About as AboutData};
ghost use Rattle.run_answer.specs.declared.status.Status.{Status as StatusData};
ghost use Rattle.run_answer.specs.declared.status.Status.TheVariants.{Answered};
ghost use Rattle.task_levels.specs.OccupationAnswer.{IsOccupationAnswer};
ghost use Rattle.task_levels.specs.WindowAnswer.{IsWindowListAnswer};
ghost use Rattle.task_levels.specs.RangeAnswer.{IsRangeAnswer};
ghost use Rattle.task_levels.specs.Told.{TellsNearLists, TellsShares};
ghost use Rattle.task_levels.specs.ToldAtLevels.{TellsAtLevels};

use certain_energy_laws::laws::least_certain_energies_exist;
use ground_state::laws::one_window_answer;
use level_range_laws::laws::{
    answers_hold_ground_states, each_interval_has_candidates, each_interval_has_printed_parts,
    each_level_is_in_one_part, one_list_of_candidates, one_list_of_printed_parts,
};
use marked_list_laws::laws::each_problem_has_a_marked_window_list;
use occupation::laws::{
    each_list_has_shares, lists_have_one_list_of_shares, rounded_lists_enclose_the_intervals,
};
use sim_report::laws::one_window_text;
use task_ground::laws::entries_have_energies;
use window_laws::laws::{
    certain_entries_are_near_the_ground, near_lists_are_listed, unresolved_entries_fail_within,
};

/// For a problem, of which this is told, one status and one text at most are the answer.
pub fn one_window_list_answer()
    ensures { (s : Settings) (about : AboutData) (p : Problem) (a b : StatusData) (t u : List ℕ)
        → IsWindowListAnswer s about p a t → IsWindowListAnswer s about p b u
        → (a ≡ b) × (t ≡ u) }
{
    one_window_answer();
    one_window_text();
}

/// For a problem some status and some text are the answer.
pub fn some_window_list_answer()
    ensures { (s : Settings) (about : AboutData) (p : Problem) → IsProblem p
        → (status : StatusData) × (text : List ℕ) × IsWindowListAnswer s about p status text }
{
    least_certain_energies_exist();
    each_problem_has_a_marked_window_list();
    entries_have_energies();
}

/// A text that is answered tells the lists near the ground under every potential table.
pub fn window_answers_tell()
    ensures { (s : Settings) (about : AboutData) (p : Problem) (text : List ℕ)
        → IsWindowListAnswer s about p Answered text → TellsNearLists s about p text }
{
    near_lists_are_listed();
    certain_entries_are_near_the_ground();
    unresolved_entries_fail_within();
}

/// For a problem one status and one text at most are the answer with shares.
pub fn one_occupation_answer()
    ensures { (s : Settings) (p : Problem) (a b : StatusData) (t u : List ℕ)
        → IsOccupationAnswer s p a t → IsOccupationAnswer s p b u → (a ≡ b) × (t ≡ u) }
{
    one_window_answer();
    lists_have_one_list_of_shares();
}

/// For a problem some status and some text are the answer with shares.
pub fn some_occupation_answer()
    ensures { (s : Settings) (p : Problem) → IsProblem p
        → (status : StatusData) × (text : List ℕ) × IsOccupationAnswer s p status text }
{
    least_certain_energies_exist();
    each_problem_has_a_marked_window_list();
    each_list_has_shares();
}

/// A text that is answered with shares tells the lists near the ground and encloses their shares,
/// under every potential table.
pub fn occupation_answers_tell()
    ensures { (s : Settings) (p : Problem) (text : List ℕ)
        → IsOccupationAnswer s p Answered text → TellsShares s p text }
{
    near_lists_are_listed();
    rounded_lists_enclose_the_intervals();
}

/// For a problem and the range of the settings one status and one text at most are the answer.
pub fn one_range_answer()
    ensures { (s : Settings) (p : Problem) (a b : StatusData) (t u : List ℕ)
        → IsRangeAnswer s p a t → IsRangeAnswer s p b u → (a ≡ b) × (t ≡ u) }
{
    one_list_of_candidates();
    one_list_of_printed_parts();
}

/// For a problem some status and some text are the answer, where the settings have a range.
pub fn some_range_answer()
    ensures { (s : Settings) (p : Problem) → IsProblem p → s.levels.range ≢ None
        → (status : StatusData) × (text : List ℕ) × IsRangeAnswer s p status text }
{
    each_interval_has_candidates();
    each_interval_has_printed_parts();
}

/// A text that is answered tells the ground list at each level of each part that is not split.
pub fn range_answers_tell()
    ensures { (s : Settings) (p : Problem) (text : List ℕ)
        → IsRangeAnswer s p Answered text → TellsAtLevels s p text }
{
    each_level_is_in_one_part();
    answers_hold_ground_states();
}
