//! That no problem and limit have two answers.
ghost use Rattle.std.specs.Prelude.{◌≡◌, ◌≤◌, ◌↔◌, ◌⊎◌, ℕ, ℤ, pos, List, length};
ghost use Rattle.charge_model.specs.Problem.{Problem, IsProblem};
ghost use Rattle.charge_model.specs.GroundList.{Entry};
ghost use Rattle.ground_entries.specs.declared.ground_list.Solved.{Solved};
ghost use Rattle.sidb_units.specs.declared.TheConstants.{MAX_ENTRIES};
ghost use Rattle.ground_state.specs.Answer.{IsListedWithin, IsTooLongWithin, IsWithinLimit, IsOverLimit, IsSolution};
ghost use Rattle.ground_state.specs.Window.{IsWindowListedWithin, IsWindowTooLongWithin, IsWindowWithinLimit, IsWindowOverLimit};

use branch_search::laws::least_certain_energies_exist;
use ground_list_laws::laws::{one_ground_list, one_marked_ground_list};
use prefix_laws::laws::one_least_certain;
use window_laws::laws::{
    marks_at_zero_are_ground_marks, one_marked_window_list, one_window_list,
    window_lists_at_zero_are_ground_lists,
};

/// Within the limit a problem has at most one ground list with its marks, and none where its
/// ground list is too long; and the limit suffices or does not, and not both.
pub fn one_answer()
    ensures list { (p : Problem) (limit : ℕ) (es fs : List Entry)
        → IsListedWithin p limit es → IsListedWithin p limit fs → es ≡ fs }
    ensures length { (p : Problem) (limit : ℕ) (es : List Entry)
        → IsListedWithin p limit es → IsTooLongWithin p limit → ⊥ }
    ensures budget { (p : Problem) (limit : ℕ)
        → IsWithinLimit p limit → IsOverLimit p limit → ⊥ }
    ensures decided { (p : Problem) (limit : ℕ) → IsProblem p
        → IsWithinLimit p limit ⊎ IsOverLimit p limit }
{
    least_certain_energies_exist();
    one_ground_list();
    one_marked_ground_list();
    one_least_certain();
}

/// Within a window and a limit a problem has at most one list with its marks, and none where its
/// window list is too long; and the limit suffices or does not, and not both.
pub fn one_window_answer()
    ensures list { (p : Problem) (window : ℤ) (limit : ℕ) (es fs : List Entry)
        → IsWindowListedWithin p window limit es → IsWindowListedWithin p window limit fs
        → es ≡ fs }
    ensures length { (p : Problem) (window : ℤ) (limit : ℕ) (es : List Entry)
        → IsWindowListedWithin p window limit es → IsWindowTooLongWithin p window limit → ⊥ }
    ensures budget { (p : Problem) (window : ℤ) (limit : ℕ)
        → IsWindowWithinLimit p window limit → IsWindowOverLimit p window limit → ⊥ }
    ensures decided { (p : Problem) (window : ℤ) (limit : ℕ) → IsProblem p
        → IsWindowWithinLimit p window limit ⊎ IsWindowOverLimit p window limit }
{
    least_certain_energies_exist();
    one_window_list();
    one_marked_window_list();
    one_least_certain();
}

/// With a window of 0 the answers are those about the ground list: the same lists within the same
/// limit.
pub fn window_answers_at_zero()
    ensures list { (p : Problem) (limit : ℕ) (es : List Entry)
        → IsWindowListedWithin p (pos 0) limit es ↔ IsListedWithin p limit es }
    ensures budget { (p : Problem) (limit : ℕ)
        → IsWindowOverLimit p (pos 0) limit ↔ IsOverLimit p limit }
    ensures length { (p : Problem) (limit : ℕ)
        → IsWindowTooLongWithin p (pos 0) limit ↔ IsTooLongWithin p limit }
{
    window_lists_at_zero_are_ground_lists();
    marks_at_zero_are_ground_marks();
}

/// The list of a solution, where it has at most `MAX_ENTRIES` entries, is the problem's, within the
/// limit.
#[tactic(auto, using(crate::proofs::OneAnswer::solution_is_listed))]
pub fn solutions_are_listed()
    ensures { (p : Problem) (limit : ℕ) (s : Solved) → IsSolution p limit s
        → length s.list ≤ MAX_ENTRIES → IsListedWithin p limit s.list }
{}
