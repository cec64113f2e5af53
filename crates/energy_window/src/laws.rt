//! That no problem, window and limit have two answers, and what they are with a window of 0.
ghost use Rattle.std.specs.Prelude.{◌≡◌, ◌↔◌, ◌⊎◌, pos, ℕ, ℤ, List};
ghost use Rattle.charge_model.specs.Problem.{Problem};
ghost use Rattle.charge_model.specs.GroundList.{Entry};
ghost use Rattle.ground_state.specs.Answer.{IsListedWithin, IsOverLimit, IsTooLongWithin};
ghost use Rattle.energy_window.specs.declared.answer.WindowAnswer.{WindowAnswer};
ghost use Rattle.energy_window.specs.declared.answer.WindowAnswer.TheVariants.{List as Listed, Budget, ListTooLong, Memory};
ghost use Rattle.energy_window.specs.Answers.{IsWindowAnswer};

use ground_state::laws::{one_window_answer, window_answers_at_zero};

/// A problem, a window and a limit have at most one answer, but for want of memory.
pub fn one_answer()
    ensures { (p : Problem) (window : ℤ) (limit : ℕ) (a b : WindowAnswer)
        → IsWindowAnswer p window limit a → IsWindowAnswer p window limit b
        → (a ≡ b) ⊎ ((a ≡ Memory) ⊎ (b ≡ Memory)) }
{
    one_window_answer();
}

/// With a window of 0 the answers are those of `ground_state::solve`: the ground list with its
/// marks, or in the same cases that the limit does not suffice or that the list is too long.
pub fn answers_at_zero_are_of_the_ground()
    ensures list { (p : Problem) (limit : ℕ) (es : List Entry)
        → IsWindowAnswer p (pos 0) limit (Listed es) ↔ IsListedWithin p limit es }
    ensures budget { (p : Problem) (limit : ℕ)
        → IsWindowAnswer p (pos 0) limit Budget ↔ IsOverLimit p limit }
    ensures length { (p : Problem) (limit : ℕ)
        → IsWindowAnswer p (pos 0) limit ListTooLong ↔ IsTooLongWithin p limit }
{
    window_answers_at_zero();
}
