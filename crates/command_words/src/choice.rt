// The names that options give.
ghost use Rattle.std.specs.Prelude.{ℕ, ◌≤◌, IfSome, IfNone};
ghost use Rattle.command_words.specs.declared.settings.Task.{Task};
ghost use Rattle.command_words.specs.declared.settings.InputForm.{InputForm};
ghost use Rattle.command_words.specs.Options.{IsBase, IsChoice, IsGiven, borrowed_text};
ghost use Rattle.command_words.specs.Settings.{form_name, task_name};

use crate::{InputForm, Task};

/// The task that the name is of, or `Ground` where there is no name.
pub fn task_in(given: Option<&str>) -> Option<Task>
    ensures found { IfSome result (IsChoice task_name Task.Ground (borrowed_text given.entry)) }
    ensures none { IfNone result ((task : Task)
        → IsChoice task_name Task.Ground (borrowed_text given.entry) task → ⊥) }
{
    match given {
        None | Some("ground") => Some(Task::Ground),
        Some("potentials") => Some(Task::Potentials),
        Some("certify") => Some(Task::Certify),
        Some("check") => Some(Task::Check),
        Some("window") => Some(Task::Window),
        Some("occupation") => Some(Task::Occupation),
        Some("range") => Some(Task::Range),
        Some("gen") => Some(Task::Gen),
        Some("truth") => Some(Task::Truth),
        Some("domain") => Some(Task::Domain),
        Some("region") => Some(Task::Region),
        Some(_) => None,
    }
}

/// The form that the name is of, or `Sites` where there is no name.
pub fn form_in(given: Option<&str>) -> Option<InputForm>
    ensures found { IfSome result (IsChoice form_name InputForm.Sites (borrowed_text given.entry)) }
    ensures none { IfNone result ((form : InputForm)
        → IsChoice form_name InputForm.Sites (borrowed_text given.entry) form → ⊥) }
{
    match given {
        None | Some("sites") => Some(InputForm::Sites),
        Some("sqd") => Some(InputForm::Sqd),
        Some("table") => Some(InputForm::Table),
        Some(_) => None,
    }
}

/// The base that the text is, or 3 where there is no text.
pub fn base_in(given: Option<&str>) -> Option<u64>
    ensures found { IfSome result (IsBase (borrowed_text given.entry)) }
    ensures none { IfNone result ((base : ℕ) → IsBase (borrowed_text given.entry) base → ⊥) }
    ensures within { IfSome result (λ base. (2 ≤ base) × (base ≤ 3)) }
{
    match given {
        Some("2") => Some(2),
        None | Some("3") => Some(3),
        Some(_) => None,
    }
}

/// Whether the flag was given, of which the text tells.
pub fn is_given(told: Option<&str>) -> bool
    ensures { IsGiven (borrowed_text told.entry) result }
{
    match told {
        Some(text) => text == "true",
        None => false,
    }
}
