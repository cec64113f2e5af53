ghost use Rattle.std.specs.Prelude.{◌≡◌, ◌⊎◌, ℕ, List, Option};
ghost use Rattle.clap.specs.Walk.{Text};
ghost use Rattle.command_words.specs.declared.settings.Settings.{Settings};
ghost use Rattle.command_words.specs.Settings.{AreGroups, IsSettingsOf};

use gate_model::laws::{
    distinct_or_not, gate_or_not, one_function, one_grid, one_pair_list, some_function, some_grid,
    some_pair_list,
};
use model_params::laws::one_params;
use sidb_units::laws::one_reading;

/// The values of options give one list of settings.
pub fn one_groups()
    ensures { (value : Text → Option Text) (a b : Settings)
        → AreGroups value a → AreGroups value b → a ≡ b }
{
    one_reading();
    one_params();
    one_pair_list();
    one_function();
    one_grid();
}

/// Words mean one list of settings.
pub fn one_meaning()
    ensures { (words : List (List ℕ)) (a b : Settings)
        → IsSettingsOf words a → IsSettingsOf words b → a ≡ b }
{
    one_groups();
}

/// Each list of words means settings, or means none.
pub fn some_meaning()
    ensures { (words : List (List ℕ)) → ((s : Settings) × IsSettingsOf words s)
        ⊎ ((s : Settings) → IsSettingsOf words s → ⊥) }
{
    one_reading();
    one_groups();
    one_pair_list();
    some_pair_list();
    some_function();
    some_grid();
    distinct_or_not();
    gate_or_not();
}
