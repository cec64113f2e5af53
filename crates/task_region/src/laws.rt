//! What holds of the answers of this task: there is one for the settings and a layout, and what it
//! tells.
ghost use Rattle.std.specs.Prelude.{◌≡◌, ℕ, List, Option};
ghost use Rattle.clap.specs.Walk.{Text};
ghost use Rattle.sidb_layout.specs.Layout.{Arrangement, IsLayout};
ghost use Rattle.gate_model.specs.GridTexts.{IsGridText};
ghost use Rattle.command_words.specs.declared.settings.Settings.{Settings as SettingsData};
ghost use Rattle.command_words.specs.Options.{IsReadWhereGiven};
ghost use Rattle.command_words.specs.Settings.{HasRegionNeeds};
ghost use Rattle.run_answer.specs.declared.status.Status.{Status as StatusData};
ghost use Rattle.run_answer.specs.declared.status.Status.TheVariants.{Answered};
ghost use Rattle.task_region.specs.RegionAnswer.{IsRegionAnswer};
ghost use Rattle.task_region.specs.Told.{TellsRegion};

use region_domain::GateMeaning;
use region_domain::laws::{
    answers_tell_of_every_point, each_point_is_told, one_region, some_region,
};
use region_tiles::laws::{each_grid_is_a_rectangle, refinements_are_tiles};
use task_gate::laws::{given_grids_are_grids, one_given_gate, one_site_answer};

/// For the settings and a layout one status and one text at most are the region answer.
pub fn one_region_answer()
    ensures { (s : SettingsData) (layout : Arrangement) (a b : StatusData) (t u : List ℕ)
        → IsLayout layout → IsRegionAnswer s layout a t → IsRegionAnswer s layout b u
        → (a ≡ b) × (t ≡ u) }
{
    one_given_gate();
    one_site_answer();
    one_region();
}

/// For settings that give a gate and the grid that a text means, and a layout, some status and some
/// text are the region answer.
pub fn some_region_answer()
    ensures { (s : SettingsData) (points : Option Text) (layout : Arrangement) → IsLayout layout
        → HasRegionNeeds s → IsReadWhereGiven IsGridText points s.gate.grid
        → (status : StatusData) × (text : List ℕ) × IsRegionAnswer s layout status text }
{
    one_given_gate();
    given_grids_are_grids();
    one_site_answer();
    some_region();
}

/// A region that is answered tells what the gate does at every point of the whole rectangle of its
/// grid, under every table of the potentials there, wherever a tile works or fails.
pub fn region_answers_tell()
    ensures { (s : SettingsData) (points : Option Text) (layout : Arrangement) (text : List ℕ)
        → HasRegionNeeds s → IsReadWhereGiven IsGridText points s.gate.grid
        → IsRegionAnswer s layout Answered text → TellsRegion s layout text }
{
    given_grids_are_grids();
    each_grid_is_a_rectangle::<GateMeaning>();
    refinements_are_tiles::<GateMeaning>();
    answers_tell_of_every_point();
    each_point_is_told();
}
