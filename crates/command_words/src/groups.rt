// The groups of settings that the matches of clap have.
ghost use Rattle.std.specs.Prelude.{IfSome, IfNone};
ghost use Rattle.clap.specs.Words.{first_value, found_of};
ghost use Rattle.model_params.specs.declared.params.Params.{Params};
ghost use Rattle.command_words.specs.declared.settings.GeneratedSettings.{GeneratedSettings};
ghost use Rattle.command_words.specs.declared.settings.LevelSettings.{LevelSettings};
ghost use Rattle.command_words.specs.declared.settings.RegionSettings.{RegionSettings};
ghost use Rattle.command_words.specs.declared.settings.SearchSettings.{SearchSettings};
ghost use Rattle.command_words.specs.Settings.{AreGeneratedSettings, AreLevelSettings, AreParams, AreRegionSettings, AreReportSettings, AreSearchSettings};

use crate::choice::{base_in, is_given};
use crate::depths::range_in;
use crate::number::{
    GENERATED_SITES, GENERATOR_NUMBER, NODE_LIMIT, REFINE_DEPTH, THERMAL_ENERGY, WINDOW_WIDTH,
    WORKER_COUNT, count_in, number_in,
};
use crate::{
    GeneratedSettings, LevelSettings, Params, RegionSettings, ReportSettings, SearchSettings,
};
use clap::ArgMatches;
use model_params::{COULOMB_NUMBER, LEVEL_DEPTH, LEVEL_GAP, PERMITTIVITY, SCREENING_LENGTH};
use window_model::window_of;

/// The parameters of potentials and levels.
pub fn params_in(matches: &ArgMatches<'_>) -> Option<Params>
    ensures found { IfSome result (AreParams (first_value (found_of matches.now))) }
    ensures none { IfNone result ((p : Params)
        → AreParams (first_value (found_of matches.now)) p → ⊥) }
{
    Some(Params {
        coulomb: number_in(matches.get_str("coulomb"), &COULOMB_NUMBER)?,
        eps: number_in(matches.get_str("eps"), &PERMITTIVITY)?,
        lam: number_in(matches.get_str("lambda"), &SCREENING_LENGTH)?,
        depth: number_in(matches.get_str("depth"), &LEVEL_DEPTH)?,
        gap: number_in(matches.get_str("gap"), &LEVEL_GAP)?,
        base: base_in(matches.get_str("base"))?,
    })
}

/// The limits of the search.
pub fn search_in(matches: &ArgMatches<'_>) -> Option<SearchSettings>
    ensures found { IfSome result (AreSearchSettings (first_value (found_of matches.now))) }
    ensures none { IfNone result ((s : SearchSettings)
        → AreSearchSettings (first_value (found_of matches.now)) s → ⊥) }
{
    Some(SearchSettings {
        limit: count_in(matches.get_str("limit"), &NODE_LIMIT)?,
        workers: count_in(matches.get_str("workers"), &WORKER_COUNT)?,
    })
}

/// How far around the ground lists are looked for, and how they are weighed.
pub fn levels_in(matches: &ArgMatches<'_>) -> Option<LevelSettings>
    ensures found { IfSome result (AreLevelSettings (first_value (found_of matches.now))) }
    ensures none { IfNone result ((l : LevelSettings)
        → AreLevelSettings (first_value (found_of matches.now)) l → ⊥) }
{
    let width = number_in(matches.get_str("window"), &WINDOW_WIDTH)?;
    Some(LevelSettings {
        window: window_of(width),
        range: range_in(matches.get_str("range"))?,
        kt: number_in(matches.get_str("kt"), &THERMAL_ENERGY)?,
    })
}

/// Which layout is generated.
pub fn generated_in(matches: &ArgMatches<'_>) -> Option<GeneratedSettings>
    ensures found { IfSome result (AreGeneratedSettings (first_value (found_of matches.now))) }
    ensures none { IfNone result ((g : GeneratedSettings)
        → AreGeneratedSettings (first_value (found_of matches.now)) g → ⊥) }
{
    Some(GeneratedSettings {
        number: count_in(matches.get_str("number"), &GENERATOR_NUMBER)?,
        sites: count_in(matches.get_str("sites"), &GENERATED_SITES)?,
    })
}

/// How finely the tiles of a rectangle are cut.
pub fn region_in(matches: &ArgMatches<'_>) -> Option<RegionSettings>
    ensures found { IfSome result (AreRegionSettings (first_value (found_of matches.now))) }
    ensures none { IfNone result ((r : RegionSettings)
        → AreRegionSettings (first_value (found_of matches.now)) r → ⊥) }
{
    Some(RegionSettings {
        refine: count_in(matches.get_str("refine"), &REFINE_DEPTH)?,
    })
}

/// The settings of the report.
pub fn report_in(matches: &ArgMatches<'_>) -> ReportSettings
    ensures { AreReportSettings (first_value (found_of matches.now)) result }
{
    ReportSettings {
        json: is_given(matches.get_str("json")),
        energies: is_given(matches.get_str("energies")),
    }
}
