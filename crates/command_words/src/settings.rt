ghost use Rattle.std.specs.Prelude.{pos};
ghost use Rattle.model_params.specs.Quantities.{IsInRangeOf};
ghost use Rattle.command_words.specs.Limits.{AreEndsOfDepths, AreGeneratedNumbers, AreSearchLimits, refine_depth, thermal_energy};

use crate::GateSettings;
use model_params::Params;
use window_model::Window;

/// What a run does.
#[derive(Clone, Copy, Debug, PartialEq, Eq)]
pub enum Task {
    /// Prints the ground list of a problem.
    Ground,
    /// Prints the table text of a problem.
    Potentials,
    /// Prints the certificate of a problem's ground list.
    Certify,
    /// Checks a certificate.
    Check,
    /// Prints the window list of a problem.
    Window,
    /// Prints the shares of the entries of the window list.
    Occupation,
    /// Prints the ground lists at all levels of a range.
    Range,
    /// Searches a generated layout, and prints what came of it.
    Gen,
    /// Prints the ground lists of a gate by its input patterns, and whether it works.
    Truth,
    /// Prints whether a gate works, at each point of a grid.
    Domain,
    /// Prints whether a gate works, at every point of each tile of a rectangle.
    Region,
}

/// The form of a run's input.
#[derive(Clone, Copy, Debug, PartialEq, Eq)]
pub enum InputForm {
    /// A sites text.
    Sites,
    /// A text in the manner of SiQAD.
    Sqd,
    /// A table text.
    Table,
}

/// The limits of a search.
#[derive(Clone, Copy, Debug, PartialEq, Eq)]
pub struct SearchSettings {
    /// The most nodes of a search.
    pub limit: u64,
    /// How many threads may work at once.
    pub workers: u64,
    ghost in_range: { AreSearchLimits limit workers },
}

/// How far below 0 the upper level may lie.
#[derive(Clone, Copy)]
pub struct DepthRange {
    /// The least depth, in 10^-12 V.
    pub from: i64,
    /// The greatest depth, in 10^-12 V.
    pub to: i64,
    ghost in_range: { AreEndsOfDepths from to },
}

/// How far around the ground lists are looked for, and how they are weighed.
#[derive(Clone, Copy)]
pub struct LevelSettings {
    /// How far above the ground lists are looked for.
    pub window: Window,
    /// The depths of the upper level that are asked for.
    pub range: Option<DepthRange>,
    /// Boltzmann's constant times the temperature, in 10^-12 V.
    pub kt: i64,
    ghost kt_in_range: { IsInRangeOf thermal_energy kt },
}

/// Which layout is generated.
#[derive(Clone, Copy)]
pub struct GeneratedSettings {
    /// The number that the generator begins with.
    pub number: u64,
    /// How many sites the layout has.
    pub sites: u64,
    ghost in_range: { AreGeneratedNumbers number sites },
}

/// How finely the tiles of a rectangle are cut.
#[derive(Clone, Copy)]
pub struct RegionSettings {
    /// How often an undecided rectangle may be quartered.
    pub refine: u64,
    ghost in_range: { IsInRangeOf refine_depth (pos refine) },
}

/// What a report has, and how it is written.
#[derive(Clone, Copy, Debug, PartialEq, Eq)]
pub struct ReportSettings {
    /// The report is one line of JSON.
    pub json: bool,
    /// The report has the energy of each entry.
    pub energies: bool,
}

/// What the words of a run ask for.
#[derive(Drop)]
pub struct Settings {
    pub task: Task,
    pub form: InputForm,
    pub params: Params,
    pub search: SearchSettings,
    pub report: ReportSettings,
    pub levels: LevelSettings,
    pub gate: GateSettings,
    pub generated: GeneratedSettings,
    pub region: RegionSettings,
}
