//! The words of the command line, read as one simple command of `clap`.
#![tactic(auto)]

mod choice;
mod command;
mod depths;
mod gate_settings;
mod gates;
mod groups;
pub mod laws;
mod number;
mod settings;
mod words;

pub use gate_settings::GateSettings;
pub use model_params::Params;
pub use settings::{
    DepthRange, GeneratedSettings, InputForm, LevelSettings, RegionSettings, ReportSettings,
    SearchSettings, Settings, Task,
};
pub use words::read_words;
