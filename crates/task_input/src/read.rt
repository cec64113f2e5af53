ghost use Rattle.std.specs.Prelude.{◌≡◌, ◌⊎◌, IfOk, IfErr};
ghost use Rattle.ground_report.specs.Subject.{IsAboutProblem};
ghost use Rattle.table_reading.specs.Reading.{IsTableFault};
ghost use Rattle.sites_layout.specs.SitesFaults.{IsSitesFault};
ghost use Rattle.sqd_layout.specs.DotsFaults.{IsSqdFault};
ghost use Rattle.task_input.specs.Input.{IsInput, IsInputFault, IsWantOfMemory, MeansSites, MeansSqd, MeansTable};

use crate::layouts::layout_input;
use crate::{About, Input};
use command_words::{InputForm, Settings};
use fault_lines::InputFault;
use potential_table::{TableFault, read_table};
use screened_coulomb::Params;
use sidb_units::MAX_INPUT_BYTES;
use sites_layout::{SqdFault, read_sites};
use sqd_layout::read_sqd;
use std::alloc::Global;

/// What the bytes mean in the form that the settings name, or why they are refused: by their first
/// fault, or for want of memory.
pub fn read_input(alloc: Global, settings: &Settings, bytes: &[u8]) -> Result<Input, InputFault>
    ensures found { IfOk result (λ input.
        IsInput settings.now bytes.now input.problem input.about) }
    ensures sites { IfOk result (λ input. IsAboutProblem input.about input.problem) }
    ensures fault { IfErr result (λ fault.
        IsWantOfMemory fault ⊎ IsInputFault settings.now.form bytes.now fault) }
{
    if bytes.len() > MAX_INPUT_BYTES {
        return Err(InputFault::TooLong);
    }
    match settings.form {
        InputForm::Sites => match sites_input(alloc, &settings.params, bytes) {
            Ok(input) => Ok(input),
            Err(fault) => Err(InputFault::Layout(fault)),
        },
        InputForm::Sqd => match sqd_input(alloc, &settings.params, bytes) {
            Ok(input) => Ok(input),
            Err(fault) => Err(InputFault::Layout(fault)),
        },
        InputForm::Table => match table_input(alloc, bytes) {
            Ok(input) => Ok(input),
            Err(fault) => Err(InputFault::Table(fault)),
        },
    }
}

/// The input of a sites text, of which nothing is skipped.
fn sites_input(alloc: Global, params: &Params, bytes: &[u8]) -> Result<Input, SqdFault>
    ensures found { IfOk result (λ input.
        MeansSites params.now bytes.now input.problem input.about) }
    ensures sites { IfOk result (λ input. IsAboutProblem input.about input.problem) }
    ensures fault { IfErr result (λ fault.
        (fault ≡ SqdFault.Memory) ⊎ IsSitesFault bytes.now fault) }
{
    let found = read_sites(alloc, bytes)?;
    Ok(layout_input(alloc, params, found)?)
}

/// The input of a text in the manner of SiQAD.
fn sqd_input(alloc: Global, params: &Params, bytes: &[u8]) -> Result<Input, SqdFault>
    ensures found { IfOk result (λ input.
        MeansSqd params.now bytes.now input.problem input.about) }
    ensures sites { IfOk result (λ input. IsAboutProblem input.about input.problem) }
    ensures fault { IfErr result (λ fault.
        (fault ≡ SqdFault.Memory) ⊎ IsSqdFault bytes.now fault) }
{
    let found = read_sqd(alloc, bytes)?;
    Ok(layout_input(alloc, params, found)?)
}

/// The input of a table text, which has no layout.
fn table_input(alloc: Global, bytes: &[u8]) -> Result<Input, TableFault>
    ensures found { IfOk result (λ input. MeansTable bytes.now input.problem input.about) }
    ensures sites { IfOk result (λ input. IsAboutProblem input.about input.problem) }
    ensures fault { IfErr result (λ fault.
        (fault ≡ TableFault.Memory) ⊎ IsTableFault bytes.now fault) }
{
    let problem = read_table(alloc, bytes)?;
    let about = About {
        layout: None,
        skipped: 0,
    };
    Ok(Input { problem, about })
}
