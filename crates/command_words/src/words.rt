ghost use Rattle.std.specs.Prelude.{◌≡◌, IfOk, IfSome, IfNone, MatchBool, map};
ghost use Rattle.clap.specs.Words.{first_value, found_of};
ghost use Rattle.command_words.specs.declared.settings.Settings.{Settings};
ghost use Rattle.command_words.specs.Command.{full_words};
ghost use Rattle.command_words.specs.Gates.{AreGateSettings};
ghost use Rattle.command_words.specs.Settings.{AreGroups, AreSettings, HasDomainNeeds, HasNeeds, HasRegionNeeds, HasTruthNeeds, IsSettingsOf};

use crate::choice::{form_in, task_in};
use crate::command::simple_command;
use crate::gates::{gate_in, has_gate};
use crate::groups::{generated_in, levels_in, params_in, region_in, report_in, search_in};
use crate::laws::one_groups;
use crate::{GateSettings, InputForm, Settings, Task};
use clap::ArgMatches;
use clap::error::ErrorKind;
use sidb_units::{Memory, WordList};
use std::alloc::Global;

/// What the words ask for, or `None` where they are refused: where `clap` gives no matches, where
/// a value breaks its grammar or is out of its range, or where the task lacks what it needs.
pub fn read_words(alloc: Global, words: &WordList) -> Result<Option<Settings>, Memory>
    ensures found { IfOk result (λ read. IfSome read (IsSettingsOf words.now)) }
    ensures none { IfOk result (λ read. IfNone read
        ((s : Settings) → IsSettingsOf words.now s → ⊥)) }
{
    let texts = full_list(alloc, words)?;
    let command = simple_command(alloc)?;
    match command.try_get_matches_from(texts.as_slice()) {
        Ok(matches) => settings_in(alloc, &matches),
        Err(error) => match error.kind() {
            ErrorKind::OutOfMemory => Err(Memory),
            _ => Ok(None),
        },
    }
}

// Whether the pairs and the function make a gate, and the input is a layout.
fn has_truth_needs(alloc: Global, settings: &Settings) -> Result<bool, Memory>
    ensures { IfOk result (λ has. MatchBool has (HasTruthNeeds settings.now)
        (HasTruthNeeds settings.now → ⊥)) }
{
    if settings.form == InputForm::Table {
        return Ok(false);
    }
    has_gate(alloc, &settings.gate)
}

// Whether there are points too, at which the gate is asked for.
fn has_domain_needs(alloc: Global, settings: &Settings) -> Result<bool, Memory>
    ensures { IfOk result (λ has. MatchBool has (HasDomainNeeds settings.now)
        (HasDomainNeeds settings.now → ⊥)) }
{
    if settings.gate.grid.is_none() {
        return Ok(false);
    }
    has_truth_needs(alloc, settings)
}

// Whether the far ends of the grid are in range too, since its points are lower ends of rectangles.
fn has_region_needs(alloc: Global, settings: &Settings) -> Result<bool, Memory>
    ensures { IfOk result (λ has. MatchBool has (HasRegionNeeds settings.now)
        (HasRegionNeeds settings.now → ⊥)) }
{
    let Some(grid) = settings.gate.grid else {
        return Ok(false);
    };
    if !grid.has_far_ends() {
        return Ok(false);
    }
    has_truth_needs(alloc, settings)
}

// Whether the task has what it needs.
fn has_needs(alloc: Global, settings: &Settings) -> Result<bool, Memory>
    ensures { IfOk result (λ has. MatchBool has (HasNeeds settings.now.task settings.now)
        (HasNeeds settings.now.task settings.now → ⊥)) }
{
    match settings.task {
        Task::Range => Ok(settings.levels.range.is_some()),
        Task::Truth => has_truth_needs(alloc, settings),
        Task::Domain => has_domain_needs(alloc, settings),
        Task::Region => has_region_needs(alloc, settings),
        _ => Ok(true),
    }
}

// The settings that the matches have, where the task has what it needs.
fn settings_in(alloc: Global, matches: &ArgMatches<'_>) -> Result<Option<Settings>, Memory>
    ensures found { IfOk result (λ read. IfSome read
        (AreSettings (first_value (found_of matches.now)))) }
    ensures none { IfOk result (λ read. IfNone read ((s : Settings)
        → AreSettings (first_value (found_of matches.now)) s → ⊥)) }
{
    one_groups();
    let Some(gate) = gate_in(alloc, matches)? else {
        return Ok(None);
    };
    let Some(settings) = groups_in(matches, gate) else {
        return Ok(None);
    };
    if !has_needs(alloc, &settings)? {
        return Ok(None);
    }
    Ok(Some(settings))
}

// All groups of settings that the matches have, with this gate.
fn groups_in(matches: &ArgMatches<'_>, gate: GateSettings) -> Option<Settings>
    requires { AreGateSettings (first_value (found_of matches.now)) gate }
    ensures found { IfSome result (AreGroups (first_value (found_of matches.now))) }
    ensures none { IfNone result ((s : Settings)
        → AreGroups (first_value (found_of matches.now)) s → ⊥) }
{
    Some(Settings {
        task: task_in(matches.get_str("task"))?,
        form: form_in(matches.get_str("form"))?,
        params: params_in(matches)?,
        search: search_in(matches)?,
        report: report_in(matches),
        levels: levels_in(matches)?,
        generated: generated_in(matches)?,
        region: region_in(matches)?,
        gate,
    })
}

// The name of the program, and then the words.
fn full_list<'a>(alloc: Global, words: &'a WordList) -> Result<Vec<&'a str>, Memory>
    ensures { IfOk result (λ texts. map (λ text. text.now) texts.items ≡ full_words words.now) }
{
    let mut texts = Vec::new(alloc);
    texts.push("sidb")?;
    for at in 0..words.len() {
        texts.push(words.at(at))?;
    }
    Ok(texts)
}
