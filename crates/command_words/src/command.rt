ghost use Rattle.std.specs.Prelude.{◌≡◌, IfOk, map};
ghost use Rattle.clap.specs.Words.{app_of, with_rule};
ghost use Rattle.command_words.specs.Command.{flag_rule, option_rule, sidb_command, with_options};

use clap::{Arg, ArgAction, Command};
use std::alloc::{AllocError, Global};

/// The names of the options, each of which takes one text.
const OPTION_NAMES: [&str; 20] = [
    "task", "form", "eps", "lambda", "depth", "gap", "coulomb", "base", "limit", "workers",
    "window", "range", "kt", "input", "output", "function", "grid", "number", "sites", "refine",
];

/// The command with one more option of this name.
fn with_option<'a>(
    alloc: Global,
    command: Command<'a>,
    name: &'a str,
) -> Result<Command<'a>, AllocError>
    ensures { IfOk result (λ c. app_of c
        ≡ with_rule (app_of command.entry) (option_rule name.entry.now)) }
{
    let option = Arg::new(alloc, name).long(name);
    command.arg(option)
}

/// The command with an option for each of these names.
fn with_options<'a>(
    alloc: Global,
    command: Command<'a>,
    names: &[&'a str],
) -> Result<Command<'a>, AllocError>
    ensures { IfOk result (λ c. app_of c
        ≡ with_options (app_of command.entry) (map (λ name. name.now) names.now)) }
{
    let mut longer = command;
    for name in names {
        longer = with_option(alloc, longer, name)?;
    }
    Ok(longer)
}

/// The command with one more flag of this name.
fn with_flag<'a>(
    alloc: Global,
    command: Command<'a>,
    name: &'a str,
) -> Result<Command<'a>, AllocError>
    ensures { IfOk result (λ c. app_of c
        ≡ with_rule (app_of command.entry) (flag_rule name.entry.now)) }
{
    let flag = Arg::new(alloc, name).long(name).action(ArgAction::SetTrue);
    command.arg(flag)
}

/// The command of the program, which reads its name before the words.
pub fn simple_command<'a>(alloc: Global) -> Result<Command<'a>, AllocError>
    ensures { IfOk result (λ c. app_of c ≡ sidb_command) }
{
    let command = Command::new(alloc, "sidb");
    let command = with_options(alloc, command, &OPTION_NAMES)?;
    let command = with_flag(alloc, command, "json")?;
    with_flag(alloc, command, "energies")
}
