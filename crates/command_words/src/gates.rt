// What the options of a gate give.
ghost use Rattle.std.specs.Prelude.{List, Option, IfOk, IfSome, IfNone, MatchBool};
ghost use Rattle.clap.specs.Words.{first_value, found_of};
ghost use Rattle.gate_model.specs.declared.function.Function.{Function};
ghost use Rattle.gate_model.specs.declared.pairs.PairOf.{PairOf};
ghost use Rattle.gate_model.specs.Grids.{Axes};
ghost use Rattle.gate_model.specs.GridTexts.{IsGridText};
ghost use Rattle.command_words.specs.declared.gate_settings.GateSettings.{GateSettings};
ghost use Rattle.command_words.specs.Gates.{AreGateSettings, AreToldPairs, HasGate, IsGateOf, IsToldFunction};
ghost use Rattle.command_words.specs.Options.{IsReadWhereGiven, borrowed_text};

use crate::GateSettings;
use clap::ArgMatches;
use gate_model::laws::one_pair_list;
use gate_model::{
    Function, Grid, PairList, are_distinct, function_named, logic_spec, read_grid, read_pairs,
};
use sidb_units::Memory;
use std::alloc::Global;

/// The pairs that the text is, or none where there is no text.
fn pairs_in(alloc: Global, given: Option<&str>, most: usize) -> Result<Option<PairList>, Memory>
    ensures found { IfOk result (λ read. IfSome read
        (AreToldPairs most (borrowed_text given.entry))) }
    ensures none { IfOk result (λ read. IfNone read ((pairs : List PairOf)
        → AreToldPairs most (borrowed_text given.entry) pairs → ⊥)) }
{
    match given {
        None => Ok(Some(PairList::new(alloc))),
        Some(text) => read_pairs(alloc, text.as_bytes(), most),
    }
}

/// The function of so many inputs that the name is of, or none where there is no name.
fn function_in(given: Option<&str>, inputs: u64) -> Option<Option<Function>>
    ensures found { IfSome result (IsToldFunction inputs (borrowed_text given.entry)) }
    ensures none { IfNone result ((f : Option Function)
        → IsToldFunction inputs (borrowed_text given.entry) f → ⊥) }
{
    match given {
        None => Some(None),
        Some(name) => match function_named(name, inputs) {
            Some(function) => Some(Some(function)),
            None => None,
        },
    }
}

/// The grid that the text is, or none where there is no text.
fn grid_in(given: Option<&str>) -> Option<Option<Grid>>
    ensures found { IfSome result (IsReadWhereGiven IsGridText (borrowed_text given.entry)) }
    ensures none { IfNone result ((a : Option Axes)
        → IsReadWhereGiven IsGridText (borrowed_text given.entry) a → ⊥) }
{
    match given {
        None => Some(None),
        Some(text) => match read_grid(text.as_bytes()) {
            Some(grid) => Some(Some(grid)),
            None => None,
        },
    }
}

/// Whether the pairs and the function make a gate.
pub fn has_gate(alloc: Global, gate: &GateSettings) -> Result<bool, Memory>
    ensures { IfOk result (λ has. MatchBool has (HasGate gate.now) (HasGate gate.now → ⊥)) }
{
    let Some(function) = gate.function else {
        return Ok(false);
    };
    match logic_spec(
        alloc,
        gate.inputs.as_slice(),
        gate.outputs.as_slice(),
        function,
    )? {
        Some(_) => Ok(true),
        None => Ok(false),
    }
}

/// The gate that these texts give, and the points of the grid.
fn gate_of(
    alloc: Global,
    input: Option<&str>,
    output: Option<&str>,
    name: Option<&str>,
    points: Option<&str>,
) -> Result<Option<GateSettings>, Memory>
    ensures found { IfOk result (λ read. IfSome read (IsGateOf (borrowed_text input.entry)
        (borrowed_text output.entry) (borrowed_text name.entry) (borrowed_text points.entry))) }
    ensures none { IfOk result (λ read. IfNone read ((g : GateSettings)
        → IsGateOf (borrowed_text input.entry) (borrowed_text output.entry)
        (borrowed_text name.entry)
        (borrowed_text points.entry) g → ⊥)) }
{
    one_pair_list();
    let Some(inputs) = pairs_in(alloc, input, 2)? else {
        return Ok(None);
    };
    let Some(outputs) = pairs_in(alloc, output, 4)? else {
        return Ok(None);
    };
    let Some(function) = function_in(name, inputs.len() as u64) else {
        return Ok(None);
    };
    let Some(grid) = grid_in(points) else {
        return Ok(None);
    };
    if !are_distinct(alloc, inputs.as_slice(), outputs.as_slice())? {
        return Ok(None);
    }
    Ok(Some(GateSettings {
        inputs,
        outputs,
        function,
        grid,
    }))
}

/// The gate that the matches ask for, and the points of the grid.
pub fn gate_in(alloc: Global, matches: &ArgMatches<'_>) -> Result<Option<GateSettings>, Memory>
    ensures found { IfOk result (λ read. IfSome read
        (AreGateSettings (first_value (found_of matches.now)))) }
    ensures none { IfOk result (λ read. IfNone read ((g : GateSettings)
        → AreGateSettings (first_value (found_of matches.now)) g → ⊥)) }
{
    let input = matches.get_str("input");
    let output = matches.get_str("output");
    let name = matches.get_str("function");
    let points = matches.get_str("grid");
    gate_of(alloc, input, output, name, points)
}
