// The gate that the settings give, on a layout.
ghost use Rattle.std.specs.Prelude.{IfOk};
ghost use Rattle.command_words.specs.Gates.{HasGate};
ghost use Rattle.command_words.specs.Settings.{HasDomainNeeds, HasTruthNeeds};
ghost use Rattle.run_answer.specs.Due.{DueIs};
ghost use Rattle.task_gate.specs.Answers.{IsDomainAnswer, IsGivenGate, IsTruthAnswer};

use crate::domain::domain_of_gate;
use crate::truth::truth_of_gate;
use bdl_pairs::{LogicSpec, logic_spec};
use command_words::{GateSettings, Settings};
use run_answer::Due;
use sidb_io::Gate;
use sidb_layout::Layout;
use sidb_units::Memory;
use std::alloc::Global;
use std::thread::Threads;

/// The gate that the settings give.
pub fn given_gate(alloc: Global, given: &GateSettings) -> Result<LogicSpec, Memory>
    requires { HasGate given.now }
    ensures { IfOk result (IsGivenGate given.now) }
{
    let Some(function) = given.function else {
        unreachable!()
    };
    let inputs = given.inputs.as_slice();
    let outputs = given.outputs.as_slice();
    match logic_spec(alloc, inputs, outputs, function)? {
        Some(gate) => Ok(gate),
        None => unreachable!(),
    }
}

/// The truth table of the gate that the settings give, on a layout, or why there is none.
pub fn truth_answer<R: Threads + Sync, G: Gate>(
    rt: &R,
    alloc: Global,
    settings: &Settings,
    layout: Layout,
    gate: &G,
) -> Result<Due, Memory>
    requires { HasTruthNeeds settings.now }
    ensures { IfOk result (DueIs (IsTruthAnswer settings.now layout)) }
{
    let spec = given_gate(alloc, &settings.gate)?;
    truth_of_gate(rt, alloc, settings, spec, layout, gate)
}

/// The operational domain of the gate that the settings give, on a layout, over their grid.
pub fn domain_answer<R: Threads + Sync>(
    rt: &R,
    alloc: Global,
    settings: &Settings,
    layout: Layout,
) -> Result<Due, Memory>
    requires { HasDomainNeeds settings.now }
    ensures { IfOk result (DueIs (IsDomainAnswer settings.now layout)) }
{
    let spec = given_gate(alloc, &settings.gate)?;
    match &settings.gate.grid {
        Some(grid) => domain_of_gate(rt, alloc, settings, spec, layout, grid),
        None => unreachable!(),
    }
}
