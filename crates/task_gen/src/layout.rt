// The layout of generated sites, and its problem.
ghost use Rattle.std.specs.Prelude.{◌≡◌, ◌≤◌, [], IfOk};
ghost use Rattle.charge_model.specs.declared.TheConstants.{MAX_SITES};
ghost use Rattle.sidb_layout.specs.Lattice.{silicon};
ghost use Rattle.sidb_layout.specs.Refusal.{IsMadeOf};
ghost use Rattle.task_gen.specs.GenAnswer.{IsGenProblem};
ghost use Rattle.task_gen.specs.Generator.{sites_for_number};

use crate::generated_sites;
use command_words::Settings;
use potential_problem::Problem;
use screened_coulomb::problem;
use sidb_layout::{Layout, LayoutFault, layout_of};
use sidb_units::Memory;
use std::alloc::Global;

/// Want of memory, which the fault is.
fn only_memory(fault: LayoutFault) -> Memory
    requires { fault ≡ LayoutFault.Memory }
{
    match fault {
        LayoutFault::Memory => Memory,
        _ => unreachable!(),
    }
}

/// The layout that a number generates, with so many sites: they are distinct, since their columns
/// rise, and in range, since each column is at most 11 further than the one before.
pub fn generated_layout(alloc: Global, number: u64, count: u64) -> Result<Layout, Memory>
    requires { count ≤ MAX_SITES }
    ensures { IfOk result (IsMadeOf silicon (sites_for_number number count) []) }
{
    let sites = generated_sites(alloc, number, count)?;
    match layout_of(alloc, sites.as_slice()) {
        Ok(layout) => Ok(layout),
        Err(fault) => Err(only_memory(fault)),
    }
}

/// The problem of the layout that the number of the settings generates.
pub fn generated_problem(alloc: Global, settings: &Settings) -> Result<Problem, Memory>
    ensures { IfOk result (IsGenProblem settings.now) }
{
    let layout = generated_layout(alloc, settings.generated.number, settings.generated.sites)?;
    problem(alloc, &layout, &settings.params)
}
