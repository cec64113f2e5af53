// The input that a layout gives.
ghost use Rattle.std.specs.Prelude.{◌≡◌, IfOk};
ghost use Rattle.ground_report.specs.Subject.{IsAboutProblem};
ghost use Rattle.task_input.specs.Input.{IsOfLayout, about_layout};

use crate::{About, Input};
use screened_coulomb::{Params, problem};
use sidb_units::Memory;
use sites_layout::Found;
use std::alloc::Global;

/// The input of a layout that was found in a text.
pub fn layout_input(alloc: Global, params: &Params, found: Found) -> Result<Input, Memory>
    ensures gives { IfOk result (λ input. IsOfLayout params.now found.layout input.problem) }
    ensures told { IfOk result (λ input. input.about ≡ about_layout found.layout found.skipped) }
    ensures sites { IfOk result (λ input. IsAboutProblem input.about input.problem) }
{
    let problem = problem(alloc, &found.layout, params)?;
    let about = About {
        layout: Some(found.layout),
        skipped: found.skipped,
    };
    Ok(Input { problem, about })
}
