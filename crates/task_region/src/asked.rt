// The gate that the settings give, on a layout.
ghost use Rattle.std.specs.Prelude.{IfOk};
ghost use Rattle.command_words.specs.Settings.{HasRegionNeeds};
ghost use Rattle.run_answer.specs.Due.{DueIs};
ghost use Rattle.task_region.specs.RegionAnswer.{IsRegionAnswer};

use crate::answer::region_of_gate;
use command_words::Settings;
use run_answer::Due;
use sidb_layout::Layout;
use sidb_units::Memory;
use std::alloc::Global;
use std::thread::Threads;
use task_gate::given_gate;

/// The tiles of the gate that the settings give, on a layout, over the rectangles of their grid.
pub fn region_answer<R: Threads + Sync>(
    rt: &R,
    alloc: Global,
    settings: &Settings,
    layout: Layout,
) -> Result<Due, Memory>
    requires { HasRegionNeeds settings.now }
    ensures { IfOk result (DueIs (IsRegionAnswer settings.now layout)) }
{
    let spec = given_gate(alloc, &settings.gate)?;
    match &settings.gate.grid {
        Some(grid) => region_of_gate(rt, alloc, settings, spec, layout, grid),
        None => unreachable!(),
    }
}
