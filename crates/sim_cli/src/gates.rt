// Asks the tasks that read a layout.
ghost use Rattle.std.specs.Prelude.{◌≡◌, ◌≢◌, None, Some, IfOk};
ghost use Rattle.command_words.specs.Settings.{HasDomainNeeds, HasRegionNeeds, HasTruthNeeds};
ghost use Rattle.run_answer.specs.Due.{DueIs};
ghost use Rattle.task_gate.specs.Answers.{IsDomainAnswer, IsTruthAnswer};
ghost use Rattle.task_region.specs.RegionAnswer.{IsRegionAnswer};
ghost use Rattle.sim_cli.specs.Answer.{OfLayout};

use command_words::Settings;
use run_answer::Due;
use sidb_io::Gate;
use sidb_layout::{Layout, without};
use sidb_units::Memory;
use std::alloc::Global;
use std::thread::Threads;
use task_gate::{domain_answer, truth_answer};
use task_input::About;
use task_region::region_answer;

/// The layout that is told of.
#[tactic(auto, using(crate::proofs::Layouts::whole))]
fn layout_in(alloc: Global, about: &About) -> Result<Layout, Memory>
    requires { about.now.layout ≢ None }
    ensures { IfOk result (λ layout. about.now.layout ≡ Some layout) }
{
    match &about.layout {
        Some(layout) => without(alloc, layout, &[]),
        None => unreachable!(),
    }
}

/// The truth table of a gate on the layout that is told of.
pub fn truth_due<R: Threads + Sync, G: Gate>(
    rt: &R,
    alloc: Global,
    settings: &Settings,
    about: &About,
    gate: &G,
) -> Result<Due, Memory>
    requires needs { HasTruthNeeds settings.now }
    requires drawn { about.now.layout ≢ None }
    ensures { IfOk result (DueIs (λ status text. OfLayout about.now
        (λ layout. IsTruthAnswer settings.now layout status text))) }
{
    let layout = layout_in(alloc, about)?;
    truth_answer(rt, alloc, settings, layout, gate)
}

/// The domain of a gate on the layout that is told of.
pub fn domain_due<R: Threads + Sync>(
    rt: &R,
    alloc: Global,
    settings: &Settings,
    about: &About,
) -> Result<Due, Memory>
    requires needs { HasDomainNeeds settings.now }
    requires drawn { about.now.layout ≢ None }
    ensures { IfOk result (DueIs (λ status text. OfLayout about.now
        (λ layout. IsDomainAnswer settings.now layout status text))) }
{
    let layout = layout_in(alloc, about)?;
    domain_answer(rt, alloc, settings, layout)
}

/// The tiles of a gate on the layout that is told of.
pub fn region_due<R: Threads + Sync>(
    rt: &R,
    alloc: Global,
    settings: &Settings,
    about: &About,
) -> Result<Due, Memory>
    requires needs { HasRegionNeeds settings.now }
    requires drawn { about.now.layout ≢ None }
    ensures { IfOk result (DueIs (λ status text. OfLayout about.now
        (λ layout. IsRegionAnswer settings.now layout status text))) }
{
    let layout = layout_in(alloc, about)?;
    region_answer(rt, alloc, settings, layout)
}
