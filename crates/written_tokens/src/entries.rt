ghost use Rattle.std.specs.Prelude.{IfOk};
ghost use Rattle.charge_model.specs.GroundList.{lists_of};
ghost use Rattle.window_model.specs.Windows.{IsWindowList};
ghost use Rattle.written_tokens.specs.Listing.{AreEntriesOf};

use crate::steps::{EntryStep, all_steps};
use entry_facts::{EntryFacts, all_facts};
use ground_entries::GroundList;
use potential_problem::Problem;
use sidb_units::Memory;
use std::alloc::Global;
use window_model::Window;

/// The facts of the entries, and the certainly valid ones, each of which lies lower than those
/// before.
#[derive(Drop)]
pub struct Entries {
    pub facts: Vec<EntryFacts>,
    pub steps: Vec<EntryStep>,
}

/// What is known of the entries of a window list.
pub fn entries_of(
    alloc: Global,
    problem: &Problem,
    window: Window,
    list: &GroundList,
) -> Result<Entries, Memory>
    requires { IsWindowList problem.now window.width (lists_of list.now) }
    ensures { IfOk result (AreEntriesOf problem.now window.width (lists_of list.now)) }
{
    let facts = all_facts(alloc, problem, list)?;
    let steps = all_steps(alloc, problem, window, facts.as_slice())?;
    Ok(Entries { facts, steps })
}
