ghost use Rattle.std.specs.Prelude.{◌≡◌, ◌<◌, ◌↔◌, length, IsTrue, IfOk, All};
ghost use Rattle.charge_model.specs.Charges.{IsBefore};
ghost use Rattle.charge_model.specs.Rules.{IsPossiblyValid};
ghost use Rattle.charge_model.specs.GroundList.{lists_of};
ghost use Rattle.window_model.specs.Windows.{IsMarkWithin};
ghost use Rattle.entry_facts.specs.Facts.{AreFacts, AreFactsOfEach, lists_of_facts};
ghost use Rattle.entry_tests.specs.Refusing.{Follows, AreTested, IsEntryTested};

use crate::beaten::is_beaten;
use crate::mark::mark_of;
use crate::same::same_mark;
use certificate_model::EntryWhy;
use charge_model::Mark;
use charge_state::{Charges, cmp_charges};
use entry_facts::{EntryFacts, is_possible_entry};
use ground_entries::GroundList;
use potential_problem::Problem;
use sidb_units::Memory;
use std::alloc::Global;
use std::cmp::Ordering;
use window_laws::laws::one_marked_window_list;
use window_model::Window;

/// An entry that is refused, and why.
#[derive(Clone, Copy, Debug)]
pub struct RefusedEntry {
    pub entry: usize,
    pub why: EntryWhy,
}

/// Whether a list stands before another of its length.
fn is_before(a: &Charges, b: &Charges) -> bool
    requires { length a.now ≡ length b.now }
    ensures { IsTrue result ↔ IsBefore a.now b.now }
{
    match cmp_charges(a, b) {
        Ordering::Less => true,
        Ordering::Equal => false,
        Ordering::Greater => false,
    }
}

/// Whether entry j stands after the one before it.
fn follows(problem: &Problem, facts: &[EntryFacts], j: usize) -> bool
    requires facts { All (AreFacts problem.now) facts.now }
    requires entry { j < length facts.now }
    ensures { IsTrue result ↔ Follows (lists_of_facts facts.now) j }
{
    let _known = problem.sites();
    if j == 0 {
        return true;
    }
    is_before(&facts[j - 1].list.charges, &facts[j].list.charges)
}

/// Whether the mark of an entry is this one.
fn has_mark(
    alloc: Global,
    problem: &Problem,
    window: Window,
    facts: &[EntryFacts],
    entry: &EntryFacts,
    mark: Mark,
) -> Result<bool, Memory>
    requires facts { All (AreFacts problem.now) facts.now }
    requires entry { AreFacts problem.now entry.now }
    requires possible { IsPossiblyValid problem.now entry.now.list.charges }
    ensures { IfOk result (λ b. IsTrue b ↔ IsMarkWithin problem.now window.width
        (lists_of_facts facts.now) entry.now.list.charges mark) }
{
    one_marked_window_list();
    match entry.own {
        None => unreachable!(),
        Some(own) => {
            let right = mark_of(alloc, problem, window, facts, &entry.list, own)?;
            Ok(same_mark(right, mark))
        }
    }
}

/// The first test that entry j fails, or None where it meets them all.
fn entry_failing(
    alloc: Global,
    problem: &Problem,
    window: Window,
    list: &GroundList,
    facts: &[EntryFacts],
    j: usize,
) -> Result<Option<EntryWhy>, Memory>
    requires facts { AreFactsOfEach problem.now (lists_of list.now) facts.now }
    requires entry { j < length list.now }
    requires within { j < length facts.now }
    ensures { IfOk result (IsEntryTested problem.now window.width list.now j) }
{
    let entry = list.entry(j);
    let own = &facts[j];
    if !follows(problem, facts, j) {
        return Ok(Some(EntryWhy::Order));
    }
    if !is_possible_entry(problem, own) {
        return Ok(Some(EntryWhy::NotPossible));
    }
    let beaten = is_beaten(alloc, problem, window, facts, &own.list)?;
    if beaten {
        return Ok(Some(EntryWhy::Beaten));
    }
    let marked = has_mark(alloc, problem, window, facts, own, entry.mark)?;
    if !marked {
        return Ok(Some(EntryWhy::Mark));
    }
    Ok(None)
}

/// The first entry that fails a test, or None where all entries are sound.
pub fn first_refused(
    alloc: Global,
    problem: &Problem,
    window: Window,
    list: &GroundList,
    facts: &[EntryFacts],
) -> Result<Option<RefusedEntry>, Memory>
    requires { AreFactsOfEach problem.now (lists_of list.now) facts.now }
    ensures { IfOk result (AreTested problem.now window.width list.now) }
{
    for j in 0..list.len() {
        match entry_failing(alloc, problem, window, list, facts, j)? {
            Some(why) => return Ok(Some(RefusedEntry { entry: j, why })),
            None => {}
        }
    }
    Ok(None)
}
