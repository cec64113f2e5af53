ghost use Rattle.std.specs.Prelude.{◌≡◌, map, IfOk, All, MatchOption};
ghost use Rattle.charge_model.specs.Rules.{IsCertainlyValid};
ghost use Rattle.charge_model.specs.GroundList.{lists_of};
ghost use Rattle.window_model.specs.Windows.{IsDecidingWithin, IsMarkWithin};
ghost use Rattle.ground_entries.specs.Seen.{seen};
ghost use Rattle.candidate_marks.specs.Candidates.{IsWeighed, IsLowest, IsNotAbove, AreNotAbove, IsSometimesLower, lists_of_candidates};

use crate::candidate::{Candidate, gap_span};
use crate::ends::{begins_below_end, begins_below_zero};
use crate::least::lowest;
use ground_entries::{Deciding, Entry, Mark};
use linear_form::laws::least_values_decide;
use potential_problem::{Problem, Span};
use sidb_units::Memory;
use std::alloc::Global;
use window_model::Window;

/// The least and the greatest energy of the rival and the window less that of the candidate, if
/// some table puts the rival lower by more than the window.
///
/// One whose least energy and the window reach the candidate's greatest energy is put so by none:
/// this spares most sums.
fn lower_rival(
    alloc: Global,
    problem: &Problem,
    window: &Window,
    rival: &Candidate,
    candidate: &Candidate,
) -> Result<Option<Span>, Memory>
    requires rival { IsWeighed problem.now rival.now }
    requires candidate { IsWeighed problem.now candidate.now }
    ensures { IfOk result (λ o. MatchOption o
        (IsNotAbove problem.now window.now.width candidate.now.charges rival.now.charges)
        (IsSometimesLower problem.now window.now.width rival.now.charges candidate.now.charges)) }
{
    least_values_decide();
    if !begins_below_end(&rival.span, window, &candidate.span) {
        return Ok(None);
    }
    let gap = gap_span(alloc, problem, window, rival, candidate)?;
    if begins_below_zero(&gap) {
        Ok(Some(gap))
    } else {
        Ok(None)
    }
}

/// The first entry that some table puts below a certainly valid list by more than the window.
///
/// Where the lowest entry is put so by none, no entry is: this spares going through them.
fn first_rival(
    alloc: Global,
    problem: &Problem,
    window: &Window,
    list: &[Candidate],
    lowest: &Candidate,
    candidate: &Candidate,
) -> Result<Option<Deciding>, Memory>
    requires list { All (IsWeighed problem.now) list.now }
    requires lowest { IsLowest problem.now list.now lowest.now }
    requires candidate { IsWeighed problem.now candidate.now }
    requires valid { IsCertainlyValid problem.now candidate.now.charges }
    ensures { IfOk result (λ o. MatchOption o
        (AreNotAbove problem.now window.now.width candidate.now.charges
        (lists_of_candidates list.now))
        (IsDecidingWithin problem.now window.now.width (lists_of_candidates list.now)
        candidate.now.charges)) }
{
    if !begins_below_end(&lowest.span, window, &candidate.span) {
        return Ok(None);
    }
    for j in 0..list.len() {
        match lower_rival(alloc, problem, window, &list[j], candidate)? {
            Some(span) => return Ok(Some(Deciding::Rival(j, span))),
            None => {}
        }
    }
    Ok(None)
}

/// The mark of an entry of a list.
fn mark_of(
    alloc: Global,
    problem: &Problem,
    window: &Window,
    list: &[Candidate],
    lowest: &Candidate,
    candidate: &Candidate,
) -> Result<Mark, Memory>
    requires list { All (IsWeighed problem.now) list.now }
    requires lowest { IsLowest problem.now list.now lowest.now }
    requires candidate { IsWeighed problem.now candidate.now }
    ensures { IfOk result
        (IsMarkWithin problem.now window.now.width
        (lists_of_candidates list.now) candidate.now.charges) }
{
    match candidate.own {
        Mark::Unresolved(deciding) => Ok(Mark::Unresolved(deciding)),
        Mark::Certain => match first_rival(alloc, problem, window, list, lowest, candidate)? {
            Some(rival) => Ok(Mark::Unresolved(rival)),
            None => Ok(Mark::Certain),
        },
    }
}

/// The entries of a list, each with its mark.
pub fn entries_of(
    alloc: Global,
    problem: &Problem,
    window: &Window,
    list: &[Candidate],
) -> Result<Vec<Entry>, Memory>
    requires { All (IsWeighed problem.now) list.now }
    ensures charges { IfOk result (λ v. lists_of (map seen v.items)
        ≡ lists_of_candidates list.now) }
    ensures marks { IfOk result (λ v.
        All (λ e. IsMarkWithin problem.now window.now.width
        (lists_of_candidates list.now) e.charges e.mark)
        (map seen v.items)) }
{
    let mut entries = Vec::new(alloc);
    if list.is_empty() {
        return Ok(entries);
    }
    let lowest = lowest(problem, list);
    for candidate in list {
        let mark = mark_of(alloc, problem, window, list, lowest, candidate)?;
        let charges = candidate.charges.copy();
        entries.push(Entry { charges, mark })?;
    }
    Ok(entries)
}
