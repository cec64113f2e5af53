ghost use Rattle.std.specs.Prelude.{◌≡◌, ◌≤ℤ◌, ◌-ℤ◌, pos, IfOk, map};
ghost use Rattle.level_range_laws.specs.Levels.{IsIn};
ghost use Rattle.level_range_laws.specs.Parts.{ArePrinted, printed_whole, printed_split};
ghost use Rattle.level_candidates.specs.Candidates.{AreCandidates};
ghost use Rattle.level_candidates.specs.Plans.{AreLevels};
ghost use Rattle.level_range.specs.Seen.{outcome_of, printed_of};

use crate::answers::answer_at;
use crate::changes::{first_of, is_below, next_change};
use crate::entries::{PartEntry, PrintedPart, same_entries};
use charge_model::laws::problems_have_tables;
use level_candidates::{Interval, LevelCandidate};
use potential_problem::Problem;
use prefix_extremes::Amount;
use sidb_units::Memory;
use std::alloc::Global;

/// At most this many parts are printed.
pub const MAX_PARTS: usize = 256;

/// The last level.
fn last_of(levels: Interval) -> Amount
    ensures { result.value ≡ levels.last }
{
    Amount { value: levels.last }
}

/// The level before one.
fn before(level: Amount, _levels: Interval) -> Amount
    requires levels { AreLevels _levels }
    requires inside { IsIn _levels level.value }
    ensures { result.value ≡ level.value -ℤ pos 1 }
{
    Amount {
        value: level.value - 1,
    }
}

/// A part with its answer.
fn whole(first: Amount, last: Amount, entries: Vec<PartEntry>) -> PrintedPart
    ensures { printed_of result
        ≡ printed_whole first.value last.value (map outcome_of entries.items) }
{
    PrintedPart {
        first,
        last,
        split: false,
        entries,
    }
}

/// The levels of several parts.
fn split(first: Amount, last: Amount, alloc: Global) -> PrintedPart
    ensures { printed_of result ≡ printed_split first.value last.value }
{
    PrintedPart {
        first,
        last,
        split: true,
        entries: Vec::new(alloc),
    }
}

/// The parts of an interval of levels as they are printed, from all its candidates.
pub fn parts_of(
    alloc: Global,
    problem: &Problem,
    all: &[LevelCandidate],
    levels: Interval,
) -> Result<Vec<PrintedPart>, Memory>
    requires all { AreCandidates problem.now levels all.now }
    requires levels { AreLevels levels }
    requires some { levels.first ≤ℤ levels.last }
    ensures { IfOk result (λ v. ArePrinted problem.now levels (map printed_of v.items)) }
{
    problems_have_tables();
    let _known = problem.sites();
    let last = last_of(levels);
    let mut done = Vec::new(alloc);
    let mut first = first_of(levels);
    let mut entries = answer_at(alloc, problem, all, levels, first)?;
    let mut level = next_change(all, problem, levels, first);
    'runs: while !is_below(last, level) {
        let more = answer_at(alloc, problem, all, levels, level)?;
        if !same_entries(entries.as_slice(), more.as_slice()) {
            if done.len() + 1 == MAX_PARTS {
                done.push(split(first, last, alloc))?;
                return Ok(done);
            }
            done.push(whole(first, before(level, levels), entries))?;
            first = level;
            entries = more;
        }
        level = next_change(all, problem, levels, level);
    }
    done.push(whole(first, last, entries))?;
    Ok(done)
}
