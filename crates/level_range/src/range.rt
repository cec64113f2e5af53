ghost use Rattle.std.specs.Prelude.{◌≡◌, ◌≤ℤ◌, ◌≤◌, neg_ℤ, pos, ◌*◌, ◌^◌};
ghost use Rattle.level_range_laws.specs.Parts.{ArePrinted};
ghost use Rattle.level_candidates.specs.Answer.{AreCandidatesWithin};
ghost use Rattle.level_candidates.specs.Plans.{AreLevels};
ghost use Rattle.level_range.specs.Answer.{IsAnswerOver, levels_of};
ghost use Rattle.sidb_units.specs.declared.TheConstants.{MAX_NODES};

use crate::parts::parts_of;
use crate::parts_list::Parts;
use crate::range_answer::RangeAnswer;
use level_candidates::{CandidatesAnswer, Interval, candidates_in};
use potential_problem::Problem;
use sidb_units::MAX_NODES;
use std::alloc::Global;

/// The levels from start through end.
fn interval(start: i64, end: i64) -> Interval
    ensures { result ≡ levels_of start end }
{
    Interval {
        first: start,
        last: end,
    }
}

/// The parts of the whole levels from `start` through `end`, in 10^-12 V, which `mu_minus` takes in
/// turn, with the gap of the problem (docs/MODEL.md, "Levels"). At most `limit` range prefixes are
/// entered.
pub fn level_range(
    alloc: Global,
    problem: &Problem,
    start: i64,
    end: i64,
    limit: u64,
) -> RangeAnswer
    requires start { neg_ℤ (pos (2 * 10 ^ 12)) ≤ℤ start }
    requires order { start ≤ℤ end }
    requires end { end ≤ℤ pos 0 }
    requires limit { (1 ≤ limit) × (limit ≤ MAX_NODES) }
    ensures { IsAnswerOver problem.now (levels_of start end) limit result }
{
    let levels = interval(start, end);
    match candidates_in(alloc, problem, levels, limit) {
        CandidatesAnswer::Candidates(all) => {
            match parts_of(alloc, problem, all.as_slice(), levels) {
                Ok(parts) => RangeAnswer::List(Parts { parts }),
                Err(_) => RangeAnswer::Memory,
            }
        }
        CandidatesAnswer::Budget => RangeAnswer::Budget,
        CandidatesAnswer::TooMany => RangeAnswer::ListTooLong,
        CandidatesAnswer::Memory => RangeAnswer::Memory,
    }
}
