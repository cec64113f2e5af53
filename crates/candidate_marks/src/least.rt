ghost use Rattle.std.specs.Prelude.{◌<◌, length, All};
ghost use Rattle.candidate_marks.specs.Candidates.{IsWeighed, IsLowest};

use crate::candidate::Candidate;
use crate::ends::begins_below;
use potential_problem::Problem;

/// A candidate whose least energy is the least.
pub fn lowest<'a>(_problem: &Problem, list: &'a [Candidate]) -> &'a Candidate
    requires some { 0 < length list.now }
    requires weighed { All (IsWeighed _problem.now) list.now }
    ensures { IsLowest _problem.now list.now result.now }
{
    let mut lowest = &list[0];
    for candidate in list {
        if begins_below(&candidate.span, &lowest.span) {
            lowest = candidate;
        }
    }
    lowest
}
