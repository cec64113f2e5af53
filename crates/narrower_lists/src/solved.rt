ghost use Rattle.std.specs.Prelude.{◌≡◌};
ghost use Rattle.ground_state.specs.Answer.{IsListedWithin};

use ground_entries::GroundList;
use potential_problem::Problem;
use std::marker::Model;

/// A problem with its ground list, which was found within a limit of nodes.
#[derive(Drop)]
pub struct SolvedProblem {
    problem: Problem,
    limit: u64,
    list: GroundList,
}

impl Model for SolvedProblem {
    ghost use Rattle.narrower_lists.specs.Listed.{ListedProblem};
    ghost use Rattle.narrower_lists.specs.Seen.{seen};
    ghost use Rattle.ground_state.specs.Answer.{IsListedWithin};

    ghost Value = { ListedProblem };

    ghost view = { seen };

    ghost invariant = { λ s. IsListedWithin s.problem s.limit s.list };
}

impl SolvedProblem {
    /// The problem.
    pub fn problem(&self) -> &Problem
        ensures { result.now ≡ self.now.problem }
    {
        &self.problem
    }

    /// The limit of nodes.
    pub fn limit(&self) -> u64
        ensures { result ≡ self.now.limit }
    {
        self.limit
    }

    /// The ground list with its marks.
    pub fn list(&self) -> &GroundList
        ensures value { result.now ≡ self.now.list }
        ensures listed { IsListedWithin self.now.problem self.now.limit result.now }
    {
        &self.list
    }
}

/// A problem with its ground list.
pub fn solved_problem_of(problem: Problem, limit: u64, list: GroundList) -> SolvedProblem
    requires { IsListedWithin problem limit list }
    ensures problem { result.problem ≡ problem }
    ensures limit { result.limit ≡ limit }
    ensures list { result.list ≡ list }
{
    SolvedProblem {
        problem,
        limit,
        list,
    }
}
