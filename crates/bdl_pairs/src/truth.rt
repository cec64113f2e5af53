ghost use Rattle.std.specs.Prelude.{◌≡◌, ◌<◌, Some, length, slice_get};

use crate::PatternVerdict;
use ground_entries::GroundList;
use std::marker::Model;

/// What a pattern with a ground list answers: the bit that it wants, the verdict, and the list.
#[derive(Drop)]
pub struct PatternAnswer {
    pub wanted: bool,
    pub verdict: PatternVerdict,
    pub list: GroundList,
}

/// The answers to the patterns of a gate, by pattern.
#[derive(Drop)]
pub struct Truth {
    answers: Vec<PatternAnswer>,
}

impl Model for Truth {
    ghost use Rattle.std.specs.Prelude.{List};
    ghost use Rattle.bdl_pairs.specs.declared.truth.PatternAnswer.{PatternAnswer};

    ghost Value = { List PatternAnswer };

    ghost view = { λ t. t.answers.items };
}

impl Truth {
    /// How many patterns there are.
    pub fn len(&self) -> usize
        ensures { result ≡ length self.now }
    {
        self.answers.len()
    }

    /// The answer to pattern k.
    pub fn at(&self, k: usize) -> &PatternAnswer
        requires { k < length self.now }
        ensures { slice_get self.now k ≡ Some result.now }
    {
        &self.answers[k]
    }
}

/// The truth table of these answers.
pub fn truth_of(answers: Vec<PatternAnswer>) -> Truth
    ensures { result ≡ answers.items }
{
    Truth { answers }
}
