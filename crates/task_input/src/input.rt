use crate::About;
use potential_problem::Problem;

/// The problem that an input means, and what is told of it: the layout that it came from, if it
/// came from one, and how much of the text was skipped.
#[derive(Drop)]
pub struct Input {
    pub problem: Problem,
    pub about: About,
}
