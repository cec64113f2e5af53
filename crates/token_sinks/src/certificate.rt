use crate::tokens::Tokens;
use ground_entries::GroundList;
use potential_problem::Problem;

/// A problem, its ground list with the marks, and the tokens that close every other charge list.
/// The tokens describe a tree in preorder, from the empty prefix on.
#[derive(Drop)]
pub struct Certificate {
    pub problem: Problem,
    pub list: GroundList,
    pub tokens: Tokens,
}
