use ground_entries::GroundList;
use potential_problem::Problem;

/// A certificate text up to its tokens: the problem, the list, the place just behind the line
/// feed of the line `tokens`, and the number of tokens.
#[derive(Drop)]
pub struct CertFront {
    pub problem: Problem,
    pub list: GroundList,
    pub bytes: usize,
    pub tokens: u64,
}
