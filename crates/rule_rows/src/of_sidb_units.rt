use sidb_units::{DEFAULT_WORKERS, MAX_TOKENS, MAX_WEIGHT};
use std::test::Fail;

/// The numbers that no answer of the program shows: how many workers there are where none are named,
/// how many potentials an energy adds, and how many tokens there are at the greatest limit of nodes.
#[test]
fn numbers_that_no_answer_shows(rt: HostRuntime) -> Result<(), Fail> {
    assert_eq!(rt; DEFAULT_WORKERS, 4);
    assert_eq!(rt; MAX_WEIGHT, 4096);
    assert_eq!(rt; MAX_TOKENS, 30_000_001);
    Ok(())
}
