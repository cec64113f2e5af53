use charge_model::{Span, Test};

/// What the tests of a site's charge are over all potential tables: each holds under every table,
/// one holds under none, or neither, with the first test that fails under some table and its least
/// and greatest slack at scale 1, in 10^-12 V.
#[derive(Clone, Copy, PartialEq, Eq, Debug)]
pub enum PopulationVerdict {
    Always,
    Never,
    Depends(Test, Span),
}
