use charge_model::Span;

/// What the slack of a hop is over all potential tables: at least 0 under each, below 0 under each,
/// or neither, with its least and greatest value at scale 1, in 10^-12 V.
#[derive(Clone, Copy, PartialEq, Eq, Debug)]
pub enum HopVerdict {
    Always,
    Never,
    Depends(Span),
}
