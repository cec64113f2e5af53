use gate_model::{Function, Grid, PairList};

/// The gate that is asked for, and the points at which it is.
#[derive(Drop)]
pub struct GateSettings {
    /// The pairs of the inputs: none, or one or two.
    pub inputs: PairList,
    /// The pairs of the outputs: none, or up to four.
    pub outputs: PairList,
    /// The function, of as many bits as there are inputs.
    pub function: Option<Function>,
    /// The points of permittivity and screening length.
    pub grid: Option<Grid>,
}
