//! Gates and grids of points, and their readings out of texts.
#![tactic(auto)]

mod function;
mod gate;
mod grid;
mod grid_reading;
pub mod laws;
mod pairs;
mod parts;
mod reading;

pub use function::{Function, function_named, name_of};
pub use gate::{LogicSpec, are_distinct, logic_spec};
pub use grid::{Axis, Grid};
pub use grid_reading::read_grid;
pub use pairs::{PairList, PairOf};
pub use reading::read_pairs;

/// The greatest place that a pair may name.
pub const MAX_PAIR_PLACE: i64 = 9_999;

/// The greatest step of a grid, in 10^-4.
pub const MAX_GRID_STEP: i64 = 10_000_000;
