//! Tiles of a rectangle of parameters: a rectangle whose answer stays open is quartered, to a given depth.
#![tactic(auto)]

mod areas;
mod cutting;
pub mod laws;
mod sides;
mod tiles;
mod tiling;

pub use areas::{Areas, areas_of};
pub use cutting::{can_be_cut, parts_of, rectangles_of};
pub use parameter_regions::Rectangle;
pub use sides::Side;
pub use tiles::Tile;
pub use tiling::{Judge, Judged, Meaning, tiles_of};
