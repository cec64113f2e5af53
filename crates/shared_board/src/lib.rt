//! Three words that the workers of a round share, and what each worker's seat knows of them.
#![tactic(auto)]

mod board;
mod ends;
mod law;
mod rule;
mod steps;
mod view;

pub use board::{Board, BoardSeat, Closed, Entered};
pub use ends::{close, make_board};
pub use law::core_law;
pub use steps::{claim, enter, look, publish};
pub use view::{Plan, View};
