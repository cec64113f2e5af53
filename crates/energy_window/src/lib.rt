//! All that may be valid within a stated energy of the ground: the window list, its certificate,
//! and the check of one.
#![tactic(auto)]

mod answer;
mod checking;
pub mod laws;
mod walking;

pub use answer::{WindowAnswer, solve_window};
pub use checking::{WindowCertificate, check_window};
pub use walking::walk_window;
pub use window_model::MAX_WINDOW;
