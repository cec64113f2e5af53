//! Whether a test of a site, or a hop, of a full prefix holds under no potential table: by bounds
//! where they tell, else by sums over the classes.
#![tactic(auto)]

mod hops;
mod sites;

pub use hops::never_hops;
pub use sites::never_passes;
