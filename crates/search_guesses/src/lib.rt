//! Guesses that spare a search work, and that nothing rests on: charge lists that may be good ones,
//! and a threshold under which a search tree has a few more nodes than a limit. Whoever takes one
//! tests it.
#![tactic(auto)]

mod counting;
mod couplings;
mod descent;
mod guess;
mod histogram;
mod row;
mod widening;

pub use counting::guessed_threshold;
pub use couplings::{Couplings, couplings_of};
pub use descent::settle;
pub use guess::Guess;
pub use row::SiteNumbers;
pub use widening::wide_guesses;
