//! Runs over sources and sinks that fail, or never do, and one row of each task.
#![tactic(auto)]

#[cfg(test)]
mod case;
#[cfg(test)]
mod meeting;
#[cfg(test)]
mod refusals;
mod steady;

pub use steady::steady_run;

#[cfg(test)]
mod tests;
