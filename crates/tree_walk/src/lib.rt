//! Goes through the search tree, for whoever visits its prefixes.
#![tactic(auto)]

mod visitor;
mod walking;

pub use visitor::Visitor;
pub use walking::walk_tree;
