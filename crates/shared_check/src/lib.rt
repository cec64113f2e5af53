//! Tests the tokens of a search tree, its subtrees side by side, and counts its nodes.
#![tactic(auto)]

mod adding;
mod head;
mod setting;
mod sharing;
mod task;
mod tester;

pub use sharing::walk_shared;
