ghost use Rattle.std.specs.Prelude.{◌≡◌, ◌<◌, ◌+◌, ◌^◌, ◌++◌, [], length, slice_get, IfOk, Some};

use charge_state::Charges;
use sidb_units::Memory;
use std::alloc::Global;
use std::marker::Model;

/// In order, possibly valid lists of the search tree under a threshold, and how many nodes that
/// tree has.
#[derive(Drop)]
pub struct LeafList {
    pub(crate) lists: Vec<Charges>,
    pub(crate) nodes: u64,
}

impl Model for LeafList {
    ghost use Rattle.tree_leaves.specs.Leaves.{Leaves};
    ghost use Rattle.tree_leaves.specs.LeavesSeen.{seen};

    ghost Value = { Leaves };

    ghost view = { seen };
}

/// What `leaves` answers.
#[derive(Drop)]
pub enum LeavesAnswer {
    /// The leaves of the tree.
    Lists(LeafList),
    /// The tree has more nodes than the limit.
    Budget,
    /// Memory did not suffice.
    Memory,
}

impl LeafList {
    /// No lists, in a tree of so many nodes.
    pub fn none(alloc: Global, nodes: u64) -> LeafList
        ensures lists { result.lists ≡ [] }
        ensures nodes { result.nodes ≡ nodes }
    {
        LeafList {
            lists: Vec::new(alloc),
            nodes,
        }
    }

    /// Adds the lists of another part of the tree at the end, and the number of its nodes.
    pub fn append(&mut self, mut other: LeafList) -> Result<(), Memory>
        requires few { self.old.nodes + other.nodes < 2 ^ 64 }
        ensures lists { IfOk result (λ _. self.new.lists ≡ self.old.lists ++ other.lists) }
        ensures nodes { IfOk result (λ _. self.new.nodes ≡ self.old.nodes + other.nodes) }
    {
        self.lists.append(&mut other.lists)?;
        self.nodes += other.nodes;
        Ok(())
    }

    /// How many lists there are.
    pub fn len(&self) -> usize
        ensures { result ≡ length self.now.lists }
    {
        self.lists.len()
    }

    /// List `k`.
    pub fn charges(&self, k: usize) -> &Charges
        requires { k < length self.now.lists }
        ensures { slice_get self.now.lists k ≡ Some result.now }
    {
        &self.lists[k]
    }

    /// How many nodes the tree has in which they were found.
    pub fn nodes(&self) -> u64
        ensures { result ≡ self.now.nodes }
    {
        self.nodes
    }
}
