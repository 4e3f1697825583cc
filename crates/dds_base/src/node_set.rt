//! A set of nodes, as a bit for each.

ghost use Rattle.std.specs.Prelude.{◌≡◌, ℕ, ◌==◌, ◌||◌, ◌<◌, false};
ghost use Rattle.dds_base.specs.NodeSet.{has_node, no_nodes, with_node};

use crate::number::NodeNo;

/// A set of nodes. No call of it takes memory.
#[derive(Clone, Copy, PartialEq, Eq, Debug)]
pub struct NodeSet {
    bricks: u64,
    libraries: u64,
}

impl NodeSet {
    pub fn new() -> NodeSet
        ensures value { result ≡ no_nodes }
        ensures none { (node : ℕ) → has_node result node ≡ false }
    {
        NodeSet {
            bricks: 0,
            libraries: 0,
        }
    }

    pub fn add(&mut self, node: NodeNo)
        ensures value { self.new ≡ with_node self.old node }
        ensures nodes { (other : ℕ) → has_node self.new other ≡ (other == node || has_node self.old other) }
    {
        let number = node.number();
        if number < 64 {
            self.bricks |= 1 << number;
        } else {
            self.libraries |= 1 << (number - 64);
        }
    }

    pub fn has(&self, node: NodeNo) -> bool
        ensures { result ≡ has_node self.now node }
    {
        let number = node.number();
        if number < 64 {
            self.bricks >> number & 1 == 1
        } else {
            self.libraries >> (number - 64) & 1 == 1
        }
    }
}
