//! The leaves that a brick makes: one for a join, two for a split.

ghost use Rattle.std.specs.Prelude.{◌≡◌, ◌<◌, ◌≤◌, ◌-◌, ◌^◌, false, IsTrue, length};
ghost use Rattle.dds_base.specs.BrickList.{has};
ghost use Rattle.dds_groups.specs.Leaves.{is_some_of, joined, low_child, high_child, sibling};

use crate::halves::{high_half, low_half, other_half};
use dds_base::brick_list::LiveList;
use dds_base::leaf::Leaf;
use dds_base::number::{NodeNo, Stamp};

/// The leaf that a joiner makes. Its members are the live ones, then the joiner.
pub fn joined(old: &Leaf, live: &LiveList, joiner: NodeNo, count: u64) -> Leaf
    requires epoch { old.now.epoch < 2 ^ 64 - 2 }
    requires members { IsTrue (is_some_of old.now.list live.now) }
    requires room { length live.now ≤ 7 }
    requires brick { joiner < 64 }
    requires new { has old.now.list joiner ≡ false }
    ensures { result ≡ joined old.now live.now joiner count }
{
    let mut members = *live;
    members.push(joiner);
    Leaf {
        name: old.name,
        epoch: old.epoch + 1,
        stamp: Stamp::made_by(joiner, count),
        prev: old.stamp,
        list: members.group().unwrap(),
    }
}

/// The leaves that a member makes by a split, the low half's and then the high half's. Their members are the live ones.
pub fn children(old: &Leaf, live: &LiveList, maker: NodeNo, count: u64) -> (Leaf, Leaf)
    requires epoch { old.now.epoch < 2 ^ 64 - 2 }
    requires members { IsTrue (is_some_of old.now.list live.now) }
    requires depth { old.now.name.depth < 16 }
    requires maker { IsTrue (has live.now maker) }
    ensures low { result.0 ≡ low_child old.now live.now maker count }
    ensures high { result.1 ≡ high_child old.now live.now maker count }
{
    let low = Leaf {
        name: low_half(old.name),
        epoch: old.epoch + 1,
        stamp: Stamp::made_by(maker, count),
        prev: old.stamp,
        list: live.group().unwrap(),
    };
    let high = Leaf {
        name: high_half(old.name),
        epoch: low.epoch,
        stamp: low.stamp,
        prev: low.prev,
        list: low.list,
    };
    (low, high)
}

/// The leaf of the other half, after the split that made this one.
pub fn sibling(leaf: &Leaf) -> Leaf
    requires { 0 < leaf.now.name.depth }
    ensures { result ≡ sibling leaf.now }
{
    Leaf {
        name: other_half(leaf.name),
        epoch: leaf.epoch,
        stamp: leaf.stamp,
        prev: leaf.prev,
        list: leaf.list,
    }
}
