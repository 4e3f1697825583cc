//! Cases whose results were worked out by hand.

use crate::trie;
use dds_base::leaf::Leaf;
use dds_base::name::LeafName;
use dds_base::node_set::NodeSet;
use dds_base::number::{NodeNo, Stamp};
use dds_maps::maps::{Judgement, Maps, Standing, judge};
use std::alloc::Global;

fn leaf((bits, depth): (u16, u8), epoch: u64) -> Option<Leaf> {
    trie::leaf(LeafName::of(bits, depth)?, epoch)
}

/// How the leaf of this name and epoch stands for a key in a map of 1/1 at epoch 1 and 3/2 at epoch 2; `Err` has the
/// epoch of the leaf that is there.
fn standing(
    alloc: Global,
    key: u64,
    (bits, depth): (u16, u8),
    epoch: u64,
) -> Option<Result<(), Option<u64>>> {
    let leaves = [leaf((1, 1), 1)?, leaf((3, 2), 2)?];
    let maps = Maps::new(alloc, &leaves).ok()?;
    match maps.stands(key, LeafName::of(bits, depth)?, Stamp::opening(epoch)) {
        Standing::Same => Some(Ok(())),
        Standing::Other(leaf) => Some(Err(Some(leaf.epoch))),
        Standing::NotHere => Some(Err(None)),
    }
}

#[test]
fn a_map_stands_by_its_deepest_leaf(rt: HostRuntime) {
    for (key, name, epoch, want) in &[
        (1, (1, 1), 1, Ok(())),
        (3, (3, 2), 2, Ok(())),
        (3, (1, 1), 1, Err(Some(2))),
        (3, (3, 2), 1, Err(Some(2))),
        (2, (1, 1), 1, Err(None)),
    ] {
        let found = standing(rt.alloc(), *key, *name, *epoch);
        assert_eq!(rt; found, Some(*want), "key {key} at epoch {epoch}");
    }
}

/// Judges a brick's leaf of this epoch by a library's.
fn judged(mine: u64, theirs: Option<u64>) -> Option<Judgement> {
    let mine = leaf((0, 0), mine)?;
    match theirs {
        Some(epoch) => Some(judge(&mine, Some(&leaf((0, 0), epoch)?))),
        None => Some(judge(&mine, None)),
    }
}

#[test]
fn the_newer_of_two_leaves_is_ahead(rt: HostRuntime) {
    for (mine, theirs, want) in &[
        (1, None, Judgement::NotHere),
        (1, Some(1), Judgement::Same),
        (2, Some(1), Judgement::BrickBehind),
        (1, Some(2), Judgement::LibraryStale),
    ] {
        assert_eq!(rt; judged(*mine, *theirs), Some(*want), "epoch {mine}");
    }
}

/// Whether brick 0, whose map is the leaf of this name, takes leaf 2/2 of brick 2, which stopped.
fn takes(alloc: Global, own: (u16, u8), free: bool) -> Option<bool> {
    let maker = NodeNo::brick(2)?;
    let mut known = NodeSet::new();
    known.add(maker);
    let mut half = leaf((2, 2), 1)?;
    half.epoch = 2;
    half.stamp = Stamp::made_by(maker, 0);
    half.prev = Stamp::opening(1);
    let maps = Maps::new(alloc, &[leaf(own, 1)?]).ok()?;
    Some(maps.may_take(NodeNo::brick(0)?, &half, &known, free))
}

#[test]
fn a_brick_takes_a_half_of_its_own_leaf(rt: HostRuntime) {
    for (own, free, want) in &[
        ((0, 1), true, true),
        ((0, 1), false, false),
        ((0, 0), true, false),
        ((1, 1), true, false),
    ] {
        assert_eq!(rt; takes(rt.alloc(), *own, *free), Some(*want), "free {free}");
    }
}
