//! Cases whose results were worked out by hand.

ghost use Rattle.std.specs.Prelude.{◌≡◌, IfSome};

use dds_base::brick_list::BrickList;
use dds_base::leaf::Leaf;
use dds_base::name::LeafName;
use dds_base::number::Stamp;
use dds_groups::halves::{high_half, low_half};
use dds_trie::trie::Trie;
use std::alloc::Global;
use std::test::Fail;

/// The opening leaf of this name and epoch, of the bricks 0 and 2, whose stamp has the epoch's number.
pub(crate) fn leaf(name: LeafName, epoch: u64) -> Option<Leaf>
    ensures { IfSome result (λ leaf. leaf.name ≡ name) }
{
    Some(Leaf {
        name,
        epoch,
        stamp: Stamp::opening(epoch),
        prev: Stamp::opening(0),
        list: BrickList::of(&[0, 2])?,
    })
}

/// A trie with leaves of these bits and depths, put in order; the epochs count them from 0.
fn trie_with(alloc: Global, names: &[(u16, u8)]) -> Option<Trie> {
    let mut trie = Trie::new(alloc);
    let mut epoch = 0u64;
    for (bits, depth) in names {
        let leaf = leaf(LeafName::of(*bits, *depth)?, epoch)?;
        trie.put_leaf(leaf).ok()?;
        epoch = epoch.wrapping_add(1);
    }
    Some(trie)
}

fn epoch_at(trie: &Trie, key: u64) -> Option<u64> {
    match trie.leaf_of(key) {
        Some(leaf) => Some(leaf.epoch),
        None => None,
    }
}

#[test]
fn the_deepest_leaf_covers_the_key(rt: HostRuntime) -> Result<(), Fail> {
    let names = [(0, 0), (1, 1), (3, 2), (32771, 16)];
    let trie = trie_with(rt.alloc(), &names).ok_or("no memory")?;
    for (key, want) in &[
        (0, 0),
        (1, 1),
        (5, 1),
        (3, 2),
        (7, 2),
        (32771, 3),
        (98307, 3),
        (65539, 2),
    ] {
        assert_eq!(rt; epoch_at(&trie, *key), Some(*want), "key {key}");
    }
    Ok(())
}

#[test]
fn a_leaf_takes_away_what_lies_under_it(rt: HostRuntime) -> Result<(), Fail> {
    let names = [(1, 1), (3, 2), (7, 3), (2, 2), (3, 2)];
    let trie = trie_with(rt.alloc(), &names).ok_or("no memory")?;
    for (key, want) in &[
        (1, Some(0)),
        (3, Some(4)),
        (7, Some(4)),
        (2, Some(3)),
        (0, None),
    ] {
        assert_eq!(rt; epoch_at(&trie, *key), *want, "key {key}");
    }
    Ok(())
}

/// A trie whose leaf 1/1 was split into leaves of the epochs 8 and 9.
fn split_trie(alloc: Global) -> Option<Trie> {
    let mut trie = trie_with(alloc, &[(1, 1), (7, 3), (0, 1)])?;
    let name = LeafName::of(1, 1)?;
    if trie.named(name).is_some() {
        let (low, high) = (leaf(low_half(name), 8)?, leaf(high_half(name), 9)?);
        trie.split_leaf(name, low, high).ok()?;
    }
    Some(trie)
}

#[test]
fn a_split_puts_both_halves(rt: HostRuntime) -> Result<(), Fail> {
    let trie = split_trie(rt.alloc()).ok_or("no memory")?;
    for (key, want) in &[(1, 8), (3, 9), (7, 9), (2, 2)] {
        assert_eq!(rt; epoch_at(&trie, *key), Some(*want), "key {key}");
    }
    assert_eq!(rt; trie.leaves(rt.alloc())?.len(), 3);
    Ok(())
}
