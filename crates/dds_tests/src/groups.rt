//! Cases whose results were worked out by hand.

ghost use Rattle.std.specs.Prelude.{◌≡◌, [], ◌∷◌, IfSome};

use dds_base::brick_list::{BrickList, LiveList};
use dds_base::leaf::Leaf;
use dds_base::name::LeafName;
use dds_base::node_set::NodeSet;
use dds_base::number::{NodeNo, Stamp};
use dds_groups::live::live;
use dds_groups::made::{children, joined};
use dds_groups::order::newer;
use dds_groups::successor::{Change, successor};
use dds_groups::take::may_take;

/// A leaf of these bits and depth, of this epoch, maker and count, behind an opening leaf. The maker 255 is that of an
/// opening.
fn leaf((bits, depth, epoch, maker, count): (u16, u8, u64, u8, u64), list: &[u8]) -> Option<Leaf> {
    Some(Leaf {
        name: LeafName::of(bits, depth)?,
        epoch,
        stamp: Stamp::of(maker, count)?,
        prev: Stamp::opening(0),
        list: BrickList::of(list)?,
    })
}

fn known(bricks: &[u8]) -> Option<NodeSet> {
    let mut known = NodeSet::new();
    for brick in bricks {
        known.add(NodeNo::brick(*brick)?);
    }
    Some(known)
}

/// Whether a leaf is newer than the one of 1/1, epoch 5, maker 3 and count 7.
fn is_newer(other: (u16, u8, u64, u8, u64)) -> Option<bool> {
    let base = leaf((1, 1, 5, 3, 7), &[3])?;
    Some(newer(&leaf(other, &[3])?, &base))
}

#[test]
fn a_leaf_is_newer_by_epoch_depth_maker_and_count(rt: HostRuntime) {
    for (what, other, want) in &[
        ("a later epoch", (0, 0, 6, 0, 0), true),
        ("an earlier epoch", (1, 2, 4, 9, 9), false),
        ("a greater depth", (1, 2, 5, 0, 0), true),
        ("a smaller depth", (0, 0, 5, 9, 9), false),
        ("a greater maker", (0, 1, 5, 4, 0), true),
        ("no maker", (0, 1, 5, 255, 0), true),
        ("a greater count", (0, 1, 5, 3, 8), true),
        ("the same", (1, 1, 5, 3, 7), false),
    ] {
        assert_eq!(rt; is_newer(*other), Some(*want), "{what}");
    }
}

/// Leaves behind the leaf 1/1 of epoch 1 and of the bricks 0, 1 and 2, and what each did.
const SUCCESSORS: [((u16, u8, u64, u8, u64), &[u8], Option<Change>); 10] = [
    ((1, 1, 2, 5, 0), &[0, 2, 5], Some(Change::Join)),
    ((1, 1, 2, 5, 0), &[5], Some(Change::Join)),
    ((1, 1, 3, 5, 0), &[0, 2, 5], None),
    ((1, 1, 2, 5, 0), &[2, 0, 5], None),
    ((1, 1, 2, 5, 0), &[0, 5, 2], None),
    ((1, 1, 2, 2, 0), &[0, 2], None),
    ((3, 2, 2, 2, 0), &[0, 2], Some(Change::Split)),
    ((1, 2, 2, 0, 0), &[0, 1, 2], Some(Change::Split)),
    ((2, 2, 2, 0, 0), &[0, 1, 2], None),
    ((3, 2, 2, 1, 0), &[0, 2], None),
];

fn change_to(new: (u16, u8, u64, u8, u64), list: &[u8]) -> Option<Change> {
    let old = leaf((1, 1, 1, 255, 0), &[0, 1, 2])?;
    successor(&old, &leaf(new, list)?)
}

#[test]
fn a_successor_is_a_join_or_a_split(rt: HostRuntime) {
    for (new, list, want) in &SUCCESSORS {
        assert_eq!(rt; change_to(*new, list), *want, "{list:?}");
    }
}

/// The members of the list 0, 1, 2 that aren't among these.
fn live_without(stopped: &[u8]) -> Option<BrickList> {
    let list = BrickList::of(&[0, 1, 2])?;
    live(&list, &known(stopped)?).group()
}

#[test]
fn live_members_keep_their_order(rt: HostRuntime) {
    assert_eq!(rt; live_without(&[1, 9]), BrickList::of(&[0, 2]));
    assert_eq!(rt; live_without(&[2, 1, 0]), None);
}

/// The leaf 1/1 of epoch 4, and the members of it that are live.
fn old_leaf() -> Option<(Leaf, LiveList)>
    ensures leaf { IfSome result (λ old. (old.0.name ≡ record { bits = 1; depth = 1 }) × (old.0.epoch ≡ 4)) }
    ensures list { IfSome result (λ old. (old.0.list ≡ 0 ∷ 1 ∷ 2 ∷ []) × (old.1 ≡ 0 ∷ 2 ∷ [])) }
{
    let mut members = LiveList::new();
    members.push(NodeNo::brick(0)?);
    members.push(NodeNo::brick(2)?);
    let leaf = Leaf {
        name: LeafName::of(1, 1)?,
        epoch: 4,
        stamp: Stamp::of(2, 6)?,
        prev: Stamp::opening(0),
        list: BrickList::of(&[0, 1, 2])?,
    };
    Some((leaf, members))
}

/// The leaf that brick 7 makes of it by a join, and those that brick 2 makes by a split.
fn made() -> Option<[Leaf; 3]> {
    let (old, members) = old_leaf()?;
    let new = joined(&old, &members, NodeNo::brick(7)?, 3);
    let (low, high) = children(&old, &members, NodeNo::brick(2)?, 8);
    Some([new, low, high])
}

/// Such a leaf behind the old one.
fn behind(row: (u16, u8, u64, u8, u64), list: &[u8]) -> Option<Leaf> {
    let mut leaf = leaf(row, list)?;
    leaf.prev = Stamp::of(2, 6)?;
    Some(leaf)
}

fn wanted() -> Option<[Leaf; 3]> {
    Some([
        behind((1, 1, 5, 7, 3), &[0, 2, 7])?,
        behind((1, 2, 5, 2, 8), &[0, 2])?,
        behind((3, 2, 5, 2, 8), &[0, 2])?,
    ])
}

#[test]
fn a_joiner_and_a_splitter_make_leaves(rt: HostRuntime) {
    assert!(rt; made().is_some());
    assert_eq!(rt; made(), wanted());
}

/// Whether a brick with the leaf 1/1 takes leaf 3/2 of brick 2 while another one is known to have stopped.
fn takes(me: u8, stopped: u8, free: bool) -> Option<bool> {
    let own = leaf((1, 1, 1, 255, 0), &[0, 1, 2])?;
    let split = leaf((3, 2, 2, 2, 0), &[0, 2])?;
    let known = known(&[stopped])?;
    Some(may_take(NodeNo::brick(me)?, &own, &split, &known, free))
}

#[test]
fn a_brick_takes_a_successor_whose_maker_stopped(rt: HostRuntime) {
    for (me, stopped, free, want) in &[
        (0, 2, true, true),
        (0, 1, true, false),
        (0, 2, false, false),
        (1, 2, true, false),
    ] {
        assert_eq!(rt; takes(*me, *stopped, *free), Some(*want), "{me} {stopped}");
    }
}

/// Whether brick 0 with this leaf takes leaf 3/2 of brick 2 while the bricks 1, 2 and 3 are known to have stopped.
fn takes_for(own: (u16, u8, u64, u8, u64), list: &[u8]) -> Option<bool> {
    let (own, rival) = (leaf(own, list)?, leaf((3, 2, 2, 2, 0), &[0, 2])?);
    let known = known(&[1, 2, 3])?;
    Some(may_take(NodeNo::brick(0)?, &own, &rival, &known, true))
}

#[test]
fn a_brick_takes_the_newer_of_two_rivals(rt: HostRuntime) {
    for (what, own, member, want) in &[
        ("an older one", (1, 1, 2, 1, 0), 1, true),
        ("of one that is up", (1, 1, 2, 4, 0), 4, false),
        ("of a later epoch", (1, 1, 3, 1, 0), 1, false),
        ("of a greater maker", (3, 2, 2, 3, 0), 3, false),
        ("of a smaller maker", (3, 2, 2, 1, 9), 1, true),
    ] {
        assert_eq!(rt; takes_for(*own, &[0, *member]), Some(*want), "{what}");
    }
}
