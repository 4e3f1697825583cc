//! Which leaf comes from which in one step.

ghost use Rattle.std.specs.Prelude.{◌≡◌, ◌==◌, ◌&&◌, ◌+◌, ◌≤◌, length, take, nat_lt, slice_index, if◌then◌else◌};
ghost use Rattle.dds_base.specs.BrickList.{has};
ghost use Rattle.dds_groups.specs.Leaves.{is_some_of, is_joined_list, is_join, is_split, follows, successor};

use crate::halves::is_half;
use crate::order::{same_name, same_stamp};
use dds_base::brick_list::BrickList;
use dds_base::leaf::Leaf;

/// What a leaf did to its predecessor's partition: a brick joined the group, or the partition was split.
#[derive(Clone, Copy, PartialEq, Eq, Debug)]
pub enum Change {
    Join,
    Split,
}

/// How `new` comes from `old` in one step; `None` where it doesn't.
pub fn successor(old: &Leaf, new: &Leaf) -> Option<Change>
    ensures { result ≡ successor old.now new.now }
{
    if !follows(old, new) {
        return None;
    }
    if is_join(old, new) {
        return Some(Change::Join);
    }
    if is_split(old, new) {
        return Some(Change::Split);
    }
    None
}

fn follows(old: &Leaf, new: &Leaf) -> bool
    ensures { result ≡ follows old.now new.now }
{
    same_stamp(&new.prev, &old.stamp) && new.epoch > old.epoch && new.epoch - old.epoch == 1
}

fn is_join(old: &Leaf, new: &Leaf) -> bool
    ensures { result ≡ is_join old.now new.now }
{
    same_name(&old.name, &new.name)
        && !has(&old.list, new.stamp.maker())
        && is_joined_list(&old.list, new.stamp.maker(), &new.list)
}

fn is_split(old: &Leaf, new: &Leaf) -> bool
    ensures { result ≡ is_split old.now new.now }
{
    is_half(&old.name, &new.name)
        && is_some_of(&old.list, &new.list, new.list.len())
        && has(&new.list, new.stamp.maker())
}

/// Whether the list is some members of `old` in their order, then the maker.
fn is_joined_list(old: &BrickList, maker: u8, list: &BrickList) -> bool
    ensures { result ≡ is_joined_list old.now maker list.now }
{
    let last = list.len() - 1;
    is_some_of(old, list, last) && list.at(last).number() == maker
}

/// Whether the first `count` of the list are some members of `old` in their order.
fn is_some_of(old: &BrickList, list: &BrickList, count: usize) -> bool
    requires { count ≤ length list.now }
    ensures { result ≡ is_some_of old.now (take count list.now) }
{
    let mut met = 0;
    for place in 0..old.len() {
        met = met_with(list, count, met, old.at(place).number());
    }
    met == count
}

/// How many of the first `count` were met in their order, after `met` of them and one member of the old list more.
fn met_with(list: &BrickList, count: usize, met: usize, member: u8) -> usize
    requires within { met ≤ count }
    requires room { count ≤ length list.now }
    ensures value { result ≡ (if nat_lt met count && member == slice_index list.now met then met + 1 else met) }
    ensures range { result ≤ count }
{
    if met < count && member == list.at(met).number() {
        met + 1
    } else {
        met
    }
}

/// Whether the node is a member.
pub fn has(list: &BrickList, node: u8) -> bool
    ensures { result ≡ has list.now node }
{
    for place in 0..list.len() {
        if list.at(place).number() == node {
            return true;
        }
    }
    false
}
