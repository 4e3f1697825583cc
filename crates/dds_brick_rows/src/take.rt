//! The leaves that a brick takes.

ghost use Rattle.std.specs.Prelude.{◌≡◌, ◌<◌, ◌-◌, ◌==◌, OnOk, Some, IsTrue};
ghost use Rattle.std.specs.Bool.{OnTrue};
ghost use Rattle.std.specs.FinMap as map;
ghost use Rattle.dds_groups.specs.Names.{low_half, high_half};
ghost use Rattle.dds_trie.specs.Trie.{put};
ghost use Rattle.dds_brick_rows.specs.Take.{is_low, low_of, high_of, replaced, is_free, take_over, take};

use crate::refusal::joins_over;
use dds_base::leaf::Leaf;
use dds_base::memory::Memory;
use dds_base::name::LeafName;
use dds_groups::halves::{high_half, low_half};
use dds_groups::made::sibling;
use dds_groups::take::may_take;
use dds_maps::maps::Maps;
use dds_states::brick_state::BrickState;

/// Whether the name is the low half of its whole.
fn is_low(name: LeafName) -> bool
    requires { 0 < name.depth }
    ensures { result ≡ is_low name }
{
    u32::from(name.bits()) < 1 << (name.depth() - 1)
}

/// A split's leaf and its sibling, the low half's first.
fn halves(leaf: &Leaf) -> (Leaf, Leaf)
    requires { 0 < leaf.now.name.depth }
    ensures low { result.0 ≡ low_of leaf.now }
    ensures high { result.1 ≡ high_of leaf.now }
{
    let other = sibling(leaf);
    if is_low(leaf.name) {
        return (*leaf, other);
    }
    (other, *leaf)
}

/// Whether these are the two halves of a name.
fn are_halves(whole: LeafName, low: LeafName, high: LeafName) -> bool
    requires { whole.depth < 16 }
    ensures low { OnTrue result (low ≡ low_half whole) }
    ensures high { OnTrue result (high ≡ high_half whole) }
{
    low == low_half(whole) && high == high_half(whole)
}

/// Puts the leaves of the two halves of a name in the place of its leaf. It answers `Memory` too where they are none.
pub fn split(leaves: &mut Maps, name: LeafName, low: Leaf, high: Leaf) -> Result<(), Memory>
    ensures { OnOk result (leaves.new ≡ put (put (map.remove leaves.old name) low) high) }
{
    if name.depth() >= 16 || leaves.named(name).is_none() {
        return Err(Memory);
    }
    if !are_halves(name, low.name, high.name) {
        return Err(Memory);
    }
    leaves.split(name, low, high)
}

/// Replaces the brick's leaf by one of the same name, or by a split's leaf and its sibling. It answers `Memory` too
/// where the name is neither the same nor a half.
pub fn replaced(leaves: &mut Maps, own: &Leaf, leaf: &Leaf) -> Result<(), Memory>
    ensures { OnOk result (leaves.new ≡ replaced leaves.old own.now leaf.now) }
{
    if own.name.depth() == leaf.name.depth() {
        return leaves.adopt(*leaf);
    }
    if leaf.name.depth() == 0 {
        return Err(Memory);
    }
    let (low, high) = halves(leaf);
    split(leaves, own.name, low, high)
}

/// Whether nothing is under way on a name.
fn is_free(state: &BrickState, name: LeafName) -> bool
    ensures { result ≡ is_free state.now name }
{
    state.locks.leased(name).is_none()
        && !state.locks.any_under(name)
        && !joins_over(&state.order, name)
}

/// The brick takes a leaf that it is told in the place of its own, where it may. Its pairs stay.
pub fn take(state: &mut BrickState, leaf: &Leaf) -> Result<(), Memory>
    ensures { OnOk result (state.new ≡ take state.old leaf.now) }
{
    let Some(own) = state.leaves.own_leaf(leaf.name).copied() else {
        return Ok(());
    };
    let free = is_free(state, own.name);
    if !may_take(state.number, &own, leaf, &state.known, free) {
        return Ok(());
    }
    replaced(&mut state.leaves, &own, leaf)
}
