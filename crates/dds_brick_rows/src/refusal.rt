//! Why a brick refuses a get, an update or a lease.

ghost use Rattle.std.specs.Prelude.{◌≡◌, ◌+◌, ◌≤◌, Some, None, count_by, length, option_copied, not, ◌==◌};
ghost use Rattle.dds_base.specs.Number.{StampOf};
ghost use Rattle.std.specs.FinMap.{keys, contains_key};
ghost use Rattle.dds_base.specs.Name.{covers};
ghost use Rattle.dds_base.specs.Op.{the_key};
ghost use Rattle.dds_brick_rows.specs.Refusal.{joins_key, joins_over, stale_against, is_locked, get_refusal, update_refusal, pairs_under};
ghost use Rattle.dds_brick_rows.specs.Refusal.{is_put, is_new_under, is_full, is_full_at, has_no_room, update_denial, is_found};
ghost use Rattle.dds_brick_rows.specs.Refusal.{lease_refusal};
ghost use Rattle.dds_states.specs.Leaf.{leaf_for};

use dds_base::leaf::Leaf;
use dds_base::name::LeafName;
use dds_base::number::Stamp;
use dds_base::op::Op;
use dds_base::pending::Pending;
use dds_groups::order::{same_name, same_stamp};
use dds_history::table::Table;
use dds_letters::refusal::{Denial, Refusal};
use dds_locks::locks::Locks;
use dds_states::brick_state::{BrickState, OpenOrder, Task};

/// The most pairs of a partition at a brick.
pub const PAIRS: usize = 16_384;

/// Whether an open join's name covers the key.
pub fn joins_key(order: &Option<OpenOrder>, key: u64) -> bool
    ensures { result ≡ joins_key order.now key }
{
    match order {
        Some(
            OpenOrder {
                task: Task::Join { via: _ },
                name,
                ..
            },
        ) => name.covers(key),
        _ => false,
    }
}

/// Whether an open join's name overlaps the name.
pub fn joins_over(order: &Option<OpenOrder>, over: LeafName) -> bool
    ensures { result ≡ joins_over order.now over }
{
    match order {
        Some(
            OpenOrder {
                task: Task::Join { via: _ },
                name,
                ..
            },
        ) => name.overlaps(&over),
        _ => false,
    }
}

/// The refusal of a leaf that isn't the one that covers its key here.
fn stale_against(own: Option<&Leaf>, name: LeafName, stamp: Stamp) -> Option<Refusal>
    ensures { result ≡ stale_against (option_copied own.entry) name stamp }
{
    match own {
        None => Some(Refusal::Stale { leaf: None }),
        Some(leaf) if same_name(&leaf.name, &name) && same_stamp(&leaf.stamp, &stamp) => None,
        Some(leaf) => Some(Refusal::Stale { leaf: Some(*leaf) }),
    }
}

/// Why a get is refused, if it is.
pub fn get_refusal(state: &BrickState, key: u64, name: LeafName, stamp: Stamp) -> Option<Refusal>
    ensures { result ≡ get_refusal state.now key name stamp }
{
    if joins_key(&state.order, key) {
        return Some(Refusal::Lease);
    }
    if let Some(refusal) = stale_against(state.leaves.leaf_of(key), name, stamp) {
        return Some(refusal);
    }
    if state.locks.holder(key).is_some() {
        return Some(Refusal::Lock);
    }
    None
}

/// Why an update is refused, if it is.
fn update_refusal(state: &BrickState, key: u64, name: LeafName, stamp: Stamp) -> Option<Refusal>
    ensures { result ≡ update_refusal state.now key name stamp }
{
    if joins_key(&state.order, key) {
        return Some(Refusal::Lease);
    }
    if let Some(refusal) = stale_against(state.leaves.leaf_of(key), name, stamp) {
        return Some(refusal);
    }
    if state.locks.lease_covers(key) {
        return Some(Refusal::Lease);
    }
    if state.locks.holder(key).is_some() {
        return Some(Refusal::Lock);
    }
    None
}

/// Whether a pending put will bind a key under the name that isn't there.
fn is_new_under(pairs: &Table, name: LeafName, pending: &Pending) -> bool
    ensures { result ≡ is_new_under pairs.now name pending.now }
{
    let key = pending.op.key();
    is_put(pending.op.op()) && name.covers(key) && pairs.get(key).is_none()
}

fn is_put(op: &Op) -> bool
    ensures { result ≡ is_put op.now }
{
    matches!(op, Op::Put { key: _, value: _ })
}

/// How many pending puts will bind a key under the name that isn't there.
fn count_new(pairs: &Table, name: LeafName, locks: &Locks) -> usize
    ensures value { result ≡ count_by (λ p. is_new_under pairs.now name p) locks.now.pending }
    ensures within { result ≤ length locks.now.pending }
{
    let mut count = 0;
    for pending in locks.pending() {
        if is_new_under(pairs, name, pending) {
            count += 1;
        }
    }
    count
}

/// Whether the pairs under a leaf's name and those that its pending puts will add are the limit together.
fn is_full(state: &BrickState, leaf: &Leaf) -> bool
    ensures { result ≡ is_full state.now leaf.now }
{
    let there = state.pairs.count_under(leaf.name);
    let coming = count_new(&state.pairs, leaf.name, &state.locks);
    coming <= PAIRS && there == PAIRS - coming
}

/// Whether a put of a key that isn't there finds its partition full.
fn has_no_room(state: &BrickState, op: &Op) -> bool
    ensures { result ≡ has_no_room state.now op.now }
{
    if !is_put(op) || state.pairs.get(op.key()).is_some() {
        return false;
    }
    match state.leaves.leaf_of(op.key()) {
        Some(leaf) => is_full(state, leaf),
        None => false,
    }
}

/// Why a brick votes no, if it does.
pub fn update_denial(state: &BrickState, op: &Op, name: LeafName, stamp: Stamp) -> Option<Denial>
    ensures { result ≡ update_denial state.now op.now name stamp }
{
    if let Some(refusal) = update_refusal(state, op.key(), name, stamp) {
        return Some(Denial::Refused(refusal));
    }
    if has_no_room(state, op) {
        return Some(Denial::Full);
    }
    None
}

/// Whether the brick has a leaf of this name, and of this stamp where one is asked.
fn is_found(own: Option<&Leaf>, stamp: Option<Stamp>) -> bool
    ensures { result ≡ is_found stamp (option_copied own.entry) }
{
    match (own, stamp) {
        (None, _) => false,
        (Some(_), None) => true,
        (Some(leaf), Some(stamp)) => same_stamp(&leaf.stamp, &stamp),
    }
}

/// Why a lease of a name, or of a leaf of that name with this stamp, is refused, if it is.
pub fn lease_refusal(state: &BrickState, name: LeafName, stamp: Option<Stamp>) -> Option<Refusal>
    ensures { result ≡ lease_refusal state.now name stamp }
{
    if joins_over(&state.order, name) {
        return Some(Refusal::Lease);
    }
    if !is_found(state.leaves.named(name), stamp) {
        let leaf = state.leaves.leaf_of(u64::from(name.bits())).copied();
        return Some(Refusal::Stale { leaf });
    }
    if state.locks.leased(name).is_some() {
        return Some(Refusal::Lease);
    }
    if state.locks.any_under(name) {
        return Some(Refusal::Lock);
    }
    None
}
