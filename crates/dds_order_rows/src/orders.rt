//! What a brick does for the orders of other bricks.

ghost use Rattle.std.specs.Prelude.{◌≡◌, [], ◌∷◌, ◌++◌, ◌≤◌, IfOk, OnOk, Some, None, take, length, option_copied};
ghost use Rattle.std.specs.FinMap.{get};
ghost use Rattle.dds_brick_rows.specs.Refusal.{lease_refusal};
ghost use Rattle.dds_order_rows.specs.Orders.{lease_answered, lease_row, release_row, releasing, leasing, place_for, placed, in_order};
ghost use Rattle.dds_order_rows.specs.Orders.{pairs_after, copy_part, copy_ask_row, installed_over, install_row};

use dds_base::items::Items;
use dds_base::leaf::Leaf;
use dds_base::memory::Memory;
use dds_base::name::LeafName;
use dds_base::number::{NodeNo, Stamp};
use dds_base::pair::{Pair, PairList};
use dds_base::place::{is_after, is_before};
use dds_brick_rows::refusal::lease_refusal;
use dds_brick_rows::take::{replaced, take};
use dds_groups::successor::{has, successor};
use dds_history::table::Table;
use dds_letters::copied_pairs::{COPIED, CopiedPairs};
use dds_letters::letter::Letter;
use dds_letters::refusal::Wanted;
use dds_states::brick_state::BrickState;
use dds_states::turn::CoreTurn;
use std::alloc::Global;

/// Takes the leaf, where one is told and it may; then refuses, or gives the lease and tells the own leaf.
pub fn lease_row(
    alloc: Global,
    state: &mut BrickState,
    from: NodeNo,
    order: u64,
    what: &Wanted,
) -> Result<CoreTurn, Memory>
    ensures state { OnOk result (state.new ≡ (lease_row state.old from order what.now).state) }
    ensures out { IfOk result (λ turn. turn ≡ (lease_row state.old from order what.now).out) }
{
    match what {
        Wanted::Name(name) => lease_answered(alloc, state, from, order, *name, None),
        Wanted::Leaf(leaf) => {
            take(state, leaf)?;
            lease_answered(alloc, state, from, order, leaf.name, Some(leaf.stamp))
        }
    }
}

fn lease_answered(
    alloc: Global,
    state: &mut BrickState,
    from: NodeNo,
    order: u64,
    name: LeafName,
    stamp: Option<Stamp>,
) -> Result<CoreTurn, Memory>
    ensures state { OnOk result (state.new ≡ (lease_answered state.old from order name (lease_refusal state.old name stamp)).state) }
    ensures out { IfOk result (λ turn. turn ≡ (lease_answered state.old from order name (lease_refusal state.old name stamp)).out) }
{
    if let Some(refusal) = lease_refusal(state, name, stamp) {
        return CoreTurn::letter(alloc, from, Letter::LeaseRefused { order, refusal });
    }
    let Some(leaf) = state.leaves.named(name).copied() else {
        return Ok(CoreTurn::new(alloc));
    };
    state.locks.lease(name, from)?;
    CoreTurn::letter(alloc, from, Letter::Granted { order, leaf })
}

/// Drops the sender's lease of the name.
pub fn release_row(state: &mut BrickState, from: NodeNo, name: LeafName)
    ensures { state.new ≡ (release_row state.old from name).state }
{
    state.locks.release(name, from);
}

/// The place of a key among pairs in order of place.
fn place_for(pairs: &[Pair], key: u64) -> usize
    ensures within { result ≤ length pairs.now }
    ensures value { result ≡ place_for pairs.now key }
{
    for (place, pair) in pairs.iter().enumerate() {
        if is_before(key, pair.key) {
            return place;
        }
    }
    pairs.len()
}

/// The table's pairs under a name whose places are after that of a key, if there is one, in order of place.
fn pairs_after(
    alloc: Global,
    table: &Table,
    name: LeafName,
    after: Option<u64>,
) -> Result<PairList, Memory>
    ensures { IfOk result (λ pairs. pairs ≡ pairs_after table.now name after) }
{
    let all = table.pairs(alloc)?;
    let mut found = PairList::new(alloc);
    for pair in all.as_slice() {
        if name.covers(pair.key) && is_after(after, pair.key) {
            let place = place_for(found.as_slice(), pair.key);
            found.insert(place, pair.copy()?)?;
        }
    }
    Ok(found)
}

/// The first pairs, as many as a part takes, whose places rise.
fn first_pairs(alloc: Global, pairs: &[Pair]) -> Result<CopiedPairs, Memory>
    ensures { IfOk result (λ copied. copied ≡ take COPIED pairs.now) }
{
    let mut copied = CopiedPairs::new(alloc);
    let mut last = None;
    for place in 0..pairs.len().min(COPIED) {
        let pair = pairs[place].copy()?;
        if !is_after(last, pair.key) {
            return Err(Memory);
        }
        last = Some(pair.key);
        copied.push(pair)?;
    }
    Ok(copied)
}

/// Where the sender has the lease and the name is an own leaf's, sends the next pairs, as many as a part takes, and
/// whether none follow.
pub fn copy_ask_row(
    alloc: Global,
    state: &BrickState,
    from: NodeNo,
    order: u64,
    name: LeafName,
    after: Option<u64>,
) -> Result<CoreTurn, Memory>
    ensures { IfOk result (λ turn. turn ≡ (copy_ask_row state.now from order name after).out) }
{
    if !state.locks.is_given(name, from) || state.leaves.named(name).is_none() {
        return Ok(CoreTurn::new(alloc));
    }
    let pairs = pairs_after(alloc, &state.pairs, name, after)?;
    let last = pairs.len() <= COPIED;
    let pairs = first_pairs(alloc, pairs.as_slice())?;
    CoreTurn::letter(alloc, from, Letter::CopyPart { order, last, pairs })
}

/// Where a lease of the sender overlaps the leaf's name, the leaf lists this brick, and it comes in one step from an
/// own leaf, replaces that one and says which it was.
pub fn install_row(
    alloc: Global,
    state: &mut BrickState,
    from: NodeNo,
    order: u64,
    leaf: &Leaf,
) -> Result<CoreTurn, Memory>
    ensures state { OnOk result (state.new ≡ (install_row state.old from order leaf.now).state) }
    ensures out { IfOk result (λ turn. turn ≡ (install_row state.old from order leaf.now).out) }
{
    if state.locks.lease_of(leaf.name, from).is_none() || !has(&leaf.list, state.number.number()) {
        return Ok(CoreTurn::new(alloc));
    }
    let Some(own) = state.leaves.own_leaf(leaf.name).copied() else {
        return Ok(CoreTurn::new(alloc));
    };
    if successor(&own, leaf).is_none() {
        return Ok(CoreTurn::new(alloc));
    }
    replaced(&mut state.leaves, &own, leaf)?;
    let name = own.name;
    CoreTurn::letter(alloc, from, Letter::Installed { order, name })
}
