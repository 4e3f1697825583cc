//! What letters do to an open order of this brick.

ghost use Rattle.std.specs.Prelude.{◌≡◌, ◌==◌, ◌&&◌, ◌+◌, [], ◌∷◌, ◌++◌, IfOk, OnOk, Some, None, length, nat_le, not, IsTrue};
ghost use Rattle.std.specs.List.{list_all};
ghost use Rattle.dds_base.specs.Name.{covers};
ghost use Rattle.dds_base.specs.Place.{last_key};
ghost use Rattle.dds_order_rows.specs.OwnOrder.{fixes, fixed, widened, granted_join, is_leasing, takes_grant, grants, is_at, with_order};
ghost use Rattle.dds_order_rows.specs.OwnOrder.{at_order, with_grant, granted_row, met_of, lease_refused_row, starts_after, fits};
ghost use Rattle.dds_order_rows.specs.OwnOrder.{copied_all, copied_on, is_source, copy_part_row, installed_in, is_installing};
ghost use Rattle.dds_order_rows.specs.OwnOrder.{installed_row};

use crate::finishing::{ends, is_join};
use crate::going_on::{installs, installs_on, leases_on};
use crate::own_order::{ask_others, is_worn};
use dds_base::brick_list::MEMBERS;
use dds_base::leaf::Leaf;
use dds_base::memory::Memory;
use dds_base::name::LeafName;
use dds_base::number::NodeNo;
use dds_base::op::{Met, OrderReply};
use dds_base::pair::{Pair, PairList};
use dds_base::place::is_after;
use dds_brick_rows::refusal::PAIRS;
use dds_groups::live::live;
use dds_groups::order::same_name;
use dds_groups::successor;
use dds_letters::letter::Letter;
use dds_letters::refusal::Refusal;
use dds_states::brick_state::{BrickState, OpenOrder, OrderPhase, Task};
use dds_states::nodes::{copy, unknown_others, without};
use dds_states::turn::CoreTurn;
use std::alloc::Global;

fn is_leasing(phase: &OrderPhase) -> bool
    ensures { result ≡ is_leasing phase.now }
{
    matches!(phase, OrderPhase::Leasing)
}

/// Whether the order takes a grant of this leaf.
fn takes_grant(me: NodeNo, leaf: &Leaf, order: &OpenOrder) -> bool
    ensures { result ≡ takes_grant me leaf.now order.now }
{
    is_leasing(&order.phase)
        && (!is_join(&order.task)
            || (same_name(&leaf.name, &order.name) && !successor::has(&leaf.list, me.number())))
}

/// Whether an order of this number is open, which takes a grant of this leaf.
fn grant_is_taken(order: &Option<OpenOrder>, number: u64, me: NodeNo, leaf: &Leaf) -> bool
    ensures { result ≡ is_at number (takes_grant me leaf.now) order.now }
{
    match order {
        None => false,
        Some(order) => order.number == number && takes_grant(me, leaf, order),
    }
}

/// The order with its leaf, which asks every other member.
fn widened(
    alloc: Global,
    state: &BrickState,
    mut order: OpenOrder,
    from: NodeNo,
    leaf: &Leaf,
) -> Result<OpenOrder, Memory>
    ensures { IfOk result (λ wide. wide ≡ widened state.now order from leaf.now) }
{
    let others = unknown_others(alloc, &leaf.list, from, &state.known)?;
    order.leaf = Some(*leaf);
    order.waiting.append(copy(alloc, others.as_slice())?)?;
    order.asked.append(others)?;
    Ok(order)
}

/// A join's first lease fixes its leaf, unless that is worn or its group is full, and it asks every other member.
fn fixes(
    alloc: Global,
    state: &mut BrickState,
    order: OpenOrder,
    from: NodeNo,
    leaf: &Leaf,
) -> Result<CoreTurn, Memory>
    ensures state { OnOk result (state.new ≡ (fixes state.old order from leaf.now).state) }
    ensures out { IfOk result (λ turn. turn ≡ (fixes state.old order from leaf.now).out) }
{
    if is_worn(leaf) {
        return ends(alloc, state, order, OrderReply::Worn);
    }
    if live(&leaf.list, &state.known).len() >= MEMBERS {
        return ends(alloc, state, order, OrderReply::GroupFull);
    }
    fixed(alloc, state, order, from, leaf)
}

fn fixed(
    alloc: Global,
    state: &mut BrickState,
    order: OpenOrder,
    from: NodeNo,
    leaf: &Leaf,
) -> Result<CoreTurn, Memory>
    ensures state { OnOk result (state.new ≡ (fixed state.old order from leaf.now).state) }
    ensures out { IfOk result (λ turn. turn ≡ (fixed state.old order from leaf.now).out) }
{
    let letters = ask_others(alloc, state, order.number, leaf, from)?;
    let order = widened(alloc, state, order, from, leaf)?;
    let next = leases_on(alloc, state, order)?;
    CoreTurn::letters(alloc, letters).with(next)
}

/// Goes on after a grant.
fn grants(
    alloc: Global,
    state: &mut BrickState,
    order: OpenOrder,
    from: NodeNo,
    leaf: &Leaf,
) -> Result<CoreTurn, Memory>
    ensures state { OnOk result (state.new ≡ (grants state.old order from leaf.now order.task).state) }
    ensures out { IfOk result (λ turn. turn ≡ (grants state.old order from leaf.now order.task).out) }
{
    let (task, fixed) = (order.task, order.leaf);
    match task {
        Task::Split => leases_on(alloc, state, order),
        Task::Join { via: _ } => match fixed {
            None => fixes(alloc, state, order, from, leaf),
            Some(_) => leases_on(alloc, state, order),
        },
    }
}

/// A member gave its lease.
pub fn granted_row(
    alloc: Global,
    state: &mut BrickState,
    from: NodeNo,
    number: u64,
    leaf: &Leaf,
) -> Result<CoreTurn, Memory>
    ensures state { OnOk result (state.new ≡ (granted_row state.old from number leaf.now).state) }
    ensures out { IfOk result (λ turn. turn ≡ (granted_row state.old from number leaf.now).out) }
{
    if !grant_is_taken(&state.order, number, state.number, leaf) {
        return Ok(CoreTurn::new(alloc));
    }
    let Some(mut order) = state.order.take() else {
        return Ok(CoreTurn::new(alloc));
    };
    order.waiting = without(alloc, order.waiting.as_slice(), from)?;
    order.granted.push(from)?;
    grants(alloc, state, order, from, leaf)
}

fn is_leasing_at(order: &Option<OpenOrder>, number: u64) -> bool
    ensures { result ≡ is_at number (λ o. is_leasing o.phase) order.now }
{
    match order {
        None => false,
        Some(order) => order.number == number && is_leasing(&order.phase),
    }
}

/// What an order met at a member.
fn met_of(refusal: &Refusal, brick: NodeNo) -> Met
    ensures { result ≡ met_of refusal.now brick }
{
    match refusal {
        Refusal::Lease => Met::Lease { brick },
        Refusal::Lock => Met::Lock { brick },
        Refusal::Stale { leaf: _ } => Met::Stale { brick },
    }
}

/// A member refused its lease: the order ends.
pub fn lease_refused_row(
    alloc: Global,
    state: &mut BrickState,
    from: NodeNo,
    number: u64,
    refusal: &Refusal,
) -> Result<CoreTurn, Memory>
    ensures state { OnOk result (state.new ≡ (lease_refused_row state.old from number refusal.now).state) }
    ensures out { IfOk result (λ turn. turn ≡ (lease_refused_row state.old from number refusal.now).out) }
{
    if !is_leasing_at(&state.order, number) {
        return Ok(CoreTurn::new(alloc));
    }
    let Some(order) = state.order.take() else {
        return Ok(CoreTurn::new(alloc));
    };
    ends(
        alloc,
        state,
        order,
        OrderReply::Refused(met_of(refusal, from)),
    )
}

fn is_installing_at(order: &Option<OpenOrder>, number: u64) -> bool
    ensures { result ≡ is_at number (λ o. is_installing o.phase) order.now }
{
    match order {
        None => false,
        Some(order) => {
            order.number == number && matches!(order.phase, OrderPhase::Installing { made: _ })
        }
    }
}

/// A member serves the leaf that was made.
pub fn installed_row(
    alloc: Global,
    state: &mut BrickState,
    from: NodeNo,
    number: u64,
) -> Result<CoreTurn, Memory>
    ensures state { OnOk result (state.new ≡ (installed_row state.old from number).state) }
    ensures out { IfOk result (λ turn. turn ≡ (installed_row state.old from number).out) }
{
    if !is_installing_at(&state.order, number) {
        return Ok(CoreTurn::new(alloc));
    }
    let Some(mut order) = state.order.take() else {
        return Ok(CoreTurn::new(alloc));
    };
    let phase = order.phase;
    order.waiting = without(alloc, order.waiting.as_slice(), from)?;
    installed_in(alloc, state, order, phase)
}

fn installed_in(
    alloc: Global,
    state: &mut BrickState,
    order: OpenOrder,
    phase: OrderPhase,
) -> Result<CoreTurn, Memory>
    requires { IsTrue (is_installing phase) }
    ensures state { OnOk result (state.new ≡ (installed_in state.old order phase).state) }
    ensures out { IfOk result (λ turn. turn ≡ (installed_in state.old order phase).out) }
{
    match phase {
        OrderPhase::Installing { made } => installs_on(alloc, state, order, &made),
        _ => Ok(CoreTurn::new(alloc)),
    }
}

/// Whether the pairs are the name's, their places are after the last one copied, and there is room for them.
fn fits(order: &OpenOrder, pairs: &[Pair]) -> bool
    ensures { result ≡ fits order.now pairs.now }
{
    are_under(order.name, pairs)
        && starts_after(last_key(order.copied.as_slice()), pairs)
        && has_room(order.copied.len(), pairs.len())
}

/// Whether all keys lie under the name.
fn are_under(name: LeafName, pairs: &[Pair]) -> bool
    ensures { result ≡ list_all (λ p. covers name p.key) pairs.now }
{
    pairs.iter().all(|pair| name.covers(pair.key))
}

/// Whether there is room for more pairs.
fn has_room(copied: usize, more: usize) -> bool
    ensures { result ≡ nat_le (copied + more) PAIRS }
{
    copied <= PAIRS && more <= PAIRS - copied
}

fn starts_after(last: Option<u64>, pairs: &[Pair]) -> bool
    ensures { result ≡ starts_after last pairs.now }
{
    match pairs.first() {
        None => true,
        Some(pair) => is_after(last, pair.key),
    }
}

/// The key of the last pair, if there is one.
fn last_key(pairs: &[Pair]) -> Option<u64>
    ensures { result ≡ last_key None pairs.now }
{
    let mut last = None;
    for pair in pairs {
        last = Some(pair.key);
    }
    last
}

fn is_source(from: NodeNo, phase: &OrderPhase) -> bool
    ensures { result ≡ is_source from phase.now }
{
    match phase {
        OrderPhase::Copying { source } => from == *source,
        _ => false,
    }
}

/// Whether an order of this number is open, which takes these pairs.
fn copy_is_taken(order: &Option<OpenOrder>, number: u64, from: NodeNo, pairs: &[Pair]) -> bool
    ensures { result ≡ is_at number (λ o. is_source from o.phase && fits o pairs.now) order.now }
{
    match order {
        None => false,
        Some(order) => {
            order.number == number && is_source(from, &order.phase) && fits(order, pairs)
        }
    }
}

/// Asks for the pairs after those that were copied, or installs the leaf behind the last ones.
fn copied_on(
    alloc: Global,
    state: &mut BrickState,
    order: OpenOrder,
    source: NodeNo,
    last: bool,
) -> Result<CoreTurn, Memory>
    ensures state { OnOk result (state.new ≡ (copied_on state.old order source last).state) }
    ensures out { IfOk result (λ turn. turn ≡ (copied_on state.old order source last).out) }
{
    if last {
        return copied_all(alloc, state, order);
    }
    let ask = Letter::CopyAsk {
        order: order.number,
        name: order.name,
        after: last_key(order.copied.as_slice()),
    };
    state.order = Some(order);
    CoreTurn::letter(alloc, source, ask)
}

fn copied_all(alloc: Global, state: &mut BrickState, order: OpenOrder) -> Result<CoreTurn, Memory>
    ensures state { OnOk result (state.new ≡ (copied_all state.old order order.leaf).state) }
    ensures out { IfOk result (λ turn. turn ≡ (copied_all state.old order order.leaf).out) }
{
    let leaf = order.leaf;
    match leaf {
        Some(leaf) => installs(alloc, state, order, &leaf),
        None => {
            state.order = Some(order);
            Ok(CoreTurn::new(alloc))
        }
    }
}

/// The order with these pairs behind those that it has copied.
fn extend(mut order: OpenOrder, pairs: &[Pair]) -> Result<OpenOrder, Memory>
    ensures { IfOk result (λ longer. longer ≡ record order { copied = order.copied ++ pairs.now }) }
{
    for pair in pairs {
        order.copied.push(pair.copy()?)?;
    }
    Ok(order)
}

/// The source's next pairs came.
pub fn copy_part_row(
    alloc: Global,
    state: &mut BrickState,
    from: NodeNo,
    number: u64,
    last: bool,
    pairs: &[Pair],
) -> Result<CoreTurn, Memory>
    ensures state { OnOk result (state.new ≡ (copy_part_row state.old from number last pairs.now).state) }
    ensures out { IfOk result (λ turn. turn ≡ (copy_part_row state.old from number last pairs.now).out) }
{
    if !copy_is_taken(&state.order, number, from, pairs) {
        return Ok(CoreTurn::new(alloc));
    }
    let Some(order) = state.order.take() else {
        return Ok(CoreTurn::new(alloc));
    };
    let order = extend(order, pairs)?;
    copied_on(alloc, state, order, from, last)
}
