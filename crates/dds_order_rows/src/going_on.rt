//! How an order of this brick goes on: from its leases to its copy, and from there to the leaf that it makes.

ghost use Rattle.std.specs.Prelude.{◌≡◌, [], ◌∷◌, ◌++◌, IfOk, OnOk, Some, None, filter};
ghost use Rattle.dds_order_rows.specs.OwnOrder.{parting, takes_part, made_leaf, installs_from, installs, sources, copies_from, copies};
ghost use Rattle.dds_order_rows.specs.OwnOrder.{going_on, leases_on, leased_all, leased_all_at, installs_on};

use crate::finishing::{ends, finishes, is_join};
use dds_base::leaf::Leaf;
use dds_base::memory::Memory;
use dds_base::number::{NodeNo, Stamp};
use dds_base::op::OrderReply;
use dds_base::pair::PairList;
use dds_groups::halves::low_half;
use dds_letters::letter::Letter;
use dds_states::brick_state::{BrickState, OpenOrder, OrderPhase, Task};
use dds_states::nodes::{NodeList, group, has, to_each, unknown_members, without};
use dds_states::turn::CoreTurn;
use std::alloc::Global;

/// Whether a member takes part in the leaf that is made: it granted its lease, or is the brick itself in a split.
fn takes_part(state: &BrickState, order: &OpenOrder, node: NodeNo) -> bool
    ensures { result ≡ takes_part state.now order.now node }
{
    has(order.granted.as_slice(), node) || (!is_join(&order.task) && node == state.number)
}

/// The members of the order's leaf that take part and aren't known to have stopped.
fn parting(
    alloc: Global,
    state: &BrickState,
    order: &OpenOrder,
    leaf: &Leaf,
) -> Result<NodeList, Memory>
    ensures { IfOk result (λ list. list ≡ parting state.now order.now leaf.now) }
{
    let live = unknown_members(alloc, &leaf.list, &state.known)?;
    let mut list = NodeList::new(alloc);
    for node in live.as_slice() {
        if takes_part(state, order, *node) {
            list.push(*node)?;
        }
    }
    Ok(list)
}

/// The leaf that the order makes. It answers `Memory` too where the leaf has no successor.
fn made_leaf(
    alloc: Global,
    state: &BrickState,
    order: &OpenOrder,
    leaf: &Leaf,
) -> Result<Leaf, Memory>
    ensures { IfOk result (λ made. made ≡ made_leaf state.now order.now leaf.now order.now.task) }
{
    let mut members = parting(alloc, state, order, leaf)?;
    let epoch = leaf.epoch.checked_add(1).ok_or(Memory)?;
    let stamp = Stamp::made_by(state.number, state.made);
    match order.task {
        Task::Join { via: _ } => {
            members.push(state.number)?;
            Ok(Leaf {
                name: leaf.name,
                epoch,
                stamp,
                prev: leaf.stamp,
                list: group(alloc, members.as_slice())?,
            })
        }
        Task::Split => {
            if leaf.name.depth() >= 16 {
                return Err(Memory);
            }
            Ok(Leaf {
                name: low_half(leaf.name),
                epoch,
                stamp,
                prev: leaf.stamp,
                list: group(alloc, members.as_slice())?,
            })
        }
    }
}

/// Has the members install the leaf that was made, or finishes where there are none.
fn installs_from(
    alloc: Global,
    state: &mut BrickState,
    mut order: OpenOrder,
    made: Leaf,
    members: NodeList,
) -> Result<CoreTurn, Memory>
    ensures state { OnOk result (state.new ≡ (installs_from state.old order made members).state) }
    ensures out { IfOk result (λ turn. turn ≡ (installs_from state.old order made members).out) }
{
    if members.is_empty() {
        return finishes(alloc, state, order, &made);
    }
    let install = Letter::Install {
        order: order.number,
        leaf: made,
    };
    let letters = to_each(alloc, members.as_slice(), install)?;
    order.waiting = members;
    order.phase = OrderPhase::Installing { made };
    state.order = Some(order);
    Ok(CoreTurn::letters(alloc, letters))
}

/// Begins installing: makes the next leaf, and has the members that take part install it.
pub fn installs(
    alloc: Global,
    state: &mut BrickState,
    order: OpenOrder,
    leaf: &Leaf,
) -> Result<CoreTurn, Memory>
    ensures state { OnOk result (state.new ≡ (installs state.old order leaf.now).state) }
    ensures out { IfOk result (λ turn. turn ≡ (installs state.old order leaf.now).out) }
{
    let made = made_leaf(alloc, state, &order, leaf)?;
    let members = parting(alloc, state, &order, leaf)?;
    let members = without(alloc, members.as_slice(), state.number)?;
    state.made = state.made.checked_add(1).ok_or(Memory)?;
    installs_from(alloc, state, order, made, members)
}

/// The members of the leaf that granted their leases and aren't known to have stopped.
fn sources(
    alloc: Global,
    state: &BrickState,
    order: &OpenOrder,
    leaf: &Leaf,
) -> Result<NodeList, Memory>
    ensures { IfOk result (λ list. list ≡ sources state.now order.now leaf.now) }
{
    let live = unknown_members(alloc, &leaf.list, &state.known)?;
    let mut list = NodeList::new(alloc);
    for node in live.as_slice() {
        if has(order.granted.as_slice(), *node) {
            list.push(*node)?;
        }
    }
    Ok(list)
}

/// Copies from the first of these members, or ends where there are none.
fn copies_from(
    alloc: Global,
    state: &mut BrickState,
    mut order: OpenOrder,
    sources: &[NodeNo],
) -> Result<CoreTurn, Memory>
    ensures state { OnOk result (state.new ≡ (copies_from state.old order sources.now).state) }
    ensures out { IfOk result (λ turn. turn ≡ (copies_from state.old order sources.now).out) }
{
    let Some(source) = sources.first().copied() else {
        return ends(alloc, state, order, OrderReply::NoSource);
    };
    let ask = Letter::CopyAsk {
        order: order.number,
        name: order.name,
        after: None,
    };
    order.copied = PairList::new(alloc);
    order.phase = OrderPhase::Copying { source };
    state.order = Some(order);
    CoreTurn::letter(alloc, source, ask)
}

/// Begins copying, from the first member that it can.
pub fn copies(
    alloc: Global,
    state: &mut BrickState,
    order: OpenOrder,
    leaf: &Leaf,
) -> Result<CoreTurn, Memory>
    ensures state { OnOk result (state.new ≡ (copies state.old order leaf.now).state) }
    ensures out { IfOk result (λ turn. turn ≡ (copies state.old order leaf.now).out) }
{
    let sources = sources(alloc, state, &order, leaf)?;
    copies_from(alloc, state, order, sources.as_slice())
}

/// All leases are there: a join copies, a split installs.
fn leased_all_at(
    alloc: Global,
    state: &mut BrickState,
    order: OpenOrder,
) -> Result<CoreTurn, Memory>
    ensures state { OnOk result (state.new ≡ (leased_all_at state.old order order.leaf).state) }
    ensures out { IfOk result (λ turn. turn ≡ (leased_all_at state.old order order.leaf).out) }
{
    let (leaf, task) = (order.leaf, order.task);
    let Some(leaf) = leaf else {
        state.order = Some(order);
        return Ok(CoreTurn::new(alloc));
    };
    match task {
        Task::Join { via: _ } => copies(alloc, state, order, &leaf),
        Task::Split => installs(alloc, state, order, &leaf),
    }
}

/// Goes on where no lease is waited for any more.
pub fn leases_on(
    alloc: Global,
    state: &mut BrickState,
    order: OpenOrder,
) -> Result<CoreTurn, Memory>
    ensures state { OnOk result (state.new ≡ (leases_on state.old order).state) }
    ensures out { IfOk result (λ turn. turn ≡ (leases_on state.old order).out) }
{
    if order.waiting.is_empty() {
        return leased_all_at(alloc, state, order);
    }
    state.order = Some(order);
    Ok(CoreTurn::new(alloc))
}

/// Goes on where no member is waited for any more that is to install the leaf.
pub fn installs_on(
    alloc: Global,
    state: &mut BrickState,
    order: OpenOrder,
    made: &Leaf,
) -> Result<CoreTurn, Memory>
    ensures state { OnOk result (state.new ≡ (installs_on state.old order made.now).state) }
    ensures out { IfOk result (λ turn. turn ≡ (installs_on state.old order made.now).out) }
{
    if order.waiting.is_empty() {
        return finishes(alloc, state, order, made);
    }
    state.order = Some(order);
    Ok(CoreTurn::new(alloc))
}
