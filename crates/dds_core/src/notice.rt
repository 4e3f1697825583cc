//! The five parts of a notice at a brick, in their order: a node has stopped.

ghost use Rattle.std.specs.Prelude.{◌≡◌, ◌==◌, ◌&&◌, ◌||◌, [], ◌∷◌, ◌++◌, IfOk, OnOk, Some, None, length, not};
ghost use Rattle.dds_states.specs.declared.brick_state.OrderPhase.TheVariants.{Leasing, Installing};
ghost use Rattle.dds_base.specs.BrickList.{has};
ghost use Rattle.dds_base.specs.NodeSet.{has_node};
ghost use Rattle.dds_brick_rows.specs.Resolution.{before, is_resolved};
ghost use Rattle.dds_core.specs.Notice.{learns, is_lost, concerns_in, concerns, concerns_some, copies_again, order_goes, order_part};
ghost use Rattle.dds_core.specs.Notice.{resolving_part, asked_again, asked_all_again, deferred_part, helped_by, pending_goes, numbered};
ghost use Rattle.dds_core.specs.Notice.{pendings_go, pending_part, notice_row};

use dds_base::brick_list::BrickList;
use dds_base::items::Items;
use dds_base::leaf::Leaf;
use dds_base::memory::Memory;
use dds_base::number::{NodeNo, TxnNo};
use dds_base::op::OrderReply;
use dds_base::pending::Pending;
use dds_brick_rows::resolution::{News, all_hear, help_row, is_resolved, query_row, resolve};
use dds_letters::letter::Letter;
use dds_order_rows::finishing::ends;
use dds_order_rows::going_on::{copies, installs_on, leases_on};
use dds_states::brick_state::{BrickState, Deferred, OpenOrder, OrderPhase, Question, Task};
use dds_states::nodes::{has, members, unknown_members, without};
use dds_states::turn::CoreTurn;
use std::alloc::Global;

/// Knows the node, and drops its leases.
fn learns(state: &mut BrickState, node: NodeNo)
    ensures { state.new ≡ learns state.old node }
{
    state.known.add(node);
    state.locks.release_all(node);
}

/// Whether a join without a leaf has lost its one way in.
fn is_lost(order: &OpenOrder, node: NodeNo) -> bool
    ensures { result ≡ is_lost order.now node order.now.task }
{
    match order.task {
        Task::Join { via } => order.leaf.is_none() && via == node,
        Task::Split => false,
    }
}

/// Whether a notice of the node concerns the order: it is the one way in, or waited for, or copied from.
fn concerns(order: &OpenOrder, node: NodeNo) -> bool
    ensures { result ≡ concerns node order.now }
{
    match order.phase {
        OrderPhase::Leasing => is_lost(order, node) || has(order.waiting.as_slice(), node),
        OrderPhase::Copying { source } => source == node,
        OrderPhase::Installing { made: _ } => has(order.waiting.as_slice(), node),
    }
}

fn concerns_some(order: &Option<OpenOrder>, node: NodeNo) -> bool
    ensures { result ≡ concerns_some node order.now }
{
    match order {
        None => false,
        Some(order) => concerns(order, node),
    }
}

fn copies_again(alloc: Global, state: &mut BrickState, order: OpenOrder) -> Result<CoreTurn, Memory>
    ensures state { OnOk result (state.new ≡ (copies_again state.old order order.leaf).state) }
    ensures out { IfOk result (λ turn. turn ≡ (copies_again state.old order order.leaf).out) }
{
    let leaf = order.leaf;
    match leaf {
        Some(leaf) => copies(alloc, state, order, &leaf),
        None => {
            state.order = Some(order);
            Ok(CoreTurn::new(alloc))
        }
    }
}

fn lease_without(
    alloc: Global,
    state: &mut BrickState,
    mut order: OpenOrder,
    node: NodeNo,
) -> Result<CoreTurn, Memory>
    ensures state { OnOk result (state.new ≡ (order_goes state.old order node Leasing).state) }
    ensures out { IfOk result (λ turn. turn ≡ (order_goes state.old order node Leasing).out) }
{
    if is_lost(&order, node) {
        return ends(alloc, state, order, OrderReply::NoSource);
    }
    order.waiting = without(alloc, order.waiting.as_slice(), node)?;
    leases_on(alloc, state, order)
}

fn install_without(
    alloc: Global,
    state: &mut BrickState,
    mut order: OpenOrder,
    node: NodeNo,
    made: Leaf,
) -> Result<CoreTurn, Memory>
    ensures state { OnOk result (state.new ≡ (order_goes state.old order node (Installing made)).state) }
    ensures out { IfOk result (λ turn. turn ≡ (order_goes state.old order node (Installing made)).out) }
{
    order.waiting = without(alloc, order.waiting.as_slice(), node)?;
    installs_on(alloc, state, order, &made)
}

/// The order goes on without the node.
fn order_goes(
    alloc: Global,
    state: &mut BrickState,
    order: OpenOrder,
    node: NodeNo,
) -> Result<CoreTurn, Memory>
    ensures state { OnOk result (state.new ≡ (order_goes state.old order node order.phase).state) }
    ensures out { IfOk result (λ turn. turn ≡ (order_goes state.old order node order.phase).out) }
{
    let phase = order.phase;
    match phase {
        OrderPhase::Leasing => lease_without(alloc, state, order, node),
        OrderPhase::Copying { source: _ } => copies_again(alloc, state, order),
        OrderPhase::Installing { made } => install_without(alloc, state, order, node, made),
    }
}

/// The open order goes on without the node, where the notice concerns it.
fn order_part(alloc: Global, state: &mut BrickState, node: NodeNo) -> Result<CoreTurn, Memory>
    ensures state { OnOk result (state.new ≡ (order_part state.old node).state) }
    ensures out { IfOk result (λ turn. turn ≡ (order_part state.old node).out) }
{
    if !concerns_some(&state.order, node) {
        return Ok(CoreTurn::new(alloc));
    }
    let Some(order) = state.order.take() else {
        return Ok(CoreTurn::new(alloc));
    };
    order_goes(alloc, state, order, node)
}

/// Each resolving goes on without the node.
fn resolving_part(alloc: Global, state: &mut BrickState, node: NodeNo) -> Result<CoreTurn, Memory>
    ensures state { OnOk result (state.new ≡ (resolving_part state.old node).state) }
    ensures out { IfOk result (λ turn. turn ≡ (resolving_part state.old node).out) }
{
    all_hear(alloc, state, node, &News::Stopped)
}

/// A deferred letter is handled, and deferred again where it isn't ready.
fn asked_again(
    alloc: Global,
    state: &mut BrickState,
    deferred: &Deferred,
) -> Result<CoreTurn, Memory>
    ensures state { OnOk result (state.new ≡ (asked_again state.old deferred.now deferred.now.question).state) }
    ensures out { IfOk result (λ turn. turn ≡ (asked_again state.old deferred.now deferred.now.question).out) }
{
    let Deferred {
        from,
        question,
        txn,
        list,
    } = deferred;
    match question {
        Question::Help => help_row(alloc, state, *from, *txn, list),
        Question::Query => query_row(alloc, state, *from, *txn, list),
    }
}

fn asked_all_again(
    alloc: Global,
    state: &mut BrickState,
    deferred: Items<Deferred>,
) -> Result<CoreTurn, Memory>
    ensures state { OnOk result (state.new ≡ (asked_all_again state.old deferred).state) }
    ensures out { IfOk result (λ turn. turn ≡ (asked_all_again state.old deferred).out) }
{
    let mut turn = CoreTurn::new(alloc);
    for letter in deferred.into_vec() {
        let next = asked_again(alloc, state, &letter)?;
        turn = turn.with(next)?;
    }
    Ok(turn)
}

/// Each deferred letter is handled.
fn deferred_part(alloc: Global, state: &mut BrickState) -> Result<CoreTurn, Memory>
    ensures state { OnOk result (state.new ≡ (deferred_part state.old).state) }
    ensures out { IfOk result (λ turn. turn ≡ (deferred_part state.old).out) }
{
    let deferred = std::mem::replace(&mut state.deferred, Items::new(alloc));
    asked_all_again(alloc, state, deferred)
}

/// Whether the node is a member before another one.
fn is_before(list: &[NodeNo], other: NodeNo, node: NodeNo) -> bool
    ensures { result ≡ has (before list.now other) node }
{
    for member in list {
        if *member == other {
            return false;
        }
        if *member == node {
            return true;
        }
    }
    false
}

/// A transaction is resolved here where the first of these members is this brick, or that one is told to resolve it.
fn helped_by(
    alloc: Global,
    state: &mut BrickState,
    node: NodeNo,
    txn: TxnNo,
    list: &BrickList,
    live: &[NodeNo],
) -> Result<CoreTurn, Memory>
    ensures state { OnOk result (state.new ≡ (helped_by state.old node txn list.now live.now).state) }
    ensures out { IfOk result (λ turn. turn ≡ (helped_by state.old node txn list.now live.now).out) }
{
    let Some(first) = live.first().copied() else {
        return Ok(CoreTurn::new(alloc));
    };
    if first == state.number {
        return resolve(alloc, state, txn, list);
    }
    if !has_become_first(alloc, node, txn, list, first)? {
        return Ok(CoreTurn::new(alloc));
    }
    CoreTurn::letter(alloc, first, Letter::Help { txn, list: *list })
}

/// Whether the node's notice made a member the first of those that aren't known to have stopped.
fn has_become_first(
    alloc: Global,
    node: NodeNo,
    txn: TxnNo,
    list: &BrickList,
    first: NodeNo,
) -> Result<bool, Memory>
    ensures { IfOk result (λ first_now. first_now ≡ (node == txn.library || has (before list.now first) node)) }
{
    let list = members(alloc, list)?;
    Ok(node == txn.library() || is_before(list.as_slice(), first, node))
}

/// One pending transaction goes on.
fn pending_goes(
    alloc: Global,
    state: &mut BrickState,
    node: NodeNo,
    txn: TxnNo,
    list: &BrickList,
) -> Result<CoreTurn, Memory>
    ensures state { OnOk result (state.new ≡ (pending_goes state.old node txn list.now).state) }
    ensures out { IfOk result (λ turn. turn ≡ (pending_goes state.old node txn list.now).out) }
{
    if !is_stuck(state, txn) {
        return Ok(CoreTurn::new(alloc));
    }
    let live = unknown_members(alloc, list, &state.known)?;
    helped_by(alloc, state, node, txn, list, live.as_slice())
}

/// Whether a transaction's library is known to have stopped, and it isn't being resolved here.
fn is_stuck(state: &BrickState, txn: TxnNo) -> bool
    ensures { result ≡ (has_node state.now.known txn.library && not (is_resolved state.now txn)) }
{
    state.known.has(txn.library()) && !is_resolved(state, txn)
}

/// The pending transactions with their members.
fn numbered(alloc: Global, pending: &[Pending]) -> Result<Vec<(TxnNo, BrickList)>, Memory>
    ensures { IfOk result (λ list. list.items ≡ numbered pending.now) }
{
    let mut list = Vec::new(alloc);
    for p in pending {
        list.push((p.txn, p.list))?;
    }
    Ok(list)
}

fn pendings_go(
    alloc: Global,
    state: &mut BrickState,
    node: NodeNo,
    pending: Vec<(TxnNo, BrickList)>,
) -> Result<CoreTurn, Memory>
    ensures state { OnOk result (state.new ≡ (pendings_go state.old node pending.items).state) }
    ensures out { IfOk result (λ turn. turn ≡ (pendings_go state.old node pending.items).out) }
{
    let mut turn = CoreTurn::new(alloc);
    for (txn, list) in pending {
        let next = pending_goes(alloc, state, node, txn, &list)?;
        turn = turn.with(next)?;
    }
    Ok(turn)
}

/// Each pending transaction whose library has stopped goes on.
fn pending_part(alloc: Global, state: &mut BrickState, node: NodeNo) -> Result<CoreTurn, Memory>
    ensures state { OnOk result (state.new ≡ (pending_part state.old node).state) }
    ensures out { IfOk result (λ turn. turn ≡ (pending_part state.old node).out) }
{
    let pending = numbered(alloc, state.locks.pending())?;
    pendings_go(alloc, state, node, pending)
}

/// A node has stopped: it is known, and the order, the resolvings, the deferred letters and the pending transactions
/// go on without it.
pub fn notice_row(alloc: Global, state: &mut BrickState, node: NodeNo) -> Result<CoreTurn, Memory>
    ensures state { OnOk result (state.new ≡ (notice_row state.old node).state) }
    ensures out { IfOk result (λ turn. turn ≡ (notice_row state.old node).out) }
{
    learns(state, node);
    let turn = order_part(alloc, state, node)?;
    let next = resolving_part(alloc, state, node)?;
    let turn = turn.with(next)?;
    let next = deferred_part(alloc, state)?;
    let turn = turn.with(next)?;
    let next = pending_part(alloc, state, node)?;
    turn.with(next)
}
