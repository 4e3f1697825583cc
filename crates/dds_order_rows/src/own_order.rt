//! What an order of this brick does, and what letters do to it.

ghost use Rattle.std.specs.Prelude.{◌≡◌, ◌==◌, ◌&&◌, ◌||◌, [], ◌∷◌, ◌++◌, IfOk, OnOk, Some, None, length, nat_le};
ghost use Rattle.std.specs.List.{list_all, list_any};
ghost use Rattle.dds_base.specs.Name.{overlaps};
ghost use Rattle.dds_base.specs.NodeSet.{has_node};
ghost use Rattle.std.specs.FinMap as map;
ghost use Rattle.dds_base.specs.Place.{last_key};
ghost use Rattle.dds_locks.specs.Leases.{leased};
ghost use Rattle.dds_letters.specs.declared.letter.Letter.TheVariants as letter;
ghost use Rattle.dds_letters.specs.declared.refusal.Wanted.TheVariants as wanted;
ghost use Rattle.dds_states.specs.Turn.{to_each, unknown_others};
ghost use Rattle.dds_states.specs.declared.brick_state.OrderPhase.TheVariants.{Leasing};
ghost use Rattle.dds_order_rows.specs.OwnOrder.{join_order, split_order, split_opens, new_split, split_named, split_leaf, opens, is_worn};

use crate::finishing::{answer, ends};
use crate::going_on::{installs, installs_on, leases_on};
use dds_base::leaf::Leaf;
use dds_base::memory::Memory;
use dds_base::name::LeafName;
use dds_base::number::NodeNo;
use dds_base::op::{Met, OrderReply};
use dds_base::pair::{Pair, PairList};
use dds_base::place::is_after;
use dds_groups::live::live;
use dds_groups::successor::has;
use dds_letters::letter::Letter;
use dds_letters::outbox::Outbox;
use dds_letters::refusal::{Refusal, Wanted};
use dds_maps::maps::Maps;
use dds_states::brick_state::{BrickState, OpenOrder, OrderPhase, Task};
use dds_states::nodes::{NodeList, copy, to_each, unknown_others, without};
use dds_states::turn::CoreTurn;
use std::alloc::Global;

/// A new order, which waits for the leases that it asks for.
fn open(
    alloc: Global,
    number: u64,
    task: Task,
    name: LeafName,
    leaf: Option<Leaf>,
    asked: NodeList,
) -> Result<OpenOrder, Memory>
    ensures { IfOk result
        (λ order. order
        ≡ record { number = number; task = task; name = name; leaf = leaf; asked = asked; granted = []; waiting = asked; copied = []; phase = Leasing }) }
{
    let waiting = copy(alloc, asked.as_slice())?;
    Ok(OpenOrder {
        number,
        task,
        name,
        leaf,
        asked,
        granted: NodeList::new(alloc),
        waiting,
        copied: PairList::new(alloc),
        phase: OrderPhase::Leasing,
    })
}

/// Whether the leaf has no successor: it has the last epoch but two.
pub fn is_worn(leaf: &Leaf) -> bool
    ensures { result ≡ is_worn leaf.now }
{
    leaf.epoch >= u64::MAX - 1
}

/// Whether some leaf's name overlaps the name.
fn overlaps_own(leaves: &Maps, name: LeafName) -> bool
    ensures { result ≡ list_any (λ other. overlaps other name) (map.keys leaves.now) }
{
    leaves.overlapping(name)
}

/// Whether a brick can't be the first source of a copy: it is this one, or is known to have stopped.
fn is_no_source(state: &BrickState, via: NodeNo) -> bool
    ensures { result ≡ (via == state.now.number || has_node state.now.known via) }
{
    via == state.number || state.known.has(via)
}

/// The order to join: refused by the first reason that holds, or asks `via` for a lease of the name.
pub fn join_order(
    alloc: Global,
    state: &mut BrickState,
    name: LeafName,
    via: NodeNo,
) -> Result<CoreTurn, Memory>
    ensures state { OnOk result (state.new ≡ (join_order state.old name via).state) }
    ensures out { IfOk result (λ turn. turn ≡ (join_order state.old name via).out) }
{
    if state.stopped {
        return answer(alloc, OrderReply::Stopped);
    }
    if state.order.is_some() {
        return answer(alloc, OrderReply::OrderOpen);
    }
    if overlaps_own(&state.leaves, name) {
        return answer(alloc, OrderReply::AlreadyThere);
    }
    if is_no_source(state, via) {
        return answer(alloc, OrderReply::NoSource);
    }
    let number = state.orders;
    let mut asked = NodeList::new(alloc);
    asked.push(via)?;
    let order = open(alloc, number, Task::Join { via }, name, None, asked)?;
    state.orders = number.checked_add(1).ok_or(Memory)?;
    state.order = Some(order);
    let ask = Letter::Lease {
        order: number,
        what: Wanted::Name(name),
    };
    CoreTurn::letter(alloc, via, ask)
}

/// The request for leases to every other member of a leaf.
pub fn ask_others(
    alloc: Global,
    state: &BrickState,
    number: u64,
    leaf: &Leaf,
    me: NodeNo,
) -> Result<Outbox, Memory>
    ensures { IfOk result
        (λ letters. letters
        ≡ to_each (unknown_others leaf.now.list me state.now.known) (letter.Lease number (wanted.Leaf leaf.now))) }
{
    let asked = unknown_others(alloc, &leaf.list, me, &state.known)?;
    let ask = Letter::Lease {
        order: number,
        what: Wanted::Leaf(*leaf),
    };
    to_each(alloc, asked.as_slice(), ask)
}

/// The open order of a split.
fn new_split(alloc: Global, state: &BrickState, leaf: Leaf) -> Result<OpenOrder, Memory>
    ensures { IfOk result (λ order. order ≡ new_split state.now leaf) }
{
    let asked = unknown_others(alloc, &leaf.list, state.number, &state.known)?;
    open(
        alloc,
        state.orders,
        Task::Split,
        leaf.name,
        Some(leaf),
        asked,
    )
}

/// Leases the leaf to the brick itself and asks every other member.
fn split_opens(alloc: Global, state: &mut BrickState, leaf: Leaf) -> Result<CoreTurn, Memory>
    requires { leased state.old.locks.leases leaf.name ≡ None }
    ensures state { OnOk result (state.new ≡ (split_opens state.old leaf).state) }
    ensures out { IfOk result (λ turn. turn ≡ (split_opens state.old leaf).out) }
{
    let letters = ask_others(alloc, state, state.orders, &leaf, state.number)?;
    let order = new_split(alloc, state, leaf)?;
    state.locks.lease(leaf.name, state.number)?;
    state.orders = state.orders.checked_add(1).ok_or(Memory)?;
    let next = leases_on(alloc, state, order)?;
    CoreTurn::letters(alloc, letters).with(next)
}

/// The order to split: refused by the first reason that holds.
pub fn split_order(
    alloc: Global,
    state: &mut BrickState,
    name: LeafName,
) -> Result<CoreTurn, Memory>
    ensures state { OnOk result (state.new ≡ (split_order state.old name).state) }
    ensures out { IfOk result (λ turn. turn ≡ (split_order state.old name).out) }
{
    if state.stopped {
        return answer(alloc, OrderReply::Stopped);
    }
    if state.order.is_some() {
        return answer(alloc, OrderReply::OrderOpen);
    }
    let Some(leaf) = state.leaves.named(name).copied() else {
        return answer(alloc, OrderReply::NotServing);
    };
    split_leaf(alloc, state, leaf)
}

fn split_leaf(alloc: Global, state: &mut BrickState, leaf: Leaf) -> Result<CoreTurn, Memory>
    ensures state { OnOk result (state.new ≡ (split_leaf state.old leaf).state) }
    ensures out { IfOk result (λ turn. turn ≡ (split_leaf state.old leaf).out) }
{
    if leaf.name.depth() == 16 {
        return answer(alloc, OrderReply::Deepest);
    }
    if is_worn(&leaf) {
        return answer(alloc, OrderReply::Worn);
    }
    let brick = state.number;
    if state.locks.leased(leaf.name).is_some() {
        return answer(alloc, OrderReply::Refused(Met::Lease { brick }));
    }
    if state.locks.any_under(leaf.name) {
        return answer(alloc, OrderReply::Refused(Met::Lock { brick }));
    }
    split_opens(alloc, state, leaf)
}
