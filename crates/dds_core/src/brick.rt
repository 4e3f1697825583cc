//! What a brick does: a letter or an order.

ghost use Rattle.std.specs.Prelude.{◌≡◌, IfOk, OnOk};
ghost use Rattle.dds_core.specs.Brick.{live_brick_turn, brick_turn, brick_input};

use crate::notice::notice_row;
use dds_base::memory::Memory;
use dds_base::number::NodeNo;
use dds_base::op::Order;
use dds_base::pending::Pending;
use dds_brick_rows::calls::{abort_row, commit_row, get_row, map_ask_row, prepare_row};
use dds_brick_rows::resolution::{help_row, outcome_row, query_row, status_row};
use dds_brick_rows::take::take;
use dds_letters::letter::Letter;
use dds_order_rows::orders::{copy_ask_row, install_row, lease_row, release_row};
use dds_order_rows::own_letters::{copy_part_row, granted_row, installed_row, lease_refused_row};
use dds_order_rows::own_order::{join_order, split_order};
use dds_states::brick_state::BrickState;
use dds_states::turn::CoreTurn;
use std::alloc::Global;

/// What a letter does at a brick: nothing at a stopped one. After `Memory` nothing is said of the state.
///
/// It answers `Memory` too, and not for want of memory, where an order would take a number above 2^64 - 1, where a leaf
/// would be made by a number or an epoch above it, of no members, or as half of a name of full depth, where a split's
/// leaf of depth 0 would be served or taken, where a taken or installed leaf is neither of the own leaf's name nor a half
/// of it, and where the pairs of a copy don't rise. By reading, no run comes there; that isn't proved.
pub fn brick_turn(
    alloc: Global,
    state: &mut BrickState,
    from: NodeNo,
    letter: &Letter,
) -> Result<CoreTurn, Memory>
    ensures state { OnOk result (state.new ≡ (brick_turn state.old from letter.now).state) }
    ensures out { IfOk result (λ turn. turn ≡ (brick_turn state.old from letter.now).out) }
{
    if state.stopped {
        return Ok(CoreTurn::new(alloc));
    }
    live_brick_turn(alloc, state, from, letter)
}

fn live_brick_turn(
    alloc: Global,
    state: &mut BrickState,
    from: NodeNo,
    letter: &Letter,
) -> Result<CoreTurn, Memory>
    ensures state { OnOk result (state.new ≡ (live_brick_turn state.old from letter.now).state) }
    ensures out { IfOk result (λ turn. turn ≡ (live_brick_turn state.old from letter.now).out) }
{
    match letter {
        Letter::Get {
            txn,
            caller: _,
            call: _,
            key,
            name,
            stamp,
        } => get_row(alloc, state, from, *txn, *key, *name, *stamp),
        Letter::Prepare {
            txn,
            caller,
            call,
            below,
            name,
            stamp,
            list,
            op,
        } => {
            let pending = Pending {
                txn: *txn,
                caller: *caller,
                call: *call,
                op: op.copy()?,
                list: *list,
            };
            prepare_row(alloc, state, from, pending, *below, *name, *stamp)
        }
        Letter::Commit { txn } => commit_row(alloc, state, from, *txn),
        Letter::Abort { txn } => abort_row(alloc, state, from, *txn),
        Letter::Push { leaf } => {
            take(state, leaf)?;
            Ok(CoreTurn::new(alloc))
        }
        Letter::MapAsk {
            txn,
            caller: _,
            call: _,
            key,
        } => map_ask_row(alloc, state, from, *txn, *key),
        Letter::Help { txn, list } => help_row(alloc, state, from, *txn, list),
        Letter::Query { txn, list } => query_row(alloc, state, from, *txn, list),
        Letter::Status { txn, status: told } => status_row(alloc, state, from, *txn, *told),
        Letter::Outcome { txn, commit } => outcome_row(alloc, state, *txn, *commit),
        Letter::Lease { order, what } => lease_row(alloc, state, from, *order, what),
        Letter::Granted { order, leaf } => granted_row(alloc, state, from, *order, leaf),
        Letter::LeaseRefused { order, refusal } => {
            lease_refused_row(alloc, state, from, *order, refusal)
        }
        Letter::Release { order: _, name } => {
            release_row(state, from, *name);
            Ok(CoreTurn::new(alloc))
        }
        Letter::CopyAsk { order, name, after } => {
            copy_ask_row(alloc, state, from, *order, *name, *after)
        }
        Letter::CopyPart { order, last, pairs } => {
            copy_part_row(alloc, state, from, *order, *last, pairs.as_slice())
        }
        Letter::Install { order, leaf } => install_row(alloc, state, from, *order, leaf),
        Letter::Installed { order, name: _ } => installed_row(alloc, state, from, *order),
        Letter::Notice => notice_row(alloc, state, from),
        Letter::Got { .. }
        | Letter::Vote { .. }
        | Letter::Applied { .. }
        | Letter::Aborted { .. }
        | Letter::MapTell { .. } => Ok(CoreTurn::new(alloc)),
    }
}

/// What an order does at the brick that it names. After `Memory` nothing is said of the state.
pub fn brick_input(alloc: Global, state: &mut BrickState, order: &Order) -> Result<CoreTurn, Memory>
    ensures state { OnOk result (state.new ≡ (brick_input state.old order.now).state) }
    ensures out { IfOk result (λ turn. turn ≡ (brick_input state.old order.now).out) }
{
    match order {
        Order::Join {
            brick: _,
            name,
            via,
        } => join_order(alloc, state, *name, *via),
        Order::Split { brick: _, name } => split_order(alloc, state, *name),
    }
}
