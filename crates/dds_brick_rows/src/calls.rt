//! What a brick does for the calls of libraries.

ghost use Rattle.std.specs.Prelude.{◌≡◌, [], ◌∷◌, IfOk, OnOk, Some, None, option_copied};
ghost use Rattle.dds_brick_rows.specs.Calls.{answer_of, got, get_row, trim, voted, prepare_row, flag_at, noted, applied, commit_found};
ghost use Rattle.dds_brick_rows.specs.Calls.{commit_row, aborted, abort_row, map_ask_row};

use crate::refusal::{get_refusal, update_denial};
use dds_base::items::Items;
use dds_base::memory::Memory;
use dds_base::name::LeafName;
use dds_base::number::{NodeNo, Stamp, TxnNo};
use dds_base::pending::Pending;
use dds_base::value::Value;
use dds_letters::letter::Letter;
use dds_letters::outbox::Outbox;
use dds_letters::refusal::{Answer, Ballot};
use dds_states::brick_state::BrickState;
use dds_states::turn::{CoreTurn, Point, PointList};
use std::alloc::Global;

/// Sends the refusal, or what the key is bound to.
pub fn get_row(
    alloc: Global,
    state: &BrickState,
    from: NodeNo,
    txn: TxnNo,
    key: u64,
    name: LeafName,
    stamp: Stamp,
) -> Result<CoreTurn, Memory>
    ensures { IfOk result (λ turn. turn ≡ (get_row state.now from txn key name stamp).out) }
{
    if let Some(refusal) = get_refusal(state, key, name, stamp) {
        let answer = Answer::Refused(refusal);
        return CoreTurn::letter(alloc, from, Letter::Got { txn, answer });
    }
    read(alloc, state, from, txn, key)
}

fn read(
    alloc: Global,
    state: &BrickState,
    from: NodeNo,
    txn: TxnNo,
    key: u64,
) -> Result<CoreTurn, Memory>
    ensures { IfOk result (λ turn. turn ≡ (got state.now from txn key None).out) }
{
    let found = state.pairs.get(key);
    let letter = Letter::Got {
        txn,
        answer: answer_of(found)?,
    };
    let mut turn = CoreTurn::letter(alloc, from, letter)?;
    turn.points.push(Point::Read {
        txn,
        value: copied(found)?,
    })?;
    Ok(turn)
}

fn answer_of(found: Option<&Value>) -> Result<Answer, Memory>
    ensures { IfOk result (λ answer. answer ≡ answer_of (option_copied found.entry)) }
{
    match found {
        None => Ok(Answer::Absent),
        Some(value) => Ok(Answer::Value(value.copy()?)),
    }
}

fn copied(found: Option<&Value>) -> Result<Option<Value>, Memory>
    ensures { IfOk result (λ value. value ≡ option_copied found.entry) }
{
    match found {
        None => Ok(None),
        Some(value) => Ok(Some(value.copy()?)),
    }
}

/// Forgets outcomes below the bound, and votes no; or keeps the update as pending and votes yes.
pub fn prepare_row(
    alloc: Global,
    state: &mut BrickState,
    from: NodeNo,
    pending: Pending,
    below: u64,
    name: LeafName,
    stamp: Stamp,
) -> Result<CoreTurn, Memory>
    ensures state { OnOk result (state.new ≡ (prepare_row state.old from pending below name stamp).state) }
    ensures out { IfOk result (λ turn. turn ≡ (prepare_row state.old from pending below name stamp).out) }
{
    let denial = update_denial(state, pending.op.op(), name, stamp);
    let txn = pending.txn;
    state.locks.trim(txn.library(), below);
    if let Some(denial) = denial {
        let vote = Ballot::No(denial);
        return CoreTurn::letter(alloc, from, Letter::Vote { txn, vote });
    }
    state.locks.lock(pending)?;
    CoreTurn::letter(
        alloc,
        from,
        Letter::Vote {
            txn,
            vote: Ballot::Yes,
        },
    )
}

/// Applies a transaction that was pending and notes it Committed.
pub fn applied(alloc: Global, state: &mut BrickState, pending: Pending) -> Result<CoreTurn, Memory>
    ensures state { OnOk result (state.new ≡ (applied state.old pending).state) }
    ensures out { IfOk result (λ turn. turn ≡ (applied state.old pending).out) }
{
    let was = state.pairs.update(pending.op.op())?;
    state.locks.note(pending.txn, true)?;
    let mut turn = CoreTurn::new(alloc);
    turn.points.push(Point::Applied { pending, was })?;
    Ok(turn)
}

/// Applies the transaction where it is pending, and tells its flag.
pub fn commit_row(
    alloc: Global,
    state: &mut BrickState,
    from: NodeNo,
    txn: TxnNo,
) -> Result<CoreTurn, Memory>
    ensures state { OnOk result (state.new ≡ (commit_row state.old from txn).state) }
    ensures out { IfOk result (λ turn. turn ≡ (commit_row state.old from txn).out) }
{
    let Some(pending) = state.locks.unlock(txn) else {
        return Ok(CoreTurn::new(alloc));
    };
    let txn = pending.txn;
    let was = state.pairs.update(pending.op.op())?;
    state.locks.note(txn, true)?;
    let mut turn = CoreTurn::letter(alloc, from, Letter::Applied { txn, was })?;
    turn.points.push(Point::Applied { pending, was })?;
    Ok(turn)
}

/// Drops the transaction where it is pending and notes it Aborted, and says so in each case.
pub fn abort_row(
    alloc: Global,
    state: &mut BrickState,
    from: NodeNo,
    txn: TxnNo,
) -> Result<CoreTurn, Memory>
    ensures state { OnOk result (state.new ≡ (abort_row state.old from txn).state) }
    ensures out { IfOk result (λ turn. turn ≡ (abort_row state.old from txn).out) }
{
    if let Some(pending) = state.locks.unlock(txn) {
        state.locks.note(pending.txn, false)?;
    }
    CoreTurn::letter(alloc, from, Letter::Aborted { txn })
}

/// Tells the leaf that covers the key, if there is one.
pub fn map_ask_row(
    alloc: Global,
    state: &BrickState,
    from: NodeNo,
    txn: TxnNo,
    key: u64,
) -> Result<CoreTurn, Memory>
    ensures { IfOk result (λ turn. turn ≡ (map_ask_row state.now from txn key).out) }
{
    let leaf = state.leaves.leaf_of(key).copied();
    CoreTurn::letter(alloc, from, Letter::MapTell { txn, leaf })
}
