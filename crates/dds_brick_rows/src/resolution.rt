//! How bricks resolve a transaction whose library stopped.

ghost use Rattle.std.specs.Prelude.{◌≡◌, ◌==◌, ◌&&◌, ◌||◌, [], ◌∷◌, ◌++◌, IfOk, OnOk, Some, None, length, not};
ghost use Rattle.std.specs.List.{list_all, list_any};
ghost use Rattle.dds_base.specs.NodeSet.{has_node};
ghost use Rattle.dds_locks.specs.Status.{status};
ghost use Rattle.dds_letters.specs.declared.letter.Letter.TheVariants as letter;
ghost use Rattle.dds_states.specs.Turn.{to_each, unknown_others, both, letters_out};
ghost use Rattle.dds_brick_rows.specs.Calls.{dropped};
ghost use Rattle.dds_brick_rows.specs.Resolution.{before, is_ready, is_commit, is_no, heard, unwaited, settled, outcome_row, verdict};
ghost use Rattle.dds_brick_rows.specs.Resolution.{decides, resolves_on, started, resolve, is_of, is_resolved, defers, help_row, query_row};
ghost use Rattle.dds_brick_rows.specs.Resolution.{is_awaited, with_news, resolving_goes, resolvings_go, all_hear, status_row};

use crate::calls::applied;
use dds_base::brick_list::BrickList;
use dds_base::items::Items;
use dds_base::memory::Memory;
use dds_base::node_set::NodeSet;
use dds_base::number::{NodeNo, TxnNo};
use dds_base::pending::TxnStatus;
use dds_letters::letter::Letter;
use dds_states::brick_state::{BrickState, Deferred, Question, Resolving};
use dds_states::nodes::{has, members, to_each, unknown_others, without};
use dds_states::turn::CoreTurn;
use std::alloc::Global;

/// What a member tells a resolver: that it has stopped, or how far it is with a transaction.
#[derive(Clone, Copy, Debug)]
pub enum News {
    Stopped,
    Told { txn: TxnNo, status: TxnStatus },
}

/// Whether all members before one are known to have stopped.
fn all_before(known: &NodeSet, list: &[NodeNo], member: NodeNo) -> bool
    ensures { result ≡ list_all (λ n. has_node known.now n) (before list.now member) }
{
    for other in list {
        if *other == member {
            return true;
        }
        if !known.has(*other) {
            return false;
        }
    }
    true
}

/// Whether a transaction is ready for a member: its library and all members before that one are known to have stopped.
fn is_ready(
    alloc: Global,
    known: &NodeSet,
    txn: TxnNo,
    list: &BrickList,
    member: NodeNo,
) -> Result<bool, Memory>
    ensures { IfOk result (λ ready. ready ≡ is_ready known.now txn list.now member) }
{
    let list = members(alloc, list)?;
    Ok(known.has(txn.library()) && all_before(known, list.as_slice(), member))
}

fn is_commit(status: TxnStatus) -> bool
    ensures { result ≡ is_commit status }
{
    matches!(status, TxnStatus::Committed)
}

fn is_no(status: TxnStatus) -> bool
    ensures { result ≡ is_no status }
{
    matches!(status, TxnStatus::NotPrepared | TxnStatus::Aborted)
}

/// The resolving with a status more.
fn heard(mut resolving: Resolving, status: TxnStatus) -> Resolving
    ensures { result ≡ heard resolving status }
{
    resolving.saw_commit = resolving.saw_commit || is_commit(status);
    resolving.saw_no = resolving.saw_no || is_no(status);
    resolving
}

/// The resolving that doesn't wait for a node any more.
fn unwaited(alloc: Global, mut resolving: Resolving, node: NodeNo) -> Result<Resolving, Memory>
    ensures { IfOk result (λ r. r ≡ unwaited resolving node) }
{
    resolving.waiting = without(alloc, resolving.waiting.as_slice(), node)?;
    Ok(resolving)
}

/// Applies or aborts the transaction where it is pending.
pub fn outcome_row(
    alloc: Global,
    state: &mut BrickState,
    txn: TxnNo,
    commit: bool,
) -> Result<CoreTurn, Memory>
    ensures state { OnOk result (state.new ≡ (outcome_row state.old txn commit).state) }
    ensures out { IfOk result (λ turn. turn ≡ (outcome_row state.old txn commit).out) }
{
    let Some(pending) = state.locks.unlock(txn) else {
        return Ok(CoreTurn::new(alloc));
    };
    if commit {
        return applied(alloc, state, pending);
    }
    state.locks.note(pending.txn, false)?;
    Ok(CoreTurn::new(alloc))
}

/// The outcome of a resolving that has heard all.
fn verdict(resolving: &Resolving) -> bool
    ensures { result ≡ verdict resolving.now }
{
    resolving.saw_commit || !resolving.saw_no
}

/// Does what an outcome does, and tells the other members.
fn decides(alloc: Global, state: &mut BrickState, resolving: &Resolving) -> Result<CoreTurn, Memory>
    ensures state { OnOk result (state.new ≡ (decides state.old resolving.now).state) }
    ensures out { IfOk result (λ turn. turn ≡ (decides state.old resolving.now).out) }
{
    let commit = verdict(resolving);
    let turn = outcome_row(alloc, state, resolving.txn, commit)?;
    let others = unknown_others(alloc, &resolving.list, state.number, &state.known)?;
    let told = Letter::Outcome {
        txn: resolving.txn,
        commit,
    };
    let letters = to_each(alloc, others.as_slice(), told)?;
    turn.with(CoreTurn::letters(alloc, letters))
}

/// Goes on with a resolving that isn't in the state's list: decides where no member is waited for, and keeps it else.
pub fn resolves_on(
    alloc: Global,
    state: &mut BrickState,
    resolving: Resolving,
) -> Result<CoreTurn, Memory>
    ensures state { OnOk result (state.new ≡ (resolves_on state.old resolving).state) }
    ensures out { IfOk result (λ turn. turn ≡ (resolves_on state.old resolving).out) }
{
    if resolving.waiting.is_empty() {
        return decides(alloc, state, &resolving);
    }
    state.resolving.push(resolving)?;
    Ok(CoreTurn::new(alloc))
}

/// A new resolving, which has heard this brick's own status.
fn started(
    alloc: Global,
    state: &BrickState,
    txn: TxnNo,
    list: &BrickList,
) -> Result<Resolving, Memory>
    ensures { IfOk result (λ r. r ≡ started state.now txn list.now) }
{
    let waiting = unknown_others(alloc, list, state.number, &state.known)?;
    let resolving = Resolving {
        txn,
        list: *list,
        waiting,
        saw_commit: false,
        saw_no: false,
    };
    Ok(heard(resolving, state.locks.status(txn)))
}

fn ask_others(
    alloc: Global,
    state: &BrickState,
    txn: TxnNo,
    list: &BrickList,
) -> Result<CoreTurn, Memory>
    ensures { IfOk result
        (λ turn. turn
        ≡ letters_out (to_each (unknown_others list.now state.now.number state.now.known) (letter.Query txn list.now))) }
{
    let others = unknown_others(alloc, list, state.number, &state.known)?;
    let query = Letter::Query { txn, list: *list };
    Ok(CoreTurn::letters(alloc, to_each(alloc, others.as_slice(), query)?))
}

/// Starts resolving: asks every other member how far it is.
pub fn resolve(
    alloc: Global,
    state: &mut BrickState,
    txn: TxnNo,
    list: &BrickList,
) -> Result<CoreTurn, Memory>
    ensures state { OnOk result (state.new ≡ (resolve state.old txn list.now).state) }
    ensures out { IfOk result (λ turn. turn ≡ (resolve state.old txn list.now).out) }
{
    let asked = ask_others(alloc, state, txn, list)?;
    let resolving = started(alloc, state, txn, list)?;
    let next = resolves_on(alloc, state, resolving)?;
    asked.with(next)
}

/// Whether the transaction is being resolved here.
pub fn is_resolved(state: &BrickState, txn: TxnNo) -> bool
    ensures { result ≡ is_resolved state.now txn }
{
    state.resolving.as_slice().iter().any(|r| r.txn == txn)
}

fn defers(
    state: &mut BrickState,
    from: NodeNo,
    question: Question,
    txn: TxnNo,
    list: &BrickList,
) -> Result<(), Memory>
    ensures { OnOk result (state.new ≡ (defers state.old from question txn list.now).state) }
{
    state.deferred.push(Deferred {
        from,
        question,
        txn,
        list: *list,
    })
}

/// Resolves the transaction, unless that is being done here; or defers it while this brick can't be the resolver.
pub fn help_row(
    alloc: Global,
    state: &mut BrickState,
    from: NodeNo,
    txn: TxnNo,
    list: &BrickList,
) -> Result<CoreTurn, Memory>
    ensures state { OnOk result (state.new ≡ (help_row state.old from txn list.now).state) }
    ensures out { IfOk result (λ turn. turn ≡ (help_row state.old from txn list.now).out) }
{
    if !is_ready(alloc, &state.known, txn, list, state.number)? {
        defers(state, from, Question::Help, txn, list)?;
        return Ok(CoreTurn::new(alloc));
    }
    if is_resolved(state, txn) {
        return Ok(CoreTurn::new(alloc));
    }
    resolve(alloc, state, txn, list)
}

/// Tells the status; or defers it while the sender can't be the resolver.
pub fn query_row(
    alloc: Global,
    state: &mut BrickState,
    from: NodeNo,
    txn: TxnNo,
    list: &BrickList,
) -> Result<CoreTurn, Memory>
    ensures state { OnOk result (state.new ≡ (query_row state.old from txn list.now).state) }
    ensures out { IfOk result (λ turn. turn ≡ (query_row state.old from txn list.now).out) }
{
    if !is_ready(alloc, &state.known, txn, list, from)? {
        defers(state, from, Question::Query, txn, list)?;
        return Ok(CoreTurn::new(alloc));
    }
    let status = state.locks.status(txn);
    CoreTurn::letter(alloc, from, Letter::Status { txn, status })
}

/// Whether a resolving waits for what a member tells.
fn is_awaited(resolving: &Resolving, from: NodeNo, news: &News) -> bool
    ensures { result ≡ is_awaited resolving.now from news.now }
{
    match news {
        News::Stopped => has(resolving.waiting.as_slice(), from),
        News::Told { txn, status: _ } => {
            resolving.txn == *txn && has(resolving.waiting.as_slice(), from)
        }
    }
}

/// The resolving that has heard it, and waits for that member no more.
fn with_news(
    alloc: Global,
    resolving: Resolving,
    from: NodeNo,
    news: &News,
) -> Result<Resolving, Memory>
    ensures { IfOk result (λ r. r ≡ with_news resolving from news.now) }
{
    match news {
        News::Stopped => unwaited(alloc, resolving, from),
        News::Told { txn: _, status } => unwaited(alloc, heard(resolving, *status), from),
    }
}

/// One resolving, which isn't in the state's list, goes on by what a member tells.
fn resolving_goes(
    alloc: Global,
    state: &mut BrickState,
    from: NodeNo,
    news: &News,
    resolving: Resolving,
) -> Result<CoreTurn, Memory>
    ensures state { OnOk result (state.new ≡ (resolving_goes state.old from news.now resolving).state) }
    ensures out { IfOk result (λ turn. turn ≡ (resolving_goes state.old from news.now resolving).out) }
{
    if !is_awaited(&resolving, from, news) {
        state.resolving.push(resolving)?;
        return Ok(CoreTurn::new(alloc));
    }
    let resolving = with_news(alloc, resolving, from, news)?;
    resolves_on(alloc, state, resolving)
}

fn resolvings_go(
    alloc: Global,
    state: &mut BrickState,
    from: NodeNo,
    news: &News,
    resolvings: Items<Resolving>,
) -> Result<CoreTurn, Memory>
    ensures state { OnOk result (state.new ≡ (resolvings_go state.old from news.now resolvings).state) }
    ensures out { IfOk result (λ turn. turn ≡ (resolvings_go state.old from news.now resolvings).out) }
{
    let mut turn = CoreTurn::new(alloc);
    for resolving in resolvings.into_vec() {
        let next = resolving_goes(alloc, state, from, news, resolving)?;
        turn = turn.with(next)?;
    }
    Ok(turn)
}

/// Each resolving that waits for what a member tells goes on, in the order of starting; those that go on waiting keep
/// their places.
pub fn all_hear(
    alloc: Global,
    state: &mut BrickState,
    from: NodeNo,
    news: &News,
) -> Result<CoreTurn, Memory>
    ensures state { OnOk result (state.new ≡ (all_hear state.old from news.now).state) }
    ensures out { IfOk result (λ turn. turn ≡ (all_hear state.old from news.now).out) }
{
    let resolvings = std::mem::replace(&mut state.resolving, Items::new(alloc));
    resolvings_go(alloc, state, from, news, resolvings)
}

/// A member that is waited for tells how far it is.
pub fn status_row(
    alloc: Global,
    state: &mut BrickState,
    from: NodeNo,
    txn: TxnNo,
    status: TxnStatus,
) -> Result<CoreTurn, Memory>
    ensures state { OnOk result (state.new ≡ (status_row state.old from txn status).state) }
    ensures out { IfOk result (λ turn. turn ≡ (status_row state.old from txn status).out) }
{
    all_hear(alloc, state, from, &News::Told { txn, status })
}
