//! What a library does: a call is opened, or a letter comes.

ghost use Rattle.std.specs.Prelude.{◌≡◌, ◌<◌, ◌≤◌, ◌==◌, ◌+◌, [], ◌∷◌, ◌++◌, IfOk, OnOk, IfSome, OnSome, IfNone, Some, None, ◌^◌, length};
ghost use Rattle.std.specs.Prelude.{position, option_to_list, slice_get, if◌then◌else◌};
ghost use Rattle.std.specs.FinMap as map;
ghost use Rattle.std.specs.List.{remove};
ghost use Rattle.dds_states.specs.Turn.{both};
ghost use Rattle.dds_call_rows.specs.Library.{begin};
ghost use Rattle.dds_core.specs.LibraryTurn.{least_attempt, desk_of, after_turn, replies_of, given, new_request, input_turn, library_input};
ghost use Rattle.dds_core.specs.LibraryTurn.{call_row, call_place, put_back, call_turn, at_call, turn_of, turn_at, at_place, attempt_of};
ghost use Rattle.dds_core.specs.LibraryTurn.{at_attempt, notice_calls, attempts, learns, notice_turn, live_library_turn, library_turn};

use dds_base::items::Items;
use dds_base::memory::Memory;
use dds_base::number::{CallNo, CallerNo, NodeNo, TxnNo};
use dds_base::op::{Op, Reply};
use dds_call_rows::attempt::{begin, stays};
use dds_call_rows::call::{aborted_in, applied_in, got_in, told_in, unchanged, vote_in};
use dds_call_rows::call_notice::notice_in;
use dds_letters::letter::Letter;
use dds_letters::outbox::Outbox;
use dds_maps::maps::Maps;
use dds_states::library_state::{Desk, LibraryState, OpenCall, Request, TxnNumbers, Went};
use dds_states::turn::{CoreTurn, PointList, Replied, ReplyList, read_of};
use std::alloc::Global;

/// The least attempt number of open calls, 2^64 - 1 where there are none.
fn least_attempt(calls: &[OpenCall]) -> u64
    ensures { result ≡ least_attempt calls.now }
{
    let mut least = u64::MAX;
    for call in calls {
        least = least.min(call.txn.number());
    }
    least
}

/// What a letter does to one open call.
fn call_row(
    alloc: Global,
    desk: &mut Desk,
    call: OpenCall,
    from: NodeNo,
    letter: &Letter,
) -> Result<Went, Memory>
    ensures desk { OnOk result (desk.new ≡ (call_row desk.old call from letter.now).desk) }
    ensures went { IfOk result (λ went. went ≡ (call_row desk.old call from letter.now).went) }
{
    match letter {
        Letter::Got { txn: _, answer } => got_in(alloc, desk, call, from, answer),
        Letter::Vote { txn: _, vote: told } => vote_in(alloc, desk, call, from, told),
        Letter::Applied { txn: _, was } => applied_in(alloc, desk, call, from, *was),
        Letter::Aborted { txn: _ } => aborted_in(alloc, desk, call, from),
        Letter::MapTell { txn: _, leaf } => told_in(alloc, desk, call, from, leaf),
        Letter::Notice => notice_in(alloc, desk, call, from),
        Letter::Get { .. }
        | Letter::Prepare { .. }
        | Letter::Commit { .. }
        | Letter::Abort { .. }
        | Letter::Push { .. }
        | Letter::MapAsk { .. }
        | Letter::Help { .. }
        | Letter::Query { .. }
        | Letter::Status { .. }
        | Letter::Outcome { .. }
        | Letter::Lease { .. }
        | Letter::Granted { .. }
        | Letter::LeaseRefused { .. }
        | Letter::Release { .. }
        | Letter::CopyAsk { .. }
        | Letter::CopyPart { .. }
        | Letter::Install { .. }
        | Letter::Installed { .. } => Ok(unchanged(alloc, desk, call)),
    }
}

/// What one call's turn gives: its letters, and its answer.
fn give(
    alloc: Global,
    letters: Outbox,
    reply: Option<Reply>,
    caller: CallerNo,
    call: CallNo,
    txn: TxnNo,
) -> Result<CoreTurn, Memory>
    ensures letters { IfOk result (λ turn. turn.letters ≡ letters) }
    ensures points { IfOk result (λ turn. turn.points ≡ []) }
    ensures replies { IfOk result (λ turn. turn.replies ≡ replies_of caller call txn reply) }
{
    let mut turn = CoreTurn::letters(alloc, letters);
    match reply {
        None => Ok(turn),
        Some(reply) => {
            turn.replies.push(Replied::Call {
                read: read_of(txn, &reply),
                caller,
                call,
                reply,
            })?;
            Ok(turn)
        }
    }
}

/// The calls with the one at a place after its turn.
fn put_back(calls: &mut Items<OpenCall>, place: usize, call: Option<OpenCall>) -> Result<(), Memory>
    requires { place ≤ length calls.old }
    ensures { OnOk result (calls.new ≡ put_back calls.old place call) }
{
    match call {
        None => Ok(()),
        Some(call) => calls.insert(place, call),
    }
}

/// The numbers that the next attempt takes.
fn numbers(state: &LibraryState) -> TxnNumbers
    ensures { result
        ≡ record { library = state.now.number; bricks = state.now.bricks; next = state.now.next; below = least_attempt state.now.calls } }
{
    TxnNumbers {
        library: state.number,
        bricks: state.bricks,
        next: state.next,
        below: least_attempt(state.calls.as_slice()),
    }
}

/// Whose call it is, and its attempt.
fn names(call: &OpenCall) -> (CallerNo, CallNo, TxnNo)
    ensures { result ≡ (call.now.request.caller, call.now.request.call, call.now.txn) }
{
    (call.request.caller, call.request.call, call.txn)
}

/// What a call works with, beside the library's open calls. The library is left without its map.
fn open_desk(alloc: Global, state: &mut LibraryState) -> Result<Desk, Memory>
    ensures desk { IfOk result (λ desk. desk ≡ desk_of state.old state.old.calls) }
    ensures state { OnOk result (state.new ≡ record state.old { map = map.empty }) }
{
    let numbers = numbers(state);
    let none = Maps::new(alloc, &[])?;
    let map = std::mem::replace(&mut state.map, none);
    Ok(Desk {
        map,
        known: state.known,
        numbers,
    })
}

/// Gives the library its map and its numbers back.
fn close_desk(state: &mut LibraryState, desk: Desk)
    ensures { state.new ≡ record state.old { map = desk.map; next = desk.numbers.next } }
{
    let Desk {
        map,
        known: _,
        numbers,
    } = desk;
    state.map = map;
    state.next = numbers.next;
}

/// A letter at the open call that was taken out of this place.
fn turn_of(
    alloc: Global,
    state: &mut LibraryState,
    from: NodeNo,
    letter: &Letter,
    place: usize,
    call: OpenCall,
) -> Result<CoreTurn, Memory>
    requires { place ≤ length state.old.calls }
    ensures state { OnOk result (state.new ≡ (turn_of state.old from letter.now place call).state) }
    ensures out { IfOk result (λ turn. turn ≡ (turn_of state.old from letter.now place call).out) }
{
    let (caller, number, txn) = names(&call);
    let mut desk = open_desk(alloc, state)?;
    let went = call_row(alloc, &mut desk, call, from, letter)?;
    close_desk(state, desk);
    put_back(&mut state.calls, place, went.call)?;
    give(alloc, went.letters, went.reply, caller, number, txn)
}

/// A letter at the open call at a place.
fn turn_at(
    alloc: Global,
    state: &mut LibraryState,
    from: NodeNo,
    letter: &Letter,
    place: usize,
) -> Result<CoreTurn, Memory>
    ensures state { OnOk result (state.new ≡ (turn_at state.old from letter.now place).state) }
    ensures out { IfOk result (λ turn. turn ≡ (turn_at state.old from letter.now place).out) }
{
    let Some(call) = take(&mut state.calls, place) else {
        return Ok(CoreTurn::new(alloc));
    };
    turn_of(alloc, state, from, letter, place, call)
}

/// Takes the call at a place out of the list, if there is one.
fn take(calls: &mut Items<OpenCall>, place: usize) -> Option<OpenCall>
    ensures value { result ≡ slice_get calls.old place }
    ensures some { OnSome result ((calls.new ≡ remove calls.old place) × (place ≤ length calls.new)) }
    ensures none { IfNone result (calls.new ≡ calls.old) }
{
    if place >= calls.len() {
        return None;
    }
    Some(calls.remove(place))
}

/// The place of the first open call with this attempt.
fn call_place(calls: &[OpenCall], txn: TxnNo) -> Option<usize>
    ensures { result ≡ call_place calls.now txn }
{
    calls.iter().position(|c| c.txn == txn)
}

/// The attempt that a brick's letter to a library is of.
fn attempt_of(letter: &Letter) -> Option<TxnNo>
    ensures { result ≡ attempt_of letter.now }
{
    match letter {
        Letter::Got { txn, answer: _ } => Some(*txn),
        Letter::Vote { txn, vote: _ } => Some(*txn),
        Letter::Applied { txn, was: _ } => Some(*txn),
        Letter::Aborted { txn } => Some(*txn),
        Letter::MapTell { txn, leaf: _ } => Some(*txn),
        Letter::Get { .. }
        | Letter::Prepare { .. }
        | Letter::Commit { .. }
        | Letter::Abort { .. }
        | Letter::Push { .. }
        | Letter::MapAsk { .. }
        | Letter::Help { .. }
        | Letter::Query { .. }
        | Letter::Status { .. }
        | Letter::Outcome { .. }
        | Letter::Lease { .. }
        | Letter::Granted { .. }
        | Letter::LeaseRefused { .. }
        | Letter::Release { .. }
        | Letter::CopyAsk { .. }
        | Letter::CopyPart { .. }
        | Letter::Install { .. }
        | Letter::Installed { .. }
        | Letter::Notice => None,
    }
}

/// A letter of an attempt does something only to the open call that has this attempt.
fn at_attempt(
    alloc: Global,
    state: &mut LibraryState,
    from: NodeNo,
    letter: &Letter,
) -> Result<CoreTurn, Memory>
    ensures state { OnOk result (state.new ≡ (at_attempt state.old from letter.now (attempt_of letter.now)).state) }
    ensures out { IfOk result (λ turn. turn ≡ (at_attempt state.old from letter.now (attempt_of letter.now)).out) }
{
    let Some(txn) = attempt_of(letter) else {
        return Ok(CoreTurn::new(alloc));
    };
    at_txn(alloc, state, from, letter, txn)
}

/// A letter at the open call that has this attempt, if there is one.
fn at_txn(
    alloc: Global,
    state: &mut LibraryState,
    from: NodeNo,
    letter: &Letter,
    txn: TxnNo,
) -> Result<CoreTurn, Memory>
    ensures state { OnOk result (state.new ≡ (at_attempt state.old from letter.now (Some txn)).state) }
    ensures out { IfOk result (λ turn. turn ≡ (at_attempt state.old from letter.now (Some txn)).out) }
{
    let Some(place) = call_place(state.calls.as_slice(), txn) else {
        return Ok(CoreTurn::new(alloc));
    };
    turn_at(alloc, state, from, letter, place)
}

/// The attempts of open calls.
fn attempts(alloc: Global, calls: &[OpenCall]) -> Result<Vec<TxnNo>, Memory>
    ensures { IfOk result (λ list. list.items ≡ attempts calls.now) }
{
    let mut list = Vec::new(alloc);
    for call in calls {
        list.push(call.txn)?;
    }
    Ok(list)
}

/// The open calls with these attempts go on without the node.
fn notice_calls(
    alloc: Global,
    state: &mut LibraryState,
    node: NodeNo,
    txns: Vec<TxnNo>,
) -> Result<CoreTurn, Memory>
    ensures state { OnOk result (state.new ≡ (notice_calls state.old node txns.items).state) }
    ensures out { IfOk result (λ turn. turn ≡ (notice_calls state.old node txns.items).out) }
{
    let mut turn = CoreTurn::new(alloc);
    for txn in txns {
        let next = at_txn(alloc, state, node, &Letter::Notice, txn)?;
        turn = turn.with(next)?;
    }
    Ok(turn)
}

/// A node has stopped: it is known, and each open call goes on without it.
fn notice_turn(alloc: Global, state: &mut LibraryState, node: NodeNo) -> Result<CoreTurn, Memory>
    ensures state { OnOk result (state.new ≡ (notice_turn state.old node).state) }
    ensures out { IfOk result (λ turn. turn ≡ (notice_turn state.old node).out) }
{
    let txns = attempts(alloc, state.calls.as_slice())?;
    state.known.add(node);
    notice_calls(alloc, state, node, txns)
}

/// What a letter does at a library: nothing at a stopped one. After `Memory` nothing is said of the state. Where a step
/// would need an attempt number above 2^64 - 1, or where an attempt begins and the library's number is a brick's or its
/// group is empty, it answers `Memory` too. By reading, no run comes there; that isn't proved.
pub fn library_turn(
    alloc: Global,
    state: &mut LibraryState,
    from: NodeNo,
    letter: &Letter,
) -> Result<CoreTurn, Memory>
    ensures state { OnOk result (state.new ≡ (library_turn state.old from letter.now).state) }
    ensures out { IfOk result (λ turn. turn ≡ (library_turn state.old from letter.now).out) }
{
    if state.stopped {
        return Ok(CoreTurn::new(alloc));
    }
    if let Letter::Notice = letter {
        return notice_turn(alloc, state, from);
    }
    at_attempt(alloc, state, from, letter)
}

/// Opens a call and begins it. At a stopped library nothing is done. It answers `Memory` where `library_turn` does.
pub fn library_input(
    alloc: Global,
    state: &mut LibraryState,
    caller: CallerNo,
    call: CallNo,
    op: &Op,
) -> Result<CoreTurn, Memory>
    ensures state { OnOk result (state.new ≡ (library_input state.old caller call op.now).state) }
    ensures out { IfOk result (λ turn. turn ≡ (library_input state.old caller call op.now).out) }
{
    if state.stopped {
        return Ok(CoreTurn::new(alloc));
    }
    let request = Request {
        caller,
        call,
        op: op.copy()?,
        retries: 0,
        pushed: false,
    };
    input_turn(alloc, state, request)
}

fn input_turn(alloc: Global, state: &mut LibraryState, request: Request) -> Result<CoreTurn, Memory>
    ensures state { OnOk result (state.new ≡ (input_turn state.old request (begin (desk_of state.old state.old.calls) request)).state) }
    ensures out { IfOk result (λ turn. turn ≡ (input_turn state.old request (begin (desk_of state.old state.old.calls) request)).out) }
{
    if state.number.is_brick() {
        return Err(Memory);
    }
    let txn = TxnNo::new(state.number, state.next);
    let (caller, number) = (request.caller, request.call);
    let mut desk = open_desk(alloc, state)?;
    let Went {
        letters,
        call,
        reply,
    } = begin(alloc, &mut desk, request)?;
    close_desk(state, desk);
    push_some(&mut state.calls, call)?;
    give(alloc, letters, reply, caller, number, txn)
}

fn push_some(calls: &mut Items<OpenCall>, call: Option<OpenCall>) -> Result<(), Memory>
    ensures { OnOk result (calls.new ≡ calls.old ++ option_to_list call) }
{
    match call {
        None => Ok(()),
        Some(call) => calls.push(call),
    }
}
