//! How a call's attempt begins, and how a newer map is looked for.

ghost use Rattle.std.specs.Prelude.{◌≡◌, ◌<◌, [], ◌∷◌, ◌++◌, IfOk, OnOk, Some, None, length, min, slice_index};
ghost use Rattle.dds_states.specs.Turn.{unknown};
ghost use Rattle.dds_call_rows.specs.Library.{replies, stays, behind, next_txn, counted, below, live_bricks, retried, asks, ask, got_from};
ghost use Rattle.dds_call_rows.specs.Library.{get_begins, update_begins, attempt_begins, begins_with, begins_at, begin, adopts, told_all};

use dds_base::leaf::Leaf;
use dds_base::memory::Memory;
use dds_base::number::{BRICKS, NodeNo, TxnNo};
use dds_base::op::{Met, Op, Reply};
use dds_base::update::Update;
use dds_letters::letter::Letter;
use dds_letters::outbox::Outbox;
use dds_states::library_state::{Desk, OpenCall, Phase, RETRIES, Request, TxnNumbers, Went};
use dds_states::nodes::{NodeList, copy, group, numbers, to_each, unknown, unknown_members};
use std::alloc::Global;

/// The call is answered.
pub fn replies(alloc: Global, desk: &Desk, reply: Reply) -> Went
    ensures { result ≡ (replies desk.now reply).went }
{
    Went {
        letters: Outbox::new(alloc),
        call: None,
        reply: Some(reply),
    }
}

/// The call stays open.
pub fn stays(desk: &Desk, letters: Outbox, call: OpenCall) -> Went
    ensures { result ≡ (stays desk.now letters call).went }
{
    Went {
        letters,
        call: Some(call),
        reply: None,
    }
}

/// Takes the next attempt's number. It answers `Memory` too where the library's number is none.
fn next_attempt(desk: &mut Desk) -> Result<TxnNo, Memory>
    ensures desk { OnOk result (desk.new ≡ counted desk.old) }
    ensures txn { IfOk result (λ txn. txn ≡ next_txn desk.old) }
{
    if desk.numbers.library.is_brick() {
        return Err(Memory);
    }
    let txn = TxnNo::new(desk.numbers.library, desk.numbers.next);
    desk.numbers.next = desk.numbers.next.checked_add(1).ok_or(Memory)?;
    Ok(txn)
}

fn live_bricks(alloc: Global, desk: &Desk) -> Result<NodeList, Memory>
    ensures { IfOk result (λ list. list ≡ live_bricks desk.now) }
{
    let all = numbers(alloc, desk.numbers.bricks, 0)?;
    unknown(alloc, all.as_slice(), &desk.known)
}

/// A request that has looked for a newer map once more.
pub fn retried(mut request: Request) -> Result<Request, Memory>
    ensures { IfOk result (λ again. again ≡ retried request) }
{
    request.retries = request.retries.checked_add(1).ok_or(Memory)?;
    Ok(request)
}

/// Asks these bricks, or answers where there are none.
fn asks(
    alloc: Global,
    desk: &mut Desk,
    request: Request,
    met: Met,
    bricks: NodeList,
) -> Result<Went, Memory>
    ensures desk { OnOk result (desk.new ≡ (asks desk.old request met bricks).desk) }
    ensures went { IfOk result (λ went. went ≡ (asks desk.old request met bricks).went) }
{
    let txn = next_attempt(desk)?;
    if bricks.is_empty() {
        return Ok(replies(alloc, desk, Reply::Again(met)));
    }
    let question = Letter::MapAsk {
        txn,
        caller: request.caller,
        call: request.call,
        key: request.op.key(),
    };
    let letters = to_each(alloc, bricks.as_slice(), question)?;
    let call = OpenCall {
        request: retried(request)?,
        txn,
        phase: Phase::Asking {
            waiting: bricks,
            newest: None,
            met,
        },
    };
    Ok(stays(desk, letters, call))
}

/// Asks every brick for its leaf of the key. After three looks the call is answered Again.
pub fn ask(alloc: Global, desk: &mut Desk, request: Request, met: Met) -> Result<Went, Memory>
    ensures desk { OnOk result (desk.new ≡ (ask desk.old request met).desk) }
    ensures went { IfOk result (λ went. went ≡ (ask desk.old request met).went) }
{
    if request.retries == RETRIES {
        return Ok(replies(alloc, desk, Reply::Again(met)));
    }
    let bricks = live_bricks(alloc, desk)?;
    asks(alloc, desk, request, met, bricks)
}

/// A get asks one live member.
fn get_begins(
    alloc: Global,
    desk: &mut Desk,
    request: Request,
    leaf: &Leaf,
    brick: NodeNo,
    key: u64,
) -> Result<Went, Memory>
    ensures desk { OnOk result (desk.new ≡ counted desk.old) }
    ensures went { IfOk result (λ went. went ≡ (get_begins desk.old request leaf.now brick key).went) }
{
    let txn = next_attempt(desk)?;
    let mut letters = Outbox::new(alloc);
    letters.push(
        brick,
        Letter::Get {
            txn,
            caller: request.caller,
            call: request.call,
            key,
            name: leaf.name,
            stamp: leaf.stamp,
        },
    )?;
    let phase = Phase::Getting { leaf: *leaf, brick };
    let call = OpenCall {
        request,
        txn,
        phase,
    };
    Ok(stays(desk, letters, call))
}

/// An update asks all live members to prepare.
fn update_begins(
    alloc: Global,
    desk: &mut Desk,
    request: Request,
    leaf: &Leaf,
    members: NodeList,
) -> Result<Went, Memory>
    ensures desk { OnOk result (desk.new ≡ (update_begins desk.old request leaf.now members).desk) }
    ensures went { IfOk result (λ went. went ≡ (update_begins desk.old request leaf.now members).went) }
{
    let list = group(alloc, members.as_slice())?;
    let below = desk.numbers.next.min(desk.numbers.below);
    let txn = next_attempt(desk)?;
    let Some(op) = Update::of(request.op.copy()?) else {
        return Err(Memory);
    };
    let prepare = Letter::Prepare {
        txn,
        caller: request.caller,
        call: request.call,
        below,
        name: leaf.name,
        stamp: leaf.stamp,
        list,
        op,
    };
    let letters = to_each(alloc, members.as_slice(), prepare)?;
    let phase = Phase::Preparing {
        leaf: *leaf,
        list,
        waiting: members,
    };
    let call = OpenCall {
        request,
        txn,
        phase,
    };
    Ok(stays(desk, letters, call))
}

/// The member that a get of this caller asks.
fn got_from(members: &[NodeNo], request: &Request) -> NodeNo
    requires { 0 < length members.now }
    ensures { result ≡ got_from members.now request.now }
{
    members[usize::from(request.caller.number()) % members.len()]
}

/// The letters and the phase by which an attempt begins.
fn attempt_begins(
    alloc: Global,
    desk: &mut Desk,
    request: Request,
    leaf: &Leaf,
    members: NodeList,
) -> Result<Went, Memory>
    requires { 0 < length members }
    ensures desk { OnOk result (desk.new ≡ (attempt_begins desk.old request leaf.now members request.op).desk) }
    ensures went { IfOk result
        (λ went. went ≡ (attempt_begins desk.old request leaf.now members request.op).went) }
{
    match &request.op {
        Op::Get { key } => {
            let key = *key;
            let brick = got_from(members.as_slice(), &request);
            get_begins(alloc, desk, request, leaf, brick, key)
        }
        _ => update_begins(alloc, desk, request, leaf, members),
    }
}

/// Begins an attempt at these members, or asks for a newer map where there are none.
fn begins_with(
    alloc: Global,
    desk: &mut Desk,
    request: Request,
    leaf: &Leaf,
    members: NodeList,
) -> Result<Went, Memory>
    ensures desk { OnOk result (desk.new ≡ (begins_with desk.old request leaf.now members).desk) }
    ensures went { IfOk result (λ went. went ≡ (begins_with desk.old request leaf.now members).went) }
{
    if members.is_empty() {
        let brick = first_member(leaf);
        return ask(alloc, desk, request, Met::Stopped { brick });
    }
    attempt_begins(alloc, desk, request, leaf, members)
}

fn first_member(leaf: &Leaf) -> NodeNo
    ensures { result ≡ slice_index leaf.now.list 0 }
{
    let list = leaf.list;
    let _members = list.len();
    list.at(0)
}

/// Begins an attempt at the live members of the map's leaf for the key. Where there are none, asks for a newer map.
pub fn begin(alloc: Global, desk: &mut Desk, request: Request) -> Result<Went, Memory>
    ensures desk { OnOk result (desk.new ≡ (begin desk.old request).desk) }
    ensures went { IfOk result (λ went. went ≡ (begin desk.old request).went) }
{
    let Some(leaf) = desk.map.leaf_of(request.op.key()).copied() else {
        return Ok(Went {
            letters: Outbox::new(alloc),
            call: None,
            reply: None,
        });
    };
    let members = unknown_members(alloc, &leaf.list, &desk.known)?;
    begins_with(alloc, desk, request, &leaf, members)
}

/// All bricks have told: the newest leaf is adopted and an attempt begins, or the call is answered Again.
pub fn go_on_with(
    alloc: Global,
    desk: &mut Desk,
    request: Request,
    newest: Option<Leaf>,
    met: Met,
) -> Result<Went, Memory>
    ensures desk { OnOk result (desk.new ≡ (told_all desk.old request newest met).desk) }
    ensures went { IfOk result (λ went. went ≡ (told_all desk.old request newest met).went) }
{
    match newest {
        None => Ok(replies(alloc, desk, Reply::Again(met))),
        Some(leaf) => {
            desk.map.adopt(leaf)?;
            begin(alloc, desk, request)
        }
    }
}
