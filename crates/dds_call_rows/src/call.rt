//! What each letter, and a notice, does to one open call of a library.

ghost use Rattle.std.specs.Prelude.{◌≡◌, ◌==◌, ◌++◌, [], ◌∷◌, IfOk, OnOk, Some, None};
ghost use Rattle.std.specs.List.{list_all};
ghost use Rattle.dds_base.specs.NodeSet.{has_node};
ghost use Rattle.dds_call_rows.specs.Library.{stays, got_with, got_in, commits, prepared_on, aborts, vote_counted, vote_in, first_flag};
ghost use Rattle.dds_call_rows.specs.Library.{applied_on, applied_in, aborted_on, aborted_in, newer_of, newest_of, told_on, told_in};

use crate::attempt::{ask, begin, go_on_with, replies, stays};
use crate::refused::{denied, refused};
use dds_base::brick_list::BrickList;
use dds_base::leaf::Leaf;
use dds_base::memory::Memory;
use dds_base::node_set::NodeSet;
use dds_base::number::{NodeNo, TxnNo};
use dds_base::op::{Met, Reply};
use dds_groups::order::newer;
use dds_history::table::reply_with;
use dds_letters::letter::Letter;
use dds_letters::outbox::Outbox;
use dds_letters::refusal::{Answer, Ballot, Denial};
use dds_states::library_state::{Desk, OpenCall, Phase, Request, Went};
use dds_states::nodes::{NodeList, copy, has, to_each, unknown_members, without};
use std::alloc::Global;

/// The call stays as it is.
pub fn unchanged(alloc: Global, desk: &Desk, call: OpenCall) -> Went
    ensures { result ≡ (stays desk.now [] call).went }
{
    stays(desk, Outbox::new(alloc), call)
}

/// The answer of a get's brick.
fn got_with(
    alloc: Global,
    desk: &mut Desk,
    call: OpenCall,
    from: NodeNo,
    answer: &Answer,
) -> Result<Went, Memory>
    ensures desk { OnOk result (desk.new ≡ (got_with desk.old call from answer.now).desk) }
    ensures went { IfOk result (λ went. went ≡ (got_with desk.old call from answer.now).went) }
{
    match answer {
        Answer::Absent => Ok(replies(alloc, desk, Reply::Absent)),
        Answer::Value(value) => {
            let value = value.copy()?;
            Ok(replies(alloc, desk, Reply::Value(value)))
        }
        Answer::Refused(refusal) => refused(alloc, desk, call.request, from, refusal),
    }
}

/// `Got`: while getting, the answer is the reply.
pub fn got_in(
    alloc: Global,
    desk: &mut Desk,
    call: OpenCall,
    from: NodeNo,
    answer: &Answer,
) -> Result<Went, Memory>
    ensures desk { OnOk result (desk.new ≡ (got_in desk.old call from answer.now call.phase).desk) }
    ensures went { IfOk result (λ went. went ≡ (got_in desk.old call from answer.now call.phase).went) }
{
    match &call.phase {
        Phase::Getting { leaf: _, brick: _ } => got_with(alloc, desk, call, from, answer),
        _ => Ok(unchanged(alloc, desk, call)),
    }
}

/// All members have voted yes: the update is decided, and the live ones are told to commit.
fn commits(
    alloc: Global,
    desk: &Desk,
    call: OpenCall,
    leaf: Leaf,
    list: BrickList,
) -> Result<Went, Memory>
    ensures { IfOk result (λ went. went ≡ (commits desk.now call leaf list).went) }
{
    let OpenCall {
        request,
        txn,
        phase: _,
    } = call;
    let waiting = unknown_members(alloc, &list, &desk.known)?;
    let letters = to_each(alloc, waiting.as_slice(), Letter::Commit { txn })?;
    let phase = Phase::Committing {
        leaf,
        list,
        waiting,
        was: None,
    };
    let call = OpenCall {
        request,
        txn,
        phase,
    };
    Ok(stays(desk, letters, call))
}

/// The call with another phase.
pub fn in_phase(call: OpenCall, phase: Phase) -> OpenCall
    ensures { result ≡ record call { phase = phase } }
{
    OpenCall {
        request: call.request,
        txn: call.txn,
        phase,
    }
}

/// Goes on where no vote is waited for any more.
pub fn prepared_on(
    alloc: Global,
    desk: &Desk,
    call: OpenCall,
    leaf: Leaf,
    list: BrickList,
    waiting: NodeList,
) -> Result<Went, Memory>
    ensures { IfOk result (λ went. went ≡ (prepared_on desk.now call leaf list waiting).went) }
{
    if waiting.is_empty() {
        return commits(alloc, desk, call, leaf, list);
    }
    let phase = Phase::Preparing {
        leaf,
        list,
        waiting,
    };
    Ok(unchanged(alloc, desk, in_phase(call, phase)))
}

/// A member voted no: the live ones are told to abort.
fn aborts(
    alloc: Global,
    desk: &Desk,
    call: OpenCall,
    list: &BrickList,
    from: NodeNo,
    denial: &Denial,
) -> Result<Went, Memory>
    ensures { IfOk result (λ went. went ≡ (aborts desk.now call list.now from denial.now).went) }
{
    let waiting = unknown_members(alloc, list, &desk.known)?;
    let letters = to_each(alloc, waiting.as_slice(), Letter::Abort { txn: call.txn })?;
    let phase = Phase::Aborting {
        waiting,
        denial: *denial,
        brick: from,
    };
    Ok(stays(desk, letters, in_phase(call, phase)))
}

fn vote_counted(
    alloc: Global,
    desk: &Desk,
    call: OpenCall,
    leaf: Leaf,
    list: BrickList,
    waiting: &[NodeNo],
    from: NodeNo,
    vote: &Ballot,
) -> Result<Went, Memory>
    ensures { IfOk result
        (λ went. went ≡ (vote_counted desk.now call leaf list waiting.now from vote.now).went) }
{
    match vote {
        Ballot::Yes => {
            let waiting = without(alloc, waiting, from)?;
            prepared_on(alloc, desk, call, leaf, list, waiting)
        }
        Ballot::No(denial) => aborts(alloc, desk, call, &list, from, denial),
    }
}

/// `Vote`, while preparing, of a member that is waited for.
pub fn vote_in(
    alloc: Global,
    desk: &Desk,
    call: OpenCall,
    from: NodeNo,
    vote: &Ballot,
) -> Result<Went, Memory>
    ensures { IfOk result (λ went. went ≡ (vote_in desk.now call from vote.now call.phase).went) }
{
    let Phase::Preparing {
        leaf,
        list,
        waiting,
    } = &call.phase
    else {
        return Ok(unchanged(alloc, desk, call));
    };
    if !has(waiting.as_slice(), from) {
        return Ok(unchanged(alloc, desk, call));
    }
    let (leaf, list) = (*leaf, *list);
    let waiting = copy(alloc, waiting.as_slice())?;
    vote_counted(
        alloc,
        desk,
        call,
        leaf,
        list,
        waiting.as_slice(),
        from,
        vote,
    )
}

fn applied_on(
    alloc: Global,
    desk: &Desk,
    call: OpenCall,
    leaf: Leaf,
    list: BrickList,
    waiting: NodeList,
    was: bool,
) -> Result<Went, Memory>
    ensures { IfOk result (λ went. went ≡ (applied_on desk.now call leaf list waiting was).went) }
{
    if waiting.is_empty() {
        let answer = reply_with(&call.request.op, was);
        return Ok(replies(alloc, desk, answer));
    }
    let phase = Phase::Committing {
        leaf,
        list,
        waiting,
        was: Some(was),
    };
    Ok(unchanged(alloc, desk, in_phase(call, phase)))
}

/// `Applied`, while committing: the first flag is kept, and is the reply when all have applied.
pub fn applied_in(
    alloc: Global,
    desk: &Desk,
    call: OpenCall,
    from: NodeNo,
    flag: bool,
) -> Result<Went, Memory>
    ensures { IfOk result (λ went. went ≡ (applied_in desk.now call from flag call.phase).went) }
{
    let Phase::Committing {
        leaf,
        list,
        waiting,
        was,
    } = &call.phase
    else {
        return Ok(unchanged(alloc, desk, call));
    };
    let (leaf, list) = (*leaf, *list);
    let was = first_flag(*was, flag);
    let waiting = without(alloc, waiting.as_slice(), from)?;
    applied_on(alloc, desk, call, leaf, list, waiting, was)
}

/// The flag that was kept, or else this one.
fn first_flag(was: Option<bool>, flag: bool) -> bool
    ensures { result ≡ first_flag was flag }
{
    match was {
        None => flag,
        Some(first) => first,
    }
}

pub fn aborted_on(
    alloc: Global,
    desk: &mut Desk,
    call: OpenCall,
    waiting: NodeList,
    denial: Denial,
    brick: NodeNo,
) -> Result<Went, Memory>
    ensures desk { OnOk result (desk.new ≡ (aborted_on desk.old call waiting denial brick).desk) }
    ensures went { IfOk result (λ went. went ≡ (aborted_on desk.old call waiting denial brick).went) }
{
    if waiting.is_empty() {
        return denied(alloc, desk, call.request, brick, &denial);
    }
    let phase = Phase::Aborting {
        waiting,
        denial,
        brick,
    };
    Ok(unchanged(alloc, desk, in_phase(call, phase)))
}

/// `Aborted`, while aborting: when all have aborted the call is refused.
pub fn aborted_in(
    alloc: Global,
    desk: &mut Desk,
    call: OpenCall,
    from: NodeNo,
) -> Result<Went, Memory>
    ensures desk { OnOk result (desk.new ≡ (aborted_in desk.old call from call.phase).desk) }
    ensures went { IfOk result (λ went. went ≡ (aborted_in desk.old call from call.phase).went) }
{
    let Phase::Aborting {
        waiting,
        denial,
        brick,
    } = &call.phase
    else {
        return Ok(unchanged(alloc, desk, call));
    };
    let (denial, brick) = (*denial, *brick);
    let waiting = without(alloc, waiting.as_slice(), from)?;
    aborted_on(alloc, desk, call, waiting, denial, brick)
}

/// The newer of a leaf that was told and the one that was kept.
fn newest_of(told: Option<Leaf>, kept: Option<Leaf>) -> Option<Leaf>
    ensures { result ≡ newest_of told kept }
{
    match told {
        None => kept,
        Some(told) => newer_of(told, kept),
    }
}

fn newer_of(told: Leaf, kept: Option<Leaf>) -> Option<Leaf>
    ensures { result ≡ newer_of told kept }
{
    match kept {
        None => Some(told),
        Some(kept) => {
            if newer(&told, &kept) {
                Some(told)
            } else {
                Some(kept)
            }
        }
    }
}

pub fn told_on(
    alloc: Global,
    desk: &mut Desk,
    call: OpenCall,
    waiting: NodeList,
    newest: Option<Leaf>,
    met: Met,
) -> Result<Went, Memory>
    ensures desk { OnOk result (desk.new ≡ (told_on desk.old call waiting newest met).desk) }
    ensures went { IfOk result (λ went. went ≡ (told_on desk.old call waiting newest met).went) }
{
    if waiting.is_empty() {
        return go_on_with(alloc, desk, call.request, newest, met);
    }
    let phase = Phase::Asking {
        waiting,
        newest,
        met,
    };
    Ok(unchanged(alloc, desk, in_phase(call, phase)))
}

/// `MapTell`, while asking: the newest leaf is kept.
pub fn told_in(
    alloc: Global,
    desk: &mut Desk,
    call: OpenCall,
    from: NodeNo,
    leaf: &Option<Leaf>,
) -> Result<Went, Memory>
    ensures desk { OnOk result (desk.new ≡ (told_in desk.old call from leaf.now call.phase).desk) }
    ensures went { IfOk result (λ went. went ≡ (told_in desk.old call from leaf.now call.phase).went) }
{
    let Phase::Asking {
        waiting,
        newest,
        met,
    } = &call.phase
    else {
        return Ok(unchanged(alloc, desk, call));
    };
    let (newest, met) = (newest_of(*leaf, *newest), *met);
    let waiting = without(alloc, waiting.as_slice(), from)?;
    told_on(alloc, desk, call, waiting, newest, met)
}
