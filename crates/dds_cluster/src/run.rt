//! A run with one step more.

ghost use Rattle.std.specs.Prelude.{◌≡◌, ◌++◌, ◌&&◌, not, slice_get, IfOk, OnOk};
ghost use Rattle.dds_base.specs.Op.{is_get};
ghost use Rattle.dds_cluster.specs.Trace.{all_closed, asked_by, asked_in, closed_by, all_kept, is_applied, kept, next, opened_by};
ghost use Rattle.dds_cluster.specs.Trace.{opened_in, opens, closes, replies_in, told_at, told_by};

use crate::asked_list::AskedList;
use crate::made_list::MadeList;
use crate::possible::is_possible;
use crate::step::{Input, Step};
use crate::told_list::ToldList;
use crate::trace::{Asked, Caller, Happened, Made, Told, Trace};
use dds_base::items::Items;
use dds_base::memory::Memory;
use dds_base::number::{CallNo, CallerNo};
use dds_states::turn::{Replied, ReplyList};
use std::alloc::Global;

/// Makes a step, and gives its answers. A step that isn't possible does nothing.
pub fn next(alloc: Global, trace: &mut Trace, step: &Step) -> Result<ReplyList, Memory>
    ensures trace { OnOk result (trace.new ≡ next trace.old step.now) }
    ensures replies { IfOk result (λ replies. replies ≡ replies_in trace.old step.now) }
{
    if !is_possible(trace, step) {
        trace.steps = trace.steps.checked_add(1).ok_or(Memory)?;
        return Ok(ReplyList::new(alloc));
    }
    let Happened { made, replies } = trace.world.turn(trace.steps, step)?;
    opened_by(&mut trace.callers, step);
    all_closed(&mut trace.callers, replies.as_slice());
    asked_by(trace.steps, step, &mut trace.asked)?;
    all_kept(&mut trace.made, made)?;
    told_at(trace.steps, replies.as_slice(), &mut trace.told)?;
    trace.steps = trace.steps.checked_add(1).ok_or(Memory)?;
    Ok(replies)
}

/// The caller of a step's call has an open call.
fn opened_by(callers: &mut Items<Caller>, step: &Step)
    ensures { callers.new ≡ opened_by callers.old step.now }
{
    if let Step::Input { node: _, input } = step {
        opened_in(callers, input.as_input());
    }
}

fn opened_in(callers: &mut Items<Caller>, input: &Input)
    ensures { callers.new ≡ opened_in callers.old input.now }
{
    if let Input::Call {
        caller,
        call,
        op: _,
    } = input
    {
        opens(callers, *caller, *call);
    }
}

fn opens(callers: &mut Items<Caller>, caller: CallerNo, call: CallNo)
    ensures { callers.new ≡ opens callers.old caller call (slice_get callers.old caller) }
{
    let place = usize::from(caller.number());
    if place >= callers.len() {
        return;
    }
    let was = *callers.at(place);
    callers.replace(
        place,
        Caller {
            library: was.library,
            call: Some(call),
            least: u64::from(call.0) + 1,
        },
    );
}

/// The callers of answered calls have no open call.
fn all_closed(callers: &mut Items<Caller>, replies: &[Replied])
    ensures { callers.new ≡ all_closed callers.old replies.now }
{
    for reply in replies {
        closed_by(callers, reply);
    }
}

fn closed_by(callers: &mut Items<Caller>, reply: &Replied)
    ensures { callers.new ≡ closed_by callers.old reply.now }
{
    if let Replied::Call {
        read: _,
        caller,
        call: _,
        reply: _,
    } = reply
    {
        closes(callers, *caller);
    }
}

fn closes(callers: &mut Items<Caller>, caller: CallerNo)
    ensures { callers.new ≡ closes callers.old caller (slice_get callers.old caller) }
{
    let place = usize::from(caller.number());
    if place >= callers.len() {
        return;
    }
    let was = *callers.at(place);
    callers.replace(
        place,
        Caller {
            library: was.library,
            call: None,
            least: was.least,
        },
    );
}

/// Notes the call that a step makes.
fn asked_by(at: u64, step: &Step, asked: &mut AskedList) -> Result<(), Memory>
    ensures { OnOk result (asked.new ≡ asked.old ++ asked_by at step.now) }
{
    match step {
        Step::Input { node: _, input } => asked_in(at, input.as_input(), asked),
        _ => Ok(()),
    }
}

fn asked_in(at: u64, input: &Input, asked: &mut AskedList) -> Result<(), Memory>
    ensures { OnOk result (asked.new ≡ asked.old ++ asked_in at input.now) }
{
    match input {
        Input::Call { caller, call, op } => asked.push(Asked {
            place: at,
            caller: *caller,
            call: *call,
            op: op.copy()?,
        }),
        Input::Order(_) => Ok(()),
    }
}

/// Keeps reads, and of each attempt's applied points the first.
fn all_kept(made: &mut MadeList, new: Items<Made>) -> Result<(), Memory>
    ensures { OnOk result (made.new ≡ made.old ++ all_kept made.old new) }
{
    for m in new.into_vec() {
        kept(made, m)?;
    }
    Ok(())
}

fn kept(made: &mut MadeList, m: Made) -> Result<(), Memory>
    ensures { OnOk result (made.new ≡ made.old ++ kept made.old m) }
{
    if is_repeated(made, &m) {
        return Ok(());
    }
    made.push(m)
}

/// Whether a point is an update of an attempt that was applied before.
fn is_repeated(made: &MadeList, m: &Made) -> bool
    ensures { result ≡ (not (is_get m.now.entry.op) && is_applied made.now m.now.txn) }
{
    !m.entry.op.is_get() && made.is_applied(m.txn)
}

/// Notes the calls that are answered.
fn told_at(at: u64, replies: &[Replied], told: &mut ToldList) -> Result<(), Memory>
    ensures { OnOk result (told.new ≡ told.old ++ told_at at replies.now) }
{
    for reply in replies {
        told_by(at, reply, told)?;
    }
    Ok(())
}

fn told_by(at: u64, reply: &Replied, told: &mut ToldList) -> Result<(), Memory>
    ensures { OnOk result (told.new ≡ told.old ++ told_by at reply.now) }
{
    match reply {
        Replied::Call {
            read,
            caller,
            call,
            reply,
        } => told.push(Told {
            place: at,
            read: *read,
            caller: *caller,
            call: *call,
            reply: reply.copy()?,
        }),
        Replied::Order(_) => Ok(()),
    }
}
