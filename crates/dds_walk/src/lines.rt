//! What each line of a script does.

ghost use Rattle.std.specs.Prelude.{◌≡◌, ◌+◌, ◌++◌, Option, is_some, option_copied, slice_get, slice_set, slice_index_or, IfOk, OnOk};
ghost use Rattle.std.specs.List.{list_any};
ghost use Rattle.dds_cluster.specs.declared.step.Step.TheVariants as step;
ghost use Rattle.dds_cluster.specs.declared.step.Input.TheVariants as input;
ghost use Rattle.dds_walk.specs.Walk.{call_alone, call_along, call_line, call_with, counted, line_done, lines_done, makes_call};
ghost use Rattle.dds_walk.specs.Walk.{makes_call_at, plays_to, rest_of, step_line, stop_line, tries};

use crate::moving::{events_line, quiet_line};
use crate::picking::Picking;
use crate::playing::{make, play, say};
use crate::same::makes_call;
use crate::showing::show_line;
use crate::walk::Walk;
use dds_base::items::Items;
use dds_base::memory::Memory;
use dds_base::number::{CallNo, CallerNo, NodeNo};
use dds_base::op::{Op, Order};
use dds_cluster::possible::is_possible;
use dds_cluster::queue::Queue;
use dds_cluster::step::{BoxedInput, Input, Step};
use dds_cluster::trace::Caller;
use dds_script::line::Line;
use dds_transcript::report_line::ReportLine;
use std::alloc::Global;

/// Walks lines, one after another. A `quiet` makes at most so many events.
pub fn lines_done(alloc: Global, walk: &mut Walk, limit: u64, lines: &[Line]) -> Result<(), Memory>
    ensures { OnOk result (walk.new ≡ lines_done limit walk.old lines.now) }
{
    for line in lines {
        line_done(alloc, walk, limit, line)?;
    }
    Ok(())
}

fn line_done(alloc: Global, walk: &mut Walk, limit: u64, line: &Line) -> Result<(), Memory>
    ensures { OnOk result (walk.new ≡ line_done limit walk.old line.now) }
{
    match line {
        Line::Call { caller, op } => call_line(alloc, walk, *caller, op),
        Line::Stop { node } => stop_line(alloc, walk, *node),
        Line::Join { brick, name, via } => {
            let order = Order::Join {
                brick: *brick,
                name: *name,
                via: *via,
            };
            order_line(alloc, walk, *brick, order)
        }
        Line::Split { brick, name } => {
            let order = Order::Split {
                brick: *brick,
                name: *name,
            };
            order_line(alloc, walk, *brick, order)
        }
        Line::Pick(picker) => pick_line(walk, Picking::begin(*picker)),
        Line::Events(limit) => events_line(alloc, walk, u64::from(*limit)),
        Line::Quiet => quiet_line(alloc, walk, limit),
        Line::Post { node } => {
            step_line(alloc, walk, Step::Post { node: *node }, ReportLine::NoPost)
        }
        Line::Take { node, from } => {
            let step = Step::Handle {
                node: *node,
                from: *from,
            };
            step_line(alloc, walk, step, ReportLine::NoTake)
        }
        Line::Show { brick } => show_line(alloc, walk, *brick),
        Line::Nothing => Ok(()),
    }
}

fn pick_line(walk: &mut Walk, picking: Picking) -> Result<(), Memory>
    ensures { OnOk result (walk.new ≡ record walk.old { picking = picking }) }
{
    walk.picking = picking;
    Ok(())
}

/// Makes a step that the script determines, where the journal that is followed has it.
fn attempt(alloc: Global, walk: &mut Walk, step: Step) -> Result<(), Memory>
    ensures { OnOk result (walk.new ≡ tries walk.old step) }
{
    make(alloc, walk, step)?;
    Ok(())
}

fn order_line(alloc: Global, walk: &mut Walk, brick: NodeNo, order: Order) -> Result<(), Memory>
    ensures { OnOk result (walk.new ≡ tries walk.old (step.Input brick (input.Order order))) }
{
    let step = Step::Input {
        node: brick,
        input: BoxedInput::new(alloc, Input::Order(order))?,
    };
    attempt(alloc, walk, step)
}

fn stop_line(alloc: Global, walk: &mut Walk, node: NodeNo) -> Result<(), Memory>
    ensures { OnOk result (walk.new ≡ stop_line walk.old node) }
{
    let step = Step::Stop { node };
    if is_possible(walk.trace.as_trace(), &step) {
        return attempt(alloc, walk, step);
    }
    Ok(())
}

fn step_line(alloc: Global, walk: &mut Walk, step: Step, no: ReportLine) -> Result<(), Memory>
    ensures { OnOk result (walk.new ≡ step_line walk.old step no) }
{
    if is_possible(walk.trace.as_trace(), &step) {
        return attempt(alloc, walk, step);
    }
    say(walk, no)
}

fn call_line(alloc: Global, walk: &mut Walk, caller: CallerNo, op: &Op) -> Result<(), Memory>
    ensures { OnOk result (walk.new ≡ call_line walk.old caller op.now) }
{
    let call = CallNo(count_call(&mut walk.counts, caller)?);
    if walk.rest.is_some() {
        call_along(alloc, walk, caller, call)
    } else {
        call_alone(alloc, walk, caller, call, op)
    }
}

/// Counts a call line, and gives its number among the caller's.
fn count_call(counts: &mut Items<u32>, caller: CallerNo) -> Result<u32, Memory>
    ensures counts { OnOk result (counts.new ≡ slice_set counts.old caller (slice_index_or counts.old caller 0 + 1)) }
    ensures number { IfOk result (λ number. number ≡ slice_index_or counts.old caller 0) }
{
    let place = usize::from(caller.number());
    if place >= counts.len() {
        return Ok(0);
    }
    let number = *counts.at(place);
    counts.replace(place, number.checked_add(1).ok_or(Memory)?);
    Ok(number)
}

/// A call line of a walk that follows no journal.
fn call_alone(
    alloc: Global,
    walk: &mut Walk,
    caller: CallerNo,
    call: CallNo,
    op: &Op,
) -> Result<(), Memory>
    ensures { OnOk result (walk.new ≡ call_alone walk.old caller call op.now (slice_get walk.old.trace.callers caller)) }
{
    let Some(state) = state_of(walk.trace.as_trace().callers.as_slice(), caller) else {
        return Ok(());
    };
    if state.call.is_some() {
        return say(walk, ReportLine::Busy { caller, call });
    }
    let op = op.copy()?;
    let step = Step::Input {
        node: state.library,
        input: BoxedInput::new(alloc, Input::Call { caller, call, op })?,
    };
    play(alloc, walk, step)
}

fn state_of(callers: &[Caller], caller: CallerNo) -> Option<Caller>
    ensures { result ≡ slice_get callers.now caller }
{
    callers.get(usize::from(caller.number())).copied()
}

/// A call line of a walk along a journal.
fn call_along(alloc: Global, walk: &mut Walk, caller: CallerNo, call: CallNo) -> Result<(), Memory>
    ensures { OnOk result (walk.new ≡ call_along walk.old caller call (rest_of walk.old.rest)) }
{
    if walk.trace.as_trace().asked.is_asked(caller, call) {
        return Ok(());
    }
    if has_call(&walk.rest, caller, call) {
        play_to(alloc, walk, caller, call)
    } else {
        say(walk, ReportLine::Busy { caller, call })
    }
}

/// Whether the input of a call is among what is left of the journal.
fn has_call(rest: &Option<Queue<Step>>, caller: CallerNo, call: CallNo) -> bool
    ensures { result ≡ list_any (makes_call caller call) (rest_of rest.now) }
{
    match rest {
        None => false,
        Some(rest) => has_input(rest, caller, call),
    }
}

fn has_input(rest: &Queue<Step>, caller: CallerNo, call: CallNo) -> bool
    ensures { result ≡ list_any (makes_call caller call) rest.now }
{
    for place in 0..rest.len() {
        if is_call_at(rest, place, caller, call) {
            return true;
        }
    }
    false
}

fn is_call_at(rest: &Queue<Step>, place: usize, caller: CallerNo, call: CallNo) -> bool
    ensures { result ≡ makes_call_at caller call (slice_get rest.now place) }
{
    match rest.at(place) {
        Some(step) => makes_call(step, caller, call),
        None => false,
    }
}

/// Makes the journal's steps up to the input of a call, this one included.
fn play_to(alloc: Global, walk: &mut Walk, caller: CallerNo, call: CallNo) -> Result<(), Memory>
    ensures { OnOk result (walk.new ≡ plays_to caller call (rest_of walk.old.rest) (record walk.old { rest = None })) }
{
    let mut rest = take_rest(alloc, walk);
    'playing: while let Some(step) = rest.pop() {
        let found = makes_call(&step, caller, call);
        play(alloc, walk, step)?;
        if found {
            walk.rest = Some(rest);
            return Ok(());
        }
    }
    walk.rest = Some(rest);
    Ok(())
}

/// Takes what is left of the journal out of the walk.
pub fn take_rest(alloc: Global, walk: &mut Walk) -> Queue<Step>
    ensures rest { result ≡ rest_of walk.old.rest }
    ensures walk { walk.new ≡ record walk.old { rest = None } }
{
    match walk.rest.take() {
        Some(rest) => rest,
        None => Queue::new(alloc),
    }
}
