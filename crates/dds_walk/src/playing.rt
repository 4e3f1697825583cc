//! A walk with one step more.

ghost use Rattle.std.specs.Prelude.{◌≡◌, ◌++◌, None, map, is_some, slice_get, slice_set, slice_index_or, IfOk, OnOk};
ghost use Rattle.std.specs.List.{list_any};
ghost use Rattle.dds_walk.specs.Walk.{is_order_reply, kind_at, kind_in, kind_or_join, lead_in, left, makes, may_note, noted, orders_in, played};
ghost use Rattle.dds_walk.specs.Walk.{plays_some, reply_line, rest_of, says, tries};

use crate::same::{kind_of, lead, node_of};
use crate::walk::{Lead, Walk};
use dds_base::items::Items;
use dds_base::memory::Memory;
use dds_base::number::NodeNo;
use dds_cluster::possible::is_possible;
use dds_cluster::step::{Input, Step};
use dds_cluster::trace::Trace;
use dds_states::turn::{Replied, ReplyList};
use dds_transcript::report_line::{OrderKind, ReportLine};
use std::alloc::Global;

/// Makes a step, and prints its answers.
#[tactic(auto, using(crate::proofs::Noted::orders_noted))]
pub fn play(alloc: Global, walk: &mut Walk, step: Step) -> Result<(), Memory>
    ensures { OnOk result (walk.new ≡ played walk.old step) }
{
    let possible = may_note(walk.trace.as_trace(), &step);
    let kind = kind_at(walk.orders.as_slice(), &step);
    let replies = walk.trace.next(alloc, &step)?;
    let answered = has_order_reply(replies.as_slice());
    note_order(&mut walk.orders, possible, answered, &step);
    print_replies(&mut walk.lines, kind, node_of(&step), replies)?;
    walk.steps.push(step)?;
    Ok(())
}

fn has_order_reply(replies: &[Replied]) -> bool
    ensures { result ≡ list_any is_order_reply replies.now }
{
    replies.iter().any(|reply| is_order_reply(reply))
}

fn is_order_reply(reply: &Replied) -> bool
    ensures { result ≡ is_order_reply reply.now }
{
    matches!(reply, Replied::Order(_))
}

/// Whether the step is an input that is possible. No other step needs it: one that isn't possible answers nothing.
fn may_note(trace: &Trace, step: &Step) -> bool
    ensures { result ≡ may_note trace.now step.now }
{
    match step {
        Step::Input { node: _, input: _ } => is_possible(trace, step),
        _ => false,
    }
}

/// The orders that are open after a step.
fn note_order(orders: &mut Items<Option<OrderKind>>, possible: bool, answered: bool, step: &Step)
    ensures { orders.new ≡ noted orders.old possible answered step.now }
{
    match step {
        Step::Input { node, input } => {
            if possible {
                note_input(orders, *node, answered, input.as_input());
            }
        }
        Step::Handle { node, from: _ } => {
            if answered {
                set_order(orders, *node, None);
            }
        }
        Step::Post { node: _ } => {}
        Step::Stop { node: _ } => {}
    }
}

fn note_input(orders: &mut Items<Option<OrderKind>>, node: NodeNo, answered: bool, input: &Input)
    ensures { orders.new ≡ orders_in orders.old node answered input.now }
{
    match input {
        Input::Call {
            caller: _,
            call: _,
            op: _,
        } => {}
        Input::Order(order) => {
            if !answered {
                set_order(orders, node, Some(kind_of(order)));
            }
        }
    }
}

fn set_order(orders: &mut Items<Option<OrderKind>>, node: NodeNo, kind: Option<OrderKind>)
    ensures { orders.new ≡ slice_set orders.old node kind }
{
    let place = usize::from(node.number());
    if place < orders.len() {
        orders.replace(place, kind);
    }
}

/// The order that a step may answer.
fn kind_at(orders: &[Option<OrderKind>], step: &Step) -> Option<OrderKind>
    ensures { result ≡ kind_at orders.now step.now }
{
    match step {
        Step::Input { node: _, input } => kind_in(input.as_input()),
        Step::Handle { node, from: _ } => kind_of_brick(orders, *node),
        _ => None,
    }
}

fn kind_of_brick(orders: &[Option<OrderKind>], node: NodeNo) -> Option<OrderKind>
    ensures { result ≡ slice_index_or orders.now node None }
{
    let place = usize::from(node.number());
    if place < orders.len() {
        orders[place]
    } else {
        None
    }
}

fn kind_in(input: &Input) -> Option<OrderKind>
    ensures { result ≡ kind_in input.now }
{
    match input {
        Input::Call {
            caller: _,
            call: _,
            op: _,
        } => None,
        Input::Order(order) => Some(kind_of(order)),
    }
}

fn print_replies(
    lines: &mut Items<ReportLine>,
    kind: Option<OrderKind>,
    node: NodeNo,
    replies: ReplyList,
) -> Result<(), Memory>
    ensures { OnOk result (lines.new ≡ lines.old ++ map (reply_line kind node) replies) }
{
    for reply in replies.into_vec() {
        lines.push(reply_line(kind, node, reply))?;
    }
    Ok(())
}

fn reply_line(kind: Option<OrderKind>, node: NodeNo, reply: Replied) -> ReportLine
    ensures { result ≡ reply_line kind node reply }
{
    match reply {
        Replied::Call {
            read: _,
            caller,
            call,
            reply,
        } => ReportLine::Answer {
            caller,
            call,
            reply,
        },
        Replied::Order(reply) => ReportLine::OrderAnswer {
            kind: kind_or_join(kind),
            brick: node,
            reply,
        },
    }
}

fn kind_or_join(kind: Option<OrderKind>) -> OrderKind
    ensures { result ≡ kind_or_join kind }
{
    match kind {
        Some(kind) => kind,
        None => OrderKind::Join,
    }
}

/// Prints a line.
pub fn say(walk: &mut Walk, line: ReportLine) -> Result<(), Memory>
    ensures { OnOk result (walk.new ≡ says walk.old line) }
{
    walk.lines.push(line)
}

/// Makes the step that the script determines, and whether it was made: along a journal only where that has it.
pub fn make(alloc: Global, walk: &mut Walk, step: Step) -> Result<bool, Memory>
    ensures walk { OnOk result (walk.new ≡ tries walk.old step) }
    ensures made { IfOk result (λ made. made ≡ is_some (makes walk.old step)) }
{
    match lead_of(walk, &step) {
        Lead::Astray => Ok(false),
        Lead::Next => {
            play_next(alloc, walk, step)?;
            Ok(true)
        }
        Lead::Behind => {
            play_behind(alloc, walk, step)?;
            Ok(true)
        }
    }
}

/// Makes a step that the journal has next.
fn play_next(alloc: Global, walk: &mut Walk, step: Step) -> Result<(), Memory>
    ensures { OnOk result (walk.new ≡ played (left walk.old) step) }
{
    skip(walk);
    play(alloc, walk, step)
}

/// Makes a step that the journal has behind a stop.
fn play_behind(alloc: Global, walk: &mut Walk, step: Step) -> Result<(), Memory>
    ensures { OnOk result
        (walk.new ≡ played (plays_some (left (left walk.old)) (slice_get (rest_of walk.old.rest) 0)) step) }
{
    let stop = leave(walk);
    skip(walk);
    play_some(alloc, walk, stop)?;
    play(alloc, walk, step)
}

/// Leaves the first step of the journal that is followed out.
fn skip(walk: &mut Walk)
    ensures { walk.new ≡ left walk.old }
{
    leave(walk);
}

fn lead_of(walk: &Walk, step: &Step) -> Lead
    ensures { result ≡ lead_in walk.now.rest step.now }
{
    match &walk.rest {
        None => Lead::Next,
        Some(rest) => lead(rest, step),
    }
}

/// Takes the first step of the journal that is followed, if one is.
fn leave(walk: &mut Walk) -> Option<Step>
    ensures first { result ≡ slice_get (rest_of walk.old.rest) 0 }
    ensures rest { walk.new ≡ left walk.old }
{
    match &mut walk.rest {
        None => None,
        Some(rest) => rest.pop(),
    }
}

fn play_some(alloc: Global, walk: &mut Walk, step: Option<Step>) -> Result<(), Memory>
    ensures { OnOk result (walk.new ≡ plays_some walk.old step) }
{
    match step {
        None => Ok(()),
        Some(step) => play(alloc, walk, step),
    }
}
