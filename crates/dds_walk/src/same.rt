//! Steps that are the same, and how a journal has a step.

ghost use Rattle.std.specs.Prelude.{◌≡◌, ◌==◌};
ghost use Rattle.dds_walk.specs.Walk.{is_input_of, is_stop_before, kind_of, lead, makes_call, node_of, same_input, same_order, same_step};

use crate::walk::Lead;
use dds_base::number::{CallNo, CallerNo, NodeNo};
use dds_base::op::Order;
use dds_cluster::queue::Queue;
use dds_cluster::step::{Input, Step};
use dds_groups::order::same_name;
use dds_transcript::report_line::OrderKind;

/// The kind of an order.
pub fn kind_of(order: &Order) -> OrderKind
    ensures { result ≡ kind_of order.now }
{
    match order {
        Order::Join {
            brick: _,
            name: _,
            via: _,
        } => OrderKind::Join,
        Order::Split { brick: _, name: _ } => OrderKind::Split,
    }
}

/// The node at which a step is made.
pub fn node_of(step: &Step) -> NodeNo
    ensures { result ≡ node_of step.now }
{
    match step {
        Step::Input { node, input: _ } => *node,
        Step::Handle { node, from: _ } => *node,
        Step::Post { node } => *node,
        Step::Stop { node } => *node,
    }
}

/// How the journal that is followed has a step.
pub fn lead(rest: &Queue<Step>, step: &Step) -> Lead
    ensures { result ≡ lead rest.now step.now }
{
    let Some(first) = rest.at(0) else {
        return Lead::Astray;
    };
    if same_step(first, step) {
        return Lead::Next;
    }
    let Some(second) = rest.at(1) else {
        return Lead::Astray;
    };
    if is_stop_before(first, step) && same_step(second, step) {
        Lead::Behind
    } else {
        Lead::Astray
    }
}

/// Whether the first step is a stop of the node at which the other one is an input or takes a letter.
fn is_stop_before(stop: &Step, step: &Step) -> bool
    ensures { result ≡ is_stop_before stop.now step.now }
{
    match (stop, step) {
        (Step::Stop { node: a }, Step::Input { node: b, input: _ }) => *a == *b,
        (Step::Stop { node: a }, Step::Handle { node: b, from: _ }) => *a == *b,
        _ => false,
    }
}

/// Whether both are the same step; a call's input by its caller and its number.
pub fn same_step(step: &Step, other: &Step) -> bool
    ensures { result ≡ same_step step.now other.now }
{
    match (step, other) {
        (Step::Input { node: a, input: i }, Step::Input { node: b, input: j }) => {
            *a == *b && same_input(i.as_input(), j.as_input())
        }
        (
            Step::Handle { node: a, from },
            Step::Handle {
                node: b,
                from: source,
            },
        ) => { *a == *b && *from == *source }
        (Step::Post { node: a }, Step::Post { node: b }) => *a == *b,
        (Step::Stop { node: a }, Step::Stop { node: b }) => *a == *b,
        _ => false,
    }
}

fn same_input(input: &Input, other: &Input) -> bool
    ensures { result ≡ same_input input.now other.now }
{
    match (input, other) {
        (
            Input::Call {
                caller: a,
                call: m,
                op: _,
            },
            Input::Call {
                caller: b,
                call: n,
                op: _,
            },
        ) => *a == *b && m.0 == n.0,
        (Input::Order(a), Input::Order(b)) => same_order(a, b),
        _ => false,
    }
}

fn same_order(order: &Order, other: &Order) -> bool
    ensures { result ≡ same_order order.now other.now }
{
    match (order, other) {
        (
            Order::Join {
                brick: a,
                name,
                via,
            },
            Order::Join {
                brick: b,
                name: other,
                via: way,
            },
        ) => *a == *b && same_name(name, other) && *via == *way,
        (
            Order::Split { brick: a, name },
            Order::Split {
                brick: b,
                name: other,
            },
        ) => { *a == *b && same_name(name, other) }
        _ => false,
    }
}

/// Whether the step is the input of a call.
pub fn makes_call(step: &Step, caller: CallerNo, call: CallNo) -> bool
    ensures { result ≡ makes_call caller call step.now }
{
    match step {
        Step::Input { node: _, input } => is_input_of(input.as_input(), caller, call),
        _ => false,
    }
}

fn is_input_of(input: &Input, caller: CallerNo, call: CallNo) -> bool
    ensures { result ≡ is_input_of caller call input.now }
{
    match input {
        Input::Call {
            caller: c,
            call: n,
            op: _,
        } => *c == caller && n.0 == call.0,
        Input::Order(_) => false,
    }
}
