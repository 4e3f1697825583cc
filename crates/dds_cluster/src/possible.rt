//! When a step is possible.

ghost use Rattle.std.specs.Prelude.{◌≡◌, option_copied, nat_lt, length};
ghost use Rattle.dds_cluster.specs.World.{is_node};
ghost use Rattle.dds_cluster.specs.Trace.{is_live, may_call, may_order, may_input, may_handle, may_post, is_possible};

use crate::cluster::Cluster;
use crate::step::{Input, Step};
use crate::trace::{Caller, Trace};
use dds_base::number::{CallNo, NodeNo};
use dds_base::op::Order;

/// Whether the step is possible where the run stands.
pub fn is_possible(trace: &Trace, step: &Step) -> bool
    ensures { result ≡ is_possible trace.now step.now }
{
    match step {
        Step::Input { node, input } => may_input(trace, *node, input.as_input()),
        Step::Handle { node, from } => may_handle(&trace.world, *node, *from),
        Step::Post { node } => may_post(&trace.world, *node),
        Step::Stop { node } => is_live(&trace.world, *node),
    }
}

fn is_node(world: &Cluster, node: NodeNo) -> bool
    ensures { result ≡ is_node world.now node }
{
    if node.is_brick() {
        world.brick(node).is_some()
    } else {
        world.library(node).is_some()
    }
}

fn is_live(world: &Cluster, node: NodeNo) -> bool
    ensures { result ≡ is_live world.now node }
{
    if let Some(brick) = world.brick(node) {
        return !brick.stopped;
    }
    match world.library(node) {
        Some(library) => !library.stopped,
        None => false,
    }
}

fn may_post(world: &Cluster, node: NodeNo) -> bool
    ensures { result ≡ may_post world.now node }
{
    is_node(world, node) && world.outbox_first(world.place(node)).is_some()
}

fn may_handle(world: &Cluster, node: NodeNo, from: NodeNo) -> bool
    ensures { result ≡ may_handle world.now node from }
{
    is_node(world, node)
        && is_node(world, from)
        && world
            .link_first(world.place(from), world.place(node))
            .is_some()
}

fn may_input(trace: &Trace, node: NodeNo, input: &Input) -> bool
    ensures { result ≡ may_input trace.now node input.now }
{
    match input {
        Input::Call {
            caller,
            call,
            op: _,
        } => {
            let place = usize::from(caller.number());
            may_call(trace.callers.as_slice().get(place), node, *call)
        }
        Input::Order(order) => may_order(&trace.world, node, order),
    }
}

fn may_call(caller: Option<&Caller>, node: NodeNo, call: CallNo) -> bool
    ensures { result ≡ may_call (option_copied caller.entry) node call }
{
    match caller {
        None => false,
        Some(caller) => {
            caller.library == node && caller.call.is_none() && caller.least <= u64::from(call.0)
        }
    }
}

fn may_order(world: &Cluster, node: NodeNo, order: &Order) -> bool
    ensures { result ≡ may_order world.now node order.now }
{
    match order {
        Order::Join {
            brick,
            name: _,
            via,
        } => *brick == node && is_brick_of(world, node) && is_brick_of(world, *via),
        Order::Split { brick, name: _ } => *brick == node && is_brick_of(world, node),
    }
}

fn is_brick_of(world: &Cluster, node: NodeNo) -> bool
    ensures { result ≡ nat_lt node (length world.now.bricks) }
{
    usize::from(node.number()) < world.bricks()
}
