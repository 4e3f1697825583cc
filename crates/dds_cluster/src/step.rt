//! The steps of the cluster.

ghost use Rattle.std.specs.Prelude.{◌≡◌, IfOk};

use dds_base::items::Items;
use dds_base::memory::Memory;
use dds_base::number::{CallNo, CallerNo, NodeNo};
use dds_base::op::{Op, Order};
use dds_letters::letter::Letter;
use std::alloc::Global;
use std::marker::Model;

/// The most events of a `quiet` or `events` line.
pub const EVENTS: u64 = 1_000_000;

/// What comes to a node from outside.
#[derive(Debug, Drop)]
pub enum Input {
    Call {
        caller: CallerNo,
        call: CallNo,
        op: Op,
    },
    Order(Order),
}

/// An input on the heap, so that steps are small: most of a journal are none. Contracts see the input.
#[derive(Debug, Drop)]
pub struct BoxedInput {
    content: Box<Input>,
}

impl Model for BoxedInput {
    ghost use Rattle.dds_cluster.specs.declared.step.Input.{Input};
    ghost use Rattle.dds_cluster.specs.contracts.step.Input as input;

    ghost Value = { Input };

    ghost coded = { input.the_row.coded };

    ghost view = { λ a. a.content.value };
}

impl BoxedInput {
    pub fn new(alloc: Global, input: Input) -> Result<BoxedInput, Memory>
        ensures { IfOk result (λ boxed. boxed ≡ input) }
    {
        Ok(BoxedInput {
            content: Box::new(alloc, input)?,
        })
    }

    pub fn as_input(&self) -> &Input
        ensures { result.now ≡ self.now }
    {
        &self.content
    }
}

/// One event. `Input` gives a node a call or an order; `Handle` takes the first letter of the link from `from` to the
/// node; `Post` moves the first letter of the node's outbox to its link; `Stop` stops the node, of which its notices,
/// the last letters on its links, tell the others.
#[derive(Debug, Drop)]
pub enum Step {
    Input { node: NodeNo, input: BoxedInput },
    Handle { node: NodeNo, from: NodeNo },
    Post { node: NodeNo },
    Stop { node: NodeNo },
}

/// Steps in their order.
pub type Journal = Items<Step>;

/// A letter in an outbox or on a link, with its receiver. Its number is counted over the cluster from 0 in the order of
/// making.
#[derive(Debug, Drop)]
pub struct Message {
    pub number: u64,
    pub to: NodeNo,
    pub letter: Letter,
}
