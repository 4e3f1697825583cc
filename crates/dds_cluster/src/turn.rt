//! The steps of a cluster: each does what its definition says.

ghost use Rattle.std.specs.Prelude.{◌≡◌, ◌+◌, ◌-◌, ◌++◌, ◌<◌, [], None, drop, length, slice_get, IfOk, OnOk, OnSome, IfNone};
ghost use Rattle.dds_cluster.specs.World.{numbered, place, link, set_link, outbox, brick_at, library_at};
ghost use Rattle.dds_cluster.specs.Turn.{at_node, at_library, node_does, handle, post, call_at, order_at, input_at, stop, stop_at, stop_library, tells, turn};

use crate::cluster::Cluster;
use crate::framed::Framed;
use crate::points::points_made;
use crate::queue::Queue;
use crate::step::{Input, Message, Step};
use crate::stopping::{emptied, notices};
use crate::trace::{Happened, Made};
use dds_base::items::Items;
use dds_base::memory::Memory;
use dds_base::number::{CallNo, CallerNo, NodeNo};
use dds_base::op::{Op, Order};
use dds_core::brick::{brick_input, brick_turn};
use dds_core::library::{library_input, library_turn};
use dds_letters::letter::Letter;
use dds_letters::outbox::Outbox;
use dds_states::turn::{CoreTurn, ReplyList};
use std::alloc::Global;

impl Cluster {
    /// Makes the step that stands at this place of the journal; where it isn't possible, nothing is said of the cluster
    /// beyond its definition.
    pub fn turn(&mut self, at: u64, step: &Step) -> Result<Happened, Memory>
        ensures world { OnOk result (self.new ≡ (turn at self.old step.now).world) }
        ensures made { IfOk result (λ happened. happened.made ≡ (turn at self.old step.now).made) }
        ensures replies { IfOk result (λ happened. happened.replies ≡ (turn at self.old step.now).replies) }
    {
        match step {
            Step::Input { node, input } => self.input(*node, input.as_input()),
            Step::Handle { node, from } => self.handle(at, *node, *from),
            Step::Post { node } => self.post(*node),
            Step::Stop { node } => self.stop(*node),
        }
    }

    fn input(&mut self, node: NodeNo, input: &Input) -> Result<Happened, Memory>
        ensures world { OnOk result (self.new ≡ (input_at self.old node input.now).world) }
        ensures made { IfOk result (λ happened. happened.made ≡ (input_at self.old node input.now).made) }
        ensures replies { IfOk result (λ happened. happened.replies ≡ (input_at self.old node input.now).replies) }
    {
        match input {
            Input::Call { caller, call, op } => self.call(node, *caller, *call, op),
            Input::Order(order) => self.order(node, order),
        }
    }

    fn call(
        &mut self,
        node: NodeNo,
        caller: CallerNo,
        call: CallNo,
        op: &Op,
    ) -> Result<Happened, Memory>
        ensures world { OnOk result
            (self.new ≡ (call_at self.old node caller call op.now (library_at self.old node)).world) }
        ensures made { IfOk result (λ happened. happened.made ≡ (call_at self.old node caller call op.now (library_at self.old node)).made) }
        ensures replies { IfOk result
            (λ happened. happened.replies
            ≡ (call_at self.old node caller call op.now (library_at self.old node)).replies) }
    {
        let Some(library) = self.library_place(node) else {
            return Ok(Happened::nothing(self.alloc));
        };
        let place = self.bricks.len() + library;
        let CoreTurn {
            letters,
            points: _,
            replies,
        } = library_input(self.alloc, &mut self.libraries[library], caller, call, op)?;
        append(&mut self.outboxes[place], &mut self.made, letters)?;
        Ok(Happened {
            made: Items::new(self.alloc),
            replies,
        })
    }

    fn order(&mut self, node: NodeNo, order: &Order) -> Result<Happened, Memory>
        ensures world { OnOk result (self.new ≡ (order_at self.old node order.now (brick_at self.old node)).world) }
        ensures made { IfOk result (λ happened. happened.made ≡ (order_at self.old node order.now (brick_at self.old node)).made) }
        ensures replies { IfOk result
            (λ happened. happened.replies ≡ (order_at self.old node order.now (brick_at self.old node)).replies) }
    {
        let Some(brick) = self.brick_place(node) else {
            return Ok(Happened::nothing(self.alloc));
        };
        let CoreTurn {
            letters,
            points: _,
            replies,
        } = brick_input(self.alloc, &mut self.bricks[brick], order)?;
        append(&mut self.outboxes[brick], &mut self.made, letters)?;
        Ok(Happened {
            made: Items::new(self.alloc),
            replies,
        })
    }

    /// Takes the first letter of the link from `from` to a node, which does what its rows say of it; nothing where the
    /// link is empty.
    fn handle(&mut self, at: u64, node: NodeNo, from: NodeNo) -> Result<Happened, Memory>
        ensures world { OnOk result (self.new ≡ (handle self.old at node from (link self.old from node)).world) }
        ensures made { IfOk result (λ happened. happened.made ≡ (handle self.old at node from (link self.old from node)).made) }
        ensures replies { IfOk result
            (λ happened. happened.replies ≡ (handle self.old at node from (link self.old from node)).replies) }
    {
        let Some(framed) = self.take(node, from) else {
            return Ok(Happened::nothing(self.alloc));
        };
        let letter = framed.letter(self.alloc)?;
        self.does(at, node, from, &letter)
    }

    /// A node does what its rows say of a letter.
    fn does(
        &mut self,
        at: u64,
        node: NodeNo,
        from: NodeNo,
        letter: &Letter,
    ) -> Result<Happened, Memory>
        ensures world { OnOk result (self.new ≡ (node_does self.old at node from letter.now).world) }
        ensures made { IfOk result (λ happened. happened.made ≡ (node_does self.old at node from letter.now).made) }
        ensures replies { IfOk result (λ happened. happened.replies ≡ (node_does self.old at node from letter.now).replies) }
    {
        match self.brick_place(node) {
            Some(brick) => self.brick_handles(at, brick, node, from, letter),
            None => self.library_handles(node, from, letter),
        }
    }

    /// Moves the first letter of a node's outbox to its link; nothing where the outbox is empty.
    fn post(&mut self, node: NodeNo) -> Result<Happened, Memory>
        ensures world { OnOk result (self.new ≡ (post self.old node (outbox self.old node)).world) }
        ensures made { IfOk result (λ happened. happened.made ≡ (post self.old node (outbox self.old node)).made) }
        ensures replies { IfOk result (λ happened. happened.replies ≡ (post self.old node (outbox self.old node)).replies) }
    {
        let place = self.place(node);
        if place >= self.outboxes.len() {
            return Ok(Happened::nothing(self.alloc));
        }
        let Some(message) = self.outboxes[place].at(0) else {
            return Ok(Happened::nothing(self.alloc));
        };
        let receiver = self.place(message.to);
        let framed = Framed::of(self.alloc, message)?;
        self.outboxes[place].pop();
        self.links[place].push(receiver, framed)?;
        Ok(Happened::nothing(self.alloc))
    }
}

impl Cluster {
    /// Stops a node; nothing where it is none of the cluster.
    fn stop(&mut self, node: NodeNo) -> Result<Happened, Memory>
        ensures world { OnOk result (self.new ≡ (stop self.old node).world) }
        ensures made { IfOk result (λ happened. happened.made ≡ (stop self.old node).made) }
        ensures replies { IfOk result (λ happened. happened.replies ≡ (stop self.old node).replies) }
    {
        match self.brick_place(node) {
            Some(brick) => self.stop_brick(node, brick)?,
            None => self.stop_library(node)?,
        }
        Ok(Happened::nothing(self.alloc))
    }

    fn stop_brick(&mut self, node: NodeNo, brick: usize) -> Result<(), Memory>
        requires number { brick ≡ node }
        requires inside { brick < length self.old.bricks }
        requires there { brick_at self.old node ≡ slice_get self.old.bricks brick }
        ensures { OnOk result (self.new ≡ stop_at self.old node (brick_at self.old node)) }
    {
        let number = self.bricks[brick].number;
        self.bricks[brick] = emptied(self.alloc, number)?;
        self.tell(node, brick)
    }

    fn stop_library(&mut self, node: NodeNo) -> Result<(), Memory>
        ensures { OnOk result (self.new ≡ stop_library self.old node (library_at self.old node)) }
    {
        let Some(library) = self.library_place(node) else {
            return Ok(());
        };
        self.libraries[library].stopped = true;
        let place = self.bricks.len() + library;
        self.tell(node, place)
    }

    /// Puts the notices of a node in the place of what its outbox holds.
    fn tell(&mut self, node: NodeNo, at: usize) -> Result<(), Memory>
        requires at { at ≡ place self.old node }
        requires inside { at < length self.old.outboxes }
        ensures { OnOk result (self.new ≡ tells self.old node) }
    {
        let letters = notices(self.alloc, self.bricks.len(), self.libraries.len(), node)?;
        self.outboxes[at] = Queue::new(self.alloc);
        append(&mut self.outboxes[at], &mut self.made, letters)
    }

    /// A brick does what its rows say of a letter.
    fn brick_handles(
        &mut self,
        at: u64,
        brick: usize,
        node: NodeNo,
        from: NodeNo,
        letter: &Letter,
    ) -> Result<Happened, Memory>
        requires number { brick ≡ node }
        requires inside { brick < length self.old.bricks }
        requires there { brick_at self.old node ≡ slice_get self.old.bricks brick }
        ensures world { OnOk result (self.new ≡ (at_node self.old at node from letter.now (brick_at self.old node)).world) }
        ensures made { IfOk result (λ happened. happened.made ≡ (at_node self.old at node from letter.now (brick_at self.old node)).made) }
        ensures replies { IfOk result
            (λ happened. happened.replies ≡ (at_node self.old at node from letter.now (brick_at self.old node)).replies) }
    {
        let CoreTurn {
            letters,
            points,
            replies,
        } = brick_turn(self.alloc, &mut self.bricks[brick], from, letter)?;
        let made = points_made(self.alloc, at, letter, points)?;
        append(&mut self.outboxes[brick], &mut self.made, letters)?;
        Ok(Happened { made, replies })
    }

    /// A library does what its rows say of a letter.
    fn library_handles(
        &mut self,
        node: NodeNo,
        from: NodeNo,
        letter: &Letter,
    ) -> Result<Happened, Memory>
        ensures world { OnOk result (self.new ≡ (at_library self.old node from letter.now (library_at self.old node)).world) }
        ensures made { IfOk result (λ happened. happened.made ≡ (at_library self.old node from letter.now (library_at self.old node)).made) }
        ensures replies { IfOk result
            (λ happened. happened.replies ≡ (at_library self.old node from letter.now (library_at self.old node)).replies) }
    {
        let Some(library) = self.library_place(node) else {
            return Ok(Happened::nothing(self.alloc));
        };
        let place = self.bricks.len() + library;
        let CoreTurn {
            letters,
            points: _,
            replies,
        } = library_turn(self.alloc, &mut self.libraries[library], from, letter)?;
        append(&mut self.outboxes[place], &mut self.made, letters)?;
        Ok(Happened {
            made: Items::new(self.alloc),
            replies,
        })
    }

    /// Takes the first message of a link.
    fn take(&mut self, node: NodeNo, from: NodeNo) -> Option<Framed>
        ensures first { result ≡ slice_get (link self.old from node) 0 }
        ensures rest { OnSome result (self.new ≡ set_link self.old from node (drop 1 (link self.old from node))) }
        ensures none { IfNone result (self.new ≡ self.old) }
    {
        let to = self.place(node);
        let place = self.place(from);
        if place < self.links.len() {
            self.links[place].pop(to)
        } else {
            None
        }
    }
}

/// Leaves letters in an outbox, and numbers them.
fn append(outbox: &mut Queue<Message>, made: &mut u64, mut letters: Outbox) -> Result<(), Memory>
    ensures outbox { OnOk result (outbox.new ≡ outbox.old ++ numbered made.old letters) }
    ensures made { OnOk result (made.new ≡ made.old + length letters) }
{
    while let Some((to, letter)) = letters.pop() {
        outbox.push(Message {
            number: *made,
            to,
            letter,
        })?;
        *made = made.checked_add(1).ok_or(Memory)?;
    }
    Ok(())
}
