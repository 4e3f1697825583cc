//! The links from one node to all nodes, by the receivers' places. They hold frames.

ghost use Rattle.std.specs.Prelude.{◌≡◌, ◌++◌, [], ◌∷◌, drop, replicate, slice_get, slice_set, slice_index_or, option_copied, length, IfOk, OnOk};

use crate::framed::Framed;
use crate::queue::Queue;
use dds_base::memory::Memory;
use std::alloc::Global;
use std::marker::Model;

/// A link to each node. A message for a place beyond the last node is dropped.
#[derive(Drop)]
pub struct Links {
    queues: Vec<Queue<Framed>>,
}

impl Model for Links {
    ghost use Rattle.std.specs.Prelude.{List};
    ghost use Rattle.dds_cluster.specs.declared.step.Message.{Message};

    ghost Value = { List (List Message) };

    ghost view = { λ a. a.queues.items };
}

impl Links {
    pub fn new(alloc: Global, nodes: usize) -> Result<Links, Memory>
        ensures { IfOk result (λ links. links ≡ replicate nodes []) }
    {
        let mut queues = Vec::new(alloc);
        for _place in 0..nodes {
            queues.push(Queue::new(alloc))?;
        }
        Ok(Links { queues })
    }

    pub fn push(&mut self, place: usize, message: Framed) -> Result<(), Memory>
        ensures ok { OnOk result (self.new ≡ slice_set self.old place (slice_index_or self.old place [] ++ message ∷ [])) }
    {
        if place < self.queues.len() {
            self.queues[place].push(message)?;
        }
        Ok(())
    }

    /// The first message for a place, if one is there.
    pub fn pop(&mut self, place: usize) -> Option<Framed>
        ensures first { result ≡ slice_get (slice_index_or self.old place []) 0 }
        ensures rest { self.new ≡ slice_set self.old place (drop 1 (slice_index_or self.old place [])) }
    {
        if place < self.queues.len() {
            self.queues[place].pop()
        } else {
            None
        }
    }

    /// The first message for a place, which stays.
    pub fn first(&self, place: usize) -> Option<&Framed>
        ensures { option_copied result ≡ slice_get (slice_index_or self.now place []) 0 }
    {
        if place < self.queues.len() {
            self.queues[place].at(0)
        } else {
            None
        }
    }
}
