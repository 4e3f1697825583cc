//! The queue that a stage fills. Its memory is taken once, when it is made.

ghost use Rattle.std.specs.Prelude.{◌≡◌, ◌-◌, ◌<◌, ◌≤◌, ◌++◌, [], ◌∷◌, length, drop, slice_get, IfOk, OnOk};
ghost use Rattle.dds_stage.specs.Queue.{QueueState, queue};

use circular_buffer::HeapCircularBuffer;
use dds_base::memory::Memory;
use std::alloc::Global;
use std::marker::Model;

/// First in, first out, with a bound on how many items there may be.
#[derive(Drop)]
pub struct StageQueue<T> {
    ring: HeapCircularBuffer<T, Global>,
}

impl<T> Model for StageQueue<T> {
    ghost use Rattle.std.specs.Prelude.{◌≤◌, length};
    ghost use Rattle.dds_stage.specs.Queue.{QueueState, queue, queue_code};

    ghost Value = { QueueState T };

    ghost coded = { queue_code T.code };

    ghost view = { λ a. queue a.ring.items a.ring.capacity };
}

impl<T: Drop> StageQueue<T> {
    /// Makes an empty queue, and takes the memory for all items that it will ever hold.
    pub fn new(alloc: Global, capacity: usize) -> Result<StageQueue<T>, Memory>
        ensures { IfOk result (λ made. made ≡ queue [] capacity) }
    {
        Ok(StageQueue {
            ring: HeapCircularBuffer::with_capacity(alloc, capacity)?,
        })
    }

    /// Puts an item behind the others. Takes no memory.
    pub fn push(&mut self, item: T)
        requires { length self.old.items < self.old.capacity }
        ensures { self.new ≡ queue (self.old.items ++ item ∷ []) self.old.capacity }
    {
        let _ = self.ring.try_push_back(item);
    }

    /// Takes the first item out; `None` exactly where there is none.
    pub fn pop(&mut self) -> Option<T>
        ensures first { result ≡ slice_get self.old.items 0 }
        ensures rest { self.new ≡ queue (drop 1 self.old.items) self.old.capacity }
    {
        self.ring.pop_front()
    }

    /// How many items more it has room for.
    pub fn free(&self) -> usize
        ensures value { result ≡ self.now.capacity - length self.now.items }
        ensures within { length self.now.items ≤ self.now.capacity }
    {
        self.ring.capacity() - self.ring.len()
    }
}
