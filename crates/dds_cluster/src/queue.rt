//! First in, first out. Contracts see the list of what waits.

ghost use Rattle.std.specs.Prelude.{◌≡◌, ◌==◌, ◌++◌, [], ◌∷◌, length, drop, slice_get, option_copied, OnOk, OnErr};

use dds_base::memory::Memory;
use std::alloc::Global;
use std::collections::VecDeque;
use std::marker::Model;

/// A queue.
#[derive(Drop)]
pub struct Queue<T> {
    waiting: VecDeque<T>,
}

impl<T> Model for Queue<T> {
    ghost use Rattle.std.specs.Prelude.{List};

    ghost Value = { List T };

    ghost view = { λ a. a.waiting.items };
}

impl<T: Drop> Queue<T> {
    /// Takes no memory.
    pub fn new(alloc: Global) -> Self
        ensures { result ≡ [] }
    {
        Queue {
            waiting: VecDeque::new(alloc),
        }
    }

    pub fn push(&mut self, item: T) -> Result<(), Memory>
        ensures ok { OnOk result (self.new ≡ self.old ++ item ∷ []) }
        ensures err { OnErr result (self.new ≡ self.old) }
    {
        self.waiting.push_back(item)?;
        Ok(())
    }

    /// The first item; `None` exactly where nothing waits.
    pub fn pop(&mut self) -> Option<T>
        ensures first { result ≡ slice_get self.old 0 }
        ensures rest { self.new ≡ drop 1 self.old }
    {
        self.waiting.pop_front()
    }

    /// The item at a place from the first one; `None` exactly where there are fewer.
    pub fn at(&self, place: usize) -> Option<&T>
        ensures { option_copied result ≡ slice_get self.now place }
    {
        self.waiting.get(place)
    }

    /// How many items wait.
    pub fn len(&self) -> usize
        ensures { result ≡ length self.now }
    {
        self.waiting.len()
    }

    pub fn is_empty(&self) -> bool
        ensures { result ≡ (length self.now == 0) }
    {
        self.waiting.is_empty()
    }
}
