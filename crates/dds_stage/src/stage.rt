//! What a stage is: it takes one event at a time, and sends a list of events of its own.

ghost use Rattle.std.specs.Prelude.{◌≡◌, ℕ, ◌+◌, ◌≤◌, ◌++◌, List, length, OnOk};
ghost use Rattle.dds_stage.specs.Queue.{QueueState, queue};
ghost use Rattle.dds_stage.specs.Sends.{SentOne};

use crate::queue::StageQueue;
use dds_base::memory::Memory;

/// Takes events, and sends others to the stage behind it.
pub trait Stage: Drop {
    type Event: Drop;

    type Sent: Drop;

    // What an event does: the state before it, the event, the state after it, the list sent.
    ghost sends: { Self → Self.Event → Self → List Self.Sent → Type 0 };

    // How many free places one event needs.
    ghost MOST: { ℕ };

    /// How many free places one event needs.
    const MOST: usize;

    /// Takes one event, and puts what it sends behind the items of `next`. After `Memory` nothing
    /// is said of `next` or of the stage.
    fn upcall(
        &mut self,
        event: Self::Event,
        next: &mut StageQueue<Self::Sent>,
    ) -> Result<(), Memory>
        requires { length next.old.items + MOST ≤ next.old.capacity }
        ensures { OnOk result (SentOne sends self.old event self.new next.old next.new) };
}
