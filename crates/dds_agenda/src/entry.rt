//! The first letters of outboxes and links, and their order.

ghost use Rattle.std.specs.Prelude.{◌≡◌};
ghost use Rattle.dds_agenda.specs.Agenda.{precedes, slot_precedes};

/// The outbox of the node at a place, or the link from the node at one place to that at another.
#[derive(Clone, Copy, PartialEq, Eq, Debug)]
pub enum Slot {
    Outbox(usize),
    Link { from: usize, to: usize },
}

impl Slot {
    /// Whether this slot stands before the other: outboxes before links, links by their senders first.
    pub fn precedes(&self, other: &Slot) -> bool
        ensures { result ≡ slot_precedes self.now other.now }
    {
        match (self, other) {
            (Slot::Outbox(at), Slot::Outbox(place)) => at < place,
            (Slot::Outbox(_), Slot::Link { from: _, to: _ }) => true,
            (Slot::Link { from: _, to: _ }, Slot::Outbox(_)) => false,
            (
                Slot::Link { from, to },
                Slot::Link {
                    from: source,
                    to: place,
                },
            ) => { from < source || (from == source && to < place) }
        }
    }
}

/// A slot that holds a letter, with the number of its first one.
#[derive(Clone, Copy, PartialEq, Eq, Debug)]
pub struct Entry {
    pub number: u64,
    pub slot: Slot,
}

impl Entry {
    /// Whether this entry stands before the other: by the numbers, and by the slots where those are equal.
    pub fn precedes(&self, other: &Entry) -> bool
        ensures { result ≡ precedes self.now other.now }
    {
        self.number < other.number
            || (self.number == other.number && self.slot.precedes(&other.slot))
    }
}
