//! What bricks answer to gets, updates and orders for a lease.

ghost use Rattle.std.specs.Prelude.{◌≡◌, IfOk};

use dds_base::leaf::Leaf;
use dds_base::memory::Memory;
use dds_base::name::LeafName;
use dds_base::value::Value;

/// Why a brick refuses: a write lease or an open join is in the way, a key is locked, or the map that was used is
/// stale. `leaf` is the brick's own leaf for the key, if it has one.
#[derive(Clone, Copy, PartialEq, Eq, Debug)]
pub enum Refusal {
    Lease,
    Lock,
    Stale { leaf: Option<Leaf> },
}

/// Why a brick votes no: it refuses, or the partition has no room for a new key.
#[derive(Clone, Copy, PartialEq, Eq, Debug)]
pub enum Denial {
    Refused(Refusal),
    Full,
}

/// What a get is answered.
#[derive(Debug, Drop)]
pub enum Answer {
    Absent,
    Value(Value),
    Refused(Refusal),
}

/// A brick's vote on an update: yes, it has prepared it and locked its key; or no.
#[derive(Clone, Copy, PartialEq, Eq, Debug)]
pub enum Ballot {
    Yes,
    No(Denial),
}

/// What an order asks a lease for: a joiner names the partition, and a later request names the leaf that it found.
#[derive(Clone, Copy, PartialEq, Eq, Debug)]
pub enum Wanted {
    Name(LeafName),
    Leaf(Leaf),
}

impl Answer {
    pub fn copy(&self) -> Result<Answer, Memory>
        ensures { IfOk result (λ answer. answer ≡ self.now) }
    {
        Ok(match self {
            Answer::Absent => Answer::Absent,
            Answer::Value(value) => Answer::Value(value.copy()?),
            Answer::Refused(refusal) => Answer::Refused(*refusal),
        })
    }
}
