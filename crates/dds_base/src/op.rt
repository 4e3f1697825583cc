//! What callers ask, what they are answered, and the orders that change a replica group.

ghost use Rattle.std.specs.Prelude.{◌≡◌, ◌↔◌, IsTrue, IfOk};
ghost use Rattle.dds_base.specs.Op.{the_key, is_get};

use crate::memory::Memory;
use crate::name::LeafName;
use crate::number::NodeNo;
use crate::value::Value;

/// An operation on one key. A swap binds the key to `value` where it is bound to exactly `expected`.
#[derive(Debug, Drop)]
pub enum Op {
    Get {
        key: u64,
    },
    Put {
        key: u64,
        value: Value,
    },
    Remove {
        key: u64,
    },
    Swap {
        key: u64,
        expected: Value,
        value: Value,
    },
}

impl Op {
    pub fn key(&self) -> u64
        ensures { result ≡ the_key self.now }
    {
        match self {
            Op::Get { key } => *key,
            Op::Put { key, value: _ } => *key,
            Op::Remove { key } => *key,
            Op::Swap {
                key,
                expected: _,
                value: _,
            } => *key,
        }
    }

    pub fn is_get(&self) -> bool
        ensures { result ≡ is_get self.now }
    {
        matches!(self, Op::Get { key: _ })
    }

    pub fn copy(&self) -> Result<Op, Memory>
        ensures { IfOk result (λ op. op ≡ self.now) }
    {
        Ok(match self {
            Op::Get { key } => Op::Get { key: *key },
            Op::Put { key, value } => Op::Put {
                key: *key,
                value: value.copy()?,
            },
            Op::Remove { key } => Op::Remove { key: *key },
            Op::Swap {
                key,
                expected,
                value,
            } => Op::Swap {
                key: *key,
                expected: expected.copy()?,
                value: value.copy()?,
            },
        })
    }
}

/// What a call met where it was answered Again: a write lease, a locked key or a stale map at a brick, or a stopped
/// brick.
#[derive(Clone, Copy, PartialEq, Eq, Debug)]
pub enum Met {
    Lease { brick: NodeNo },
    Lock { brick: NodeNo },
    Stale { brick: NodeNo },
    Stopped { brick: NodeNo },
}

/// A call's answer. `Value` and `Absent` answer a get, `Done` a put or a remove (`was` says that the key was there),
/// `Swapped` a swap (`done` says that the key was bound to the expected bytes); these are results. `Again` says that
/// nothing was done, `Full` that the partition has no room for a new key, `Lost` that all members of the update's
/// group stopped, so that it may have been done or not.
#[derive(Debug, Drop)]
pub enum Reply {
    Value(Value),
    Absent,
    Done { was: bool },
    Swapped { done: bool },
    Again(Met),
    Full { brick: NodeNo },
    Lost { name: LeafName },
}

impl Reply {
    pub fn copy(&self) -> Result<Reply, Memory>
        ensures { IfOk result (λ reply. reply ≡ self.now) }
    {
        Ok(match self {
            Reply::Value(value) => Reply::Value(value.copy()?),
            Reply::Absent => Reply::Absent,
            Reply::Done { was } => Reply::Done { was: *was },
            Reply::Swapped { done } => Reply::Swapped { done: *done },
            Reply::Again(met) => Reply::Again(*met),
            Reply::Full { brick } => Reply::Full { brick: *brick },
            Reply::Lost { name } => Reply::Lost { name: *name },
        })
    }
}

/// An order to a brick: to join the group of a partition, copying from `via`'s group; or to split its partition.
#[derive(Clone, Copy, PartialEq, Eq, Debug)]
pub enum Order {
    Join {
        brick: NodeNo,
        name: LeafName,
        via: NodeNo,
    },
    Split {
        brick: NodeNo,
        name: LeafName,
    },
}

/// An order's answer; each but `Done` says why nothing was changed.
#[derive(Clone, Copy, PartialEq, Eq, Debug)]
pub enum OrderReply {
    Done,
    Refused(Met),
    GroupFull,
    AlreadyThere,
    NoSource,
    OrderOpen,
    Deepest,
    NotServing,
    Worn,
    Stopped,
}
