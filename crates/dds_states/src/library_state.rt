//! What a library keeps.

use crate::nodes::NodeList;
use dds_base::brick_list::BrickList;
use dds_base::items::Items;
use dds_base::leaf::Leaf;
use dds_base::node_set::NodeSet;
use dds_base::number::{CallNo, CallerNo, NodeNo, TxnNo};
use dds_base::op::{Met, Op, Reply};
use dds_letters::outbox::Outbox;
use dds_letters::refusal::Denial;
use dds_maps::maps::Maps;

/// The most times that a call looks for a newer map.
pub const RETRIES: u8 = 3;

/// How far an open call is. `leaf` is the leaf that its attempt used. A get waits for the brick that it asked. An
/// update waits for votes of its members; or it is
/// decided, waits until they have applied it, and keeps the flag that the first of them told; or a member voted no, and
/// it waits until all have aborted. A call whose map may be stale waits for the leaves of all bricks, and is answered
/// Again with `met` where none is told.
#[derive(Drop)]
pub enum Phase {
    Getting {
        leaf: Leaf,
        brick: NodeNo,
    },
    Preparing {
        leaf: Leaf,
        list: BrickList,
        waiting: NodeList,
    },
    Committing {
        leaf: Leaf,
        list: BrickList,
        waiting: NodeList,
        was: Option<bool>,
    },
    Aborting {
        waiting: NodeList,
        denial: Denial,
        brick: NodeNo,
    },
    Asking {
        waiting: NodeList,
        newest: Option<Leaf>,
        met: Met,
    },
}

/// What a caller asked. `retries` counts the call's looks for a newer map, at most 3; `pushed` says that it has told a
/// brick a newer leaf than that brick's.
#[derive(Drop)]
pub struct Request {
    pub caller: CallerNo,
    pub call: CallNo,
    pub op: Op,
    pub retries: u8,
    pub pushed: bool,
}

/// A call that isn't answered yet, with its present attempt.
#[derive(Drop)]
pub struct OpenCall {
    pub request: Request,
    pub txn: TxnNo,
    pub phase: Phase,
}

/// The numbers that an attempt takes: its library, how many bricks there are, the next attempt's number, and the least
/// attempt number of the library's other open calls (2^64 - 1 where there are none).
#[derive(Clone, Copy, PartialEq, Eq, Debug)]
pub struct TxnNumbers {
    pub library: NodeNo,
    pub bricks: u8,
    pub next: u64,
    pub below: u64,
}

/// What one call works with: the library's map, the nodes whose notices it has, and the attempts' numbers.
#[derive(Drop)]
pub struct Desk {
    pub map: Maps,
    pub known: NodeSet,
    pub numbers: TxnNumbers,
}

/// What a step of one call gives: letters, and the call while it stays open, or its reply.
#[derive(Drop)]
pub struct Went {
    pub letters: Outbox,
    pub call: Option<OpenCall>,
    pub reply: Option<Reply>,
}

/// A library. `known` are the nodes whose notices it has, `map` its partition map, which may be stale, `next` the
/// number of its next attempt, and `calls` its open calls in the order of their inputs.
#[derive(Drop)]
pub struct LibraryState {
    pub number: NodeNo,
    pub stopped: bool,
    pub known: NodeSet,
    pub bricks: u8,
    pub map: Maps,
    pub next: u64,
    pub calls: Items<OpenCall>,
}
