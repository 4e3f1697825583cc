//! The lines of the transcript.

use dds_base::brick_list::BrickList;
use dds_base::name::LeafName;
use dds_base::number::{CallNo, CallerNo, NodeNo};
use dds_base::op::{OrderReply, Reply};

/// Which order a brick was given.
#[derive(Clone, Copy, PartialEq, Eq, Debug)]
pub enum OrderKind {
    Join,
    Split,
}

/// What a line of a summary counts.
#[derive(Clone, Copy, PartialEq, Eq, Debug)]
pub enum Counted {
    Calls,
    Done,
    Value,
    Absent,
    Again,
    Full,
    Lost,
    Open,
    Steps,
    History,
}

/// A line of the transcript. `Loud` is the line of a `quiet` that stopped at its limit of events.
#[derive(Debug, Drop)]
pub enum ReportLine {
    Answer {
        caller: CallerNo,
        call: CallNo,
        reply: Reply,
    },
    Busy {
        caller: CallerNo,
        call: CallNo,
    },
    OrderAnswer {
        kind: OrderKind,
        brick: NodeNo,
        reply: OrderReply,
    },
    Quiet {
        events: u64,
    },
    Loud,
    Events {
        events: u64,
    },
    NoPost,
    NoTake,
    BrickStopped {
        brick: NodeNo,
    },
    BrickUp {
        brick: NodeNo,
        pending: u64,
    },
    BrickLeaf {
        brick: NodeNo,
        name: LeafName,
        epoch: u64,
        pairs: u64,
        list: BrickList,
    },
    OpenCall {
        caller: CallerNo,
        call: CallNo,
    },
    OpenOrder {
        kind: OrderKind,
        brick: NodeNo,
    },
    History {
        entries: u64,
    },
    Count {
        what: Counted,
        number: u64,
    },
    End,
}
