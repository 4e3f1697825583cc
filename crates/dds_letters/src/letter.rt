//! The letters between nodes.

ghost use Rattle.std.specs.Prelude.{◌≡◌, IfOk};

use crate::copied_pairs::CopiedPairs;
use crate::refusal::{Answer, Ballot, Refusal, Wanted};
use dds_base::brick_list::BrickList;
use dds_base::leaf::Leaf;
use dds_base::memory::Memory;
use dds_base::name::LeafName;
use dds_base::number::{CallNo, CallerNo, Stamp, TxnNo};
use dds_base::pending::TxnStatus;
use dds_base::update::Update;
use std::alloc::Global;

/// A letter from one node to another. `txn` is the attempt of a call, or its transaction; `order` is the number that the
/// ordering brick gave an order.
///
/// A library sends `Get`, `Prepare`, `Commit`, `Abort`, `Push` and `MapAsk` to bricks, which answer by `Got`, `Vote`,
/// `Applied`, `Aborted` and `MapTell`. `name` and `stamp` are of the leaf that the library used, `list` the members
/// that it asks, and `below` the least of its open attempts' numbers, below which bricks may forget outcomes. The flag
/// of `Applied` says of a swap that the key was bound to the expected bytes, and else that it was there.
///
/// Bricks resolve a transaction whose library stopped by `Help`, `Query`, `Status` and `Outcome`. A brick carries out
/// an order to join or to split by `Lease`, `Release`, `CopyAsk` and `Install`, answered by `Granted` or
/// `LeaseRefused`, `CopyPart` and `Installed`. `after` is the last key that was copied.
///
/// `Notice` is the last letter of a node that stopped.
#[derive(Debug, Drop)]
pub enum Letter {
    Get {
        txn: TxnNo,
        caller: CallerNo,
        call: CallNo,
        key: u64,
        name: LeafName,
        stamp: Stamp,
    },
    Prepare {
        txn: TxnNo,
        caller: CallerNo,
        call: CallNo,
        below: u64,
        name: LeafName,
        stamp: Stamp,
        list: BrickList,
        op: Update,
    },
    Commit {
        txn: TxnNo,
    },
    Abort {
        txn: TxnNo,
    },
    Push {
        leaf: Leaf,
    },
    MapAsk {
        txn: TxnNo,
        caller: CallerNo,
        call: CallNo,
        key: u64,
    },
    Got {
        txn: TxnNo,
        answer: Answer,
    },
    Vote {
        txn: TxnNo,
        vote: Ballot,
    },
    Applied {
        txn: TxnNo,
        was: bool,
    },
    Aborted {
        txn: TxnNo,
    },
    MapTell {
        txn: TxnNo,
        leaf: Option<Leaf>,
    },
    Help {
        txn: TxnNo,
        list: BrickList,
    },
    Query {
        txn: TxnNo,
        list: BrickList,
    },
    Status {
        txn: TxnNo,
        status: TxnStatus,
    },
    Outcome {
        txn: TxnNo,
        commit: bool,
    },
    Lease {
        order: u64,
        what: Wanted,
    },
    Granted {
        order: u64,
        leaf: Leaf,
    },
    LeaseRefused {
        order: u64,
        refusal: Refusal,
    },
    Release {
        order: u64,
        name: LeafName,
    },
    CopyAsk {
        order: u64,
        name: LeafName,
        after: Option<u64>,
    },
    CopyPart {
        order: u64,
        last: bool,
        pairs: CopiedPairs,
    },
    Install {
        order: u64,
        leaf: Leaf,
    },
    Installed {
        order: u64,
        name: LeafName,
    },
    Notice,
}

impl Letter {
    pub fn copy(&self, alloc: Global) -> Result<Letter, Memory>
        ensures { IfOk result (λ letter. letter ≡ self.now) }
    {
        Ok(match self {
            Letter::Get {
                txn,
                caller,
                call,
                key,
                name,
                stamp,
            } => Letter::Get {
                txn: *txn,
                caller: *caller,
                call: *call,
                key: *key,
                name: *name,
                stamp: *stamp,
            },
            Letter::Prepare {
                txn,
                caller,
                call,
                below,
                name,
                stamp,
                list,
                op,
            } => Letter::Prepare {
                txn: *txn,
                caller: *caller,
                call: *call,
                below: *below,
                name: *name,
                stamp: *stamp,
                list: *list,
                op: op.copy()?,
            },
            Letter::Commit { txn } => Letter::Commit { txn: *txn },
            Letter::Abort { txn } => Letter::Abort { txn: *txn },
            Letter::Push { leaf } => Letter::Push { leaf: *leaf },
            Letter::MapAsk {
                txn,
                caller,
                call,
                key,
            } => Letter::MapAsk {
                txn: *txn,
                caller: *caller,
                call: *call,
                key: *key,
            },
            Letter::Got { txn, answer } => Letter::Got {
                txn: *txn,
                answer: answer.copy()?,
            },
            Letter::Vote { txn, vote } => Letter::Vote {
                txn: *txn,
                vote: *vote,
            },
            Letter::Applied { txn, was } => Letter::Applied {
                txn: *txn,
                was: *was,
            },
            Letter::Aborted { txn } => Letter::Aborted { txn: *txn },
            Letter::MapTell { txn, leaf } => Letter::MapTell {
                txn: *txn,
                leaf: *leaf,
            },
            Letter::Help { txn, list } => Letter::Help {
                txn: *txn,
                list: *list,
            },
            Letter::Query { txn, list } => Letter::Query {
                txn: *txn,
                list: *list,
            },
            Letter::Status { txn, status } => Letter::Status {
                txn: *txn,
                status: *status,
            },
            Letter::Outcome { txn, commit } => Letter::Outcome {
                txn: *txn,
                commit: *commit,
            },
            Letter::Lease { order, what } => Letter::Lease {
                order: *order,
                what: *what,
            },
            Letter::Granted { order, leaf } => Letter::Granted {
                order: *order,
                leaf: *leaf,
            },
            Letter::LeaseRefused { order, refusal } => Letter::LeaseRefused {
                order: *order,
                refusal: *refusal,
            },
            Letter::Release { order, name } => Letter::Release {
                order: *order,
                name: *name,
            },
            Letter::CopyAsk { order, name, after } => Letter::CopyAsk {
                order: *order,
                name: *name,
                after: *after,
            },
            Letter::CopyPart { order, last, pairs } => Letter::CopyPart {
                order: *order,
                last: *last,
                pairs: pairs.copy(alloc)?,
            },
            Letter::Install { order, leaf } => Letter::Install {
                order: *order,
                leaf: *leaf,
            },
            Letter::Installed { order, name } => Letter::Installed {
                order: *order,
                name: *name,
            },
            Letter::Notice => Letter::Notice,
        })
    }
}
