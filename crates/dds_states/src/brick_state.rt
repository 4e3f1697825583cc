//! What a brick keeps.

use crate::nodes::NodeList;
use dds_base::brick_list::BrickList;
use dds_base::items::Items;
use dds_base::leaf::Leaf;
use dds_base::name::LeafName;
use dds_base::node_set::NodeSet;
use dds_base::number::{NodeNo, TxnNo};
use dds_base::pair::PairList;
use dds_history::table::Table;
use dds_locks::locks::Locks;
use dds_maps::maps::Maps;

/// What a brick was asked about a transaction whose library has stopped: to resolve it, or how far it is here.
#[derive(Clone, Copy, PartialEq, Eq, Debug)]
pub enum Question {
    Help,
    Query,
}

/// A letter of a resolution that came before its sender, or this brick, could be the resolver. It waits for notices.
#[derive(Drop)]
pub struct Deferred {
    pub from: NodeNo,
    pub question: Question,
    pub txn: TxnNo,
    pub list: BrickList,
}

/// A transaction that this brick resolves: the members whose status it waits for, and whether a status so far was
/// Committed, and whether one was NotPrepared or Aborted.
#[derive(Drop)]
pub struct Resolving {
    pub txn: TxnNo,
    pub list: BrickList,
    pub waiting: NodeList,
    pub saw_commit: bool,
    pub saw_no: bool,
}

/// What an order is to do: to have this brick join a partition's group, which it first meets through the member
/// `via`; or to split a partition of its own.
#[derive(Clone, Copy, PartialEq, Eq, Debug)]
pub enum Task {
    Join { via: NodeNo },
    Split,
}

/// How far an order is: it waits for leases; it copies the partition's pairs from a member; it waits until the members
/// have installed the leaf that it made, for a split the low half's.
#[derive(Clone, Copy, PartialEq, Eq, Debug)]
pub enum OrderPhase {
    Leasing,
    Copying { source: NodeNo },
    Installing { made: Leaf },
}

/// An order that isn't answered yet. `leaf` is the partition's leaf: a split's from the start, a join's from its first
/// lease on. `asked` and `granted` are the members that were asked for a lease and that gave one, each in that order,
/// `waiting` those whose answer is due, and `copied` the pairs that a join has copied.
#[derive(Drop)]
pub struct OpenOrder {
    pub number: u64,
    pub task: Task,
    pub name: LeafName,
    pub leaf: Option<Leaf>,
    pub asked: NodeList,
    pub granted: NodeList,
    pub waiting: NodeList,
    pub copied: PairList,
    pub phase: OrderPhase,
}

/// A brick. `known` are the nodes whose notices it has, `leaves` the partitions that it serves, `pairs` the keys under
/// them, `orders` the number of its next order, and `made` how many leaves it has made. A brick that has stopped keeps
/// its number alone.
#[derive(Drop)]
pub struct BrickState {
    pub number: NodeNo,
    pub stopped: bool,
    pub known: NodeSet,
    pub leaves: Maps,
    pub pairs: Table,
    pub locks: Locks,
    pub deferred: Items<Deferred>,
    pub resolving: Items<Resolving>,
    pub order: Option<OpenOrder>,
    pub orders: u64,
    pub made: u64,
}
