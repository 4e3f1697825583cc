//! What is kept of a run.

ghost use Rattle.std.specs.Prelude.{◌≡◌, []};

use crate::asked_list::AskedList;
use crate::cluster::Cluster;
use crate::made_list::MadeList;
use crate::told_list::ToldList;
use dds_base::items::Items;
use dds_base::number::{CallNo, CallerNo, NodeNo, TxnNo};
use dds_base::op::{Op, Reply};
use dds_history::entry::Entry;
use dds_states::turn::ReplyList;
use std::alloc::Global;

/// A caller: its library, its open call, if there is one, and the least number that its next call may have.
#[derive(Clone, Copy, PartialEq, Eq, Debug)]
pub struct Caller {
    pub library: NodeNo,
    pub call: Option<CallNo>,
    pub least: u64,
}

/// A call as it was made, with the place of its input in the journal.
#[derive(Debug, Drop)]
pub struct Asked {
    pub place: u64,
    pub caller: CallerNo,
    pub call: CallNo,
    pub op: Op,
}

/// A point with its place in the journal, the attempt that it is of, and the entry that it may become.
#[derive(Debug, Drop)]
pub struct Made {
    pub place: u64,
    pub txn: TxnNo,
    pub entry: Entry,
}

/// A call's answer with its place in the journal. Where it is what a get read, `read` is the attempt that read it.
#[derive(Debug, Drop)]
pub struct Told {
    pub place: u64,
    pub read: Option<TxnNo>,
    pub caller: CallerNo,
    pub call: CallNo,
    pub reply: Reply,
}

/// A run so far: the cluster, the number of steps, the callers, the calls made, all points (also reads that never
/// answer a call) and all answers to calls. The three lists only grow, at their ends.
#[derive(Drop)]
pub struct Trace {
    pub world: Cluster,
    pub steps: u64,
    pub callers: Items<Caller>,
    pub asked: AskedList,
    pub made: MadeList,
    pub told: ToldList,
}

/// What a step gives besides the cluster after it: its points, and its answers.
#[derive(Drop)]
pub struct Happened {
    pub made: Items<Made>,
    pub replies: ReplyList,
}

impl Happened {
    pub(crate) fn nothing(alloc: Global) -> Happened
        ensures made { result.made ≡ [] }
        ensures replies { result.replies ≡ [] }
    {
        Happened {
            made: Items::new(alloc),
            replies: ReplyList::new(alloc),
        }
    }
}
