//! The points of a run.

ghost use Rattle.std.specs.Prelude.{◌≡◌, ◌++◌, [], ◌∷◌, OnOk, OnErr};
ghost use Rattle.dds_base.specs.Number.{Txn};
ghost use Rattle.dds_locks.specs.Outcomes.{txn_cmp};
ghost use Rattle.dds_cluster.specs.Keyed.{is_key};
ghost use Rattle.dds_cluster.specs.Lists.{is_applied, is_update_of};

use crate::keyed::Keyed;
use crate::trace::Made;
use dds_base::memory::Memory;
use dds_base::number::TxnNo;
use std::alloc::Global;
use std::marker::Model;

/// Points in the order of their making, with the set of the attempts that were applied. Contracts see the list.
#[derive(Drop)]
pub struct MadeList {
    points: Keyed<Made, TxnNo>,
}

impl Model for MadeList {
    ghost use Rattle.std.specs.Prelude.{List};
    ghost use Rattle.dds_locks.specs.Outcomes.{txn_cmp};
    ghost use Rattle.dds_cluster.specs.Keyed.{AreKeys};
    ghost use Rattle.dds_cluster.specs.Lists.{is_update_of};
    ghost use Rattle.dds_cluster.specs.declared.trace.Made.{Made};

    ghost Value = { List Made };

    ghost view = { λ a. a.points.items };

    ghost invariant = { λ a. AreKeys txn_cmp is_update_of a.points.items a.points.rising.items a.points.others };
}

impl MadeList {
    /// Takes no memory.
    pub fn new(alloc: Global) -> MadeList
        ensures { result ≡ [] }
    {
        MadeList {
            points: Keyed::new(alloc),
        }
    }

    pub fn push(&mut self, made: Made) -> Result<(), Memory>
        ensures ok { OnOk result (self.new ≡ self.old ++ made ∷ []) }
        ensures err { OnErr result (self.new ≡ self.old) }
    {
        let key = applied_by(&made);
        self.points.push(made, key)
    }

    /// Whether an update of this attempt is among the points.
    pub fn is_applied(&self, txn: TxnNo) -> bool
        ensures { result ≡ is_applied self.now txn }
    {
        self.points.has(&txn)
    }

    pub fn as_slice(&self) -> &[Made]
        ensures { result.now ≡ self.now }
    {
        self.points.items.as_slice()
    }

    pub fn into_vec(self) -> Vec<Made>
        ensures { result.items ≡ self }
    {
        self.points.items.into_vec()
    }
}

/// The attempt that a point is an update of.
fn applied_by(made: &Made) -> Option<TxnNo>
    ensures { (txn : Txn) → is_key txn_cmp result txn ≡ is_update_of txn made.now }
{
    if made.entry.op.is_get() {
        None
    } else {
        Some(made.txn)
    }
}
