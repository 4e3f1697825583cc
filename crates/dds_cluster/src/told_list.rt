//! The answers to a run's calls.

ghost use Rattle.std.specs.Prelude.{◌≡◌, ◌++◌, [], ◌∷◌, OnOk, OnErr};
ghost use Rattle.dds_cluster.specs.Lists.{is_answer};

use crate::keyed::Keyed;
use crate::trace::Told;
use dds_base::memory::Memory;
use dds_base::number::TxnNo;
use std::alloc::Global;
use std::marker::Model;

/// Answers in their order, with the set of the attempts that one of them read. Contracts see the list.
#[derive(Drop)]
pub struct ToldList {
    answers: Keyed<Told, TxnNo>,
}

impl Model for ToldList {
    ghost use Rattle.std.specs.Prelude.{List};
    ghost use Rattle.dds_locks.specs.Outcomes.{txn_cmp};
    ghost use Rattle.dds_cluster.specs.Keyed.{AreKeys};
    ghost use Rattle.dds_cluster.specs.Lists.{is_read_of};
    ghost use Rattle.dds_cluster.specs.declared.trace.Told.{Told};

    ghost Value = { List Told };

    ghost view = { λ a. a.answers.items };

    ghost invariant = { λ a. AreKeys txn_cmp (λ txn r. is_read_of txn r.read) a.answers.items a.answers.rising.items a.answers.others };
}

impl ToldList {
    /// Takes no memory.
    pub fn new(alloc: Global) -> ToldList
        ensures { result ≡ [] }
    {
        ToldList {
            answers: Keyed::new(alloc),
        }
    }

    pub fn push(&mut self, told: Told) -> Result<(), Memory>
        ensures ok { OnOk result (self.new ≡ self.old ++ told ∷ []) }
        ensures err { OnErr result (self.new ≡ self.old) }
    {
        let key = told.read;
        self.answers.push(told, key)
    }

    /// Whether an answer is what this attempt read.
    pub fn is_answer(&self, txn: TxnNo) -> bool
        ensures { result ≡ is_answer self.now txn }
    {
        self.answers.has(&txn)
    }

    pub fn as_slice(&self) -> &[Told]
        ensures { result.now ≡ self.now }
    {
        self.answers.items.as_slice()
    }
}
