//! The outcomes of transactions, by transaction.

ghost use Rattle.std.specs.Prelude.{◌≡◌, true, OnOk, OnErr, IfSome, IfNone, IsTrue};
ghost use Rattle.std.specs.FinMap as map;
ghost use Rattle.dds_base.specs.Number.{Txn};
ghost use Rattle.dds_locks.specs.Outcomes.{is_below, trimmed};

use dds_base::memory::Memory;
use dds_base::number::{NodeNo, TxnNo};
use std::alloc::Global;
use std::collections::BTreeMap;
use std::marker::Model;

/// The outcome noted last of each transaction, until it is trimmed. Contracts see a finite map.
#[derive(Drop)]
pub struct Outcomes {
    noted: BTreeMap<TxnNo, bool>,
}

impl Model for Outcomes {
    ghost use Rattle.std.specs.FinMap as map;
    ghost use Rattle.std.specs.Coded.{coded_bool};
    ghost use Rattle.dds_base.specs.contracts.number.TxnNo as txn;
    ghost use Rattle.dds_locks.specs.Outcomes.{OutcomeMap, IsOfLibraries};

    ghost Value = { OutcomeMap };

    ghost coded = { map.code txn.the_row.coded coded_bool };

    ghost view = { λ a. map.from_entries a.noted.entries };

    ghost invariant = { λ a. IsOfLibraries a.noted };
}

impl Outcomes {
    /// Takes no memory.
    pub fn new(alloc: Global) -> Outcomes
        ensures { result ≡ map.empty }
    {
        Outcomes {
            noted: BTreeMap::new(alloc),
        }
    }

    pub fn note(&mut self, txn: TxnNo, committed: bool) -> Result<(), Memory>
        ensures ok { OnOk result (self.new ≡ map.insert self.old txn committed) }
        ensures err { OnErr result (self.new ≡ self.old) }
    {
        let _library = txn.library();
        self.noted.insert(txn, committed)?;
        Ok(())
    }

    /// The outcome noted last; `None` where none is.
    pub fn outcome(&self, txn: TxnNo) -> Option<bool>
        ensures { result ≡ map.get self.now txn }
    {
        self.noted.get(&txn).copied()
    }

    /// Drops that library's outcomes with numbers below the bound; a brick has none. Takes no memory.
    pub fn trim(&mut self, library: NodeNo, below: u64)
        ensures { self.new ≡ trimmed self.old library below }
    {
        'trimming: while let Some(txn) = self.first_below(library, below) {
            self.forget(txn);
        }
    }

    /// The first of that library's transactions that an outcome was noted of and whose number is below the bound.
    fn first_below(&self, library: NodeNo, below: u64) -> Option<TxnNo>
        ensures below { IfSome result (λ t. is_below library below t ≡ true) }
        ensures noted { IfSome result (λ t. map.contains_key self.now t ≡ true) }
        ensures none { IfNone result ((t : Txn) → IsTrue (is_below library below t) → map.get self.now t ≡ None) }
    {
        let noted = &self.noted;
        if library.is_brick() {
            return None;
        }
        let mut found = noted.range(TxnNo::new(library, 0)..TxnNo::new(library, below));
        match found.next() {
            Some((txn, _)) => Some(*txn),
            None => None,
        }
    }

    fn forget(&mut self, txn: TxnNo)
        ensures { self.new ≡ map.remove self.old txn }
    {
        self.noted.remove(&txn);
    }
}
