//! The lock manager of a brick.

ghost use Rattle.std.specs.Prelude.{◌≡◌, ◌++◌, ◌∷◌, [], ◌≤◌, None, OnOk, OnErr, option_copied, slice_get};
ghost use Rattle.std.specs.FinMap as map;
ghost use Rattle.dds_base.specs.Op.{the_key};
ghost use Rattle.dds_locks.specs.Pending.{holder, first_of, without, any_under};
ghost use Rattle.dds_locks.specs.Leases.{leased, lease_covers, lease_of, is_given, released, released_all};
ghost use Rattle.dds_locks.specs.Outcomes.{trimmed};
ghost use Rattle.dds_locks.specs.Status.{noted_status, status};

use crate::leases::{Lease, is_given, lease_covers, lease_of, leased, release, release_all};
use crate::outcomes::Outcomes;
use crate::pending::PendingSet;
use dds_base::items::Items;
use dds_base::memory::Memory;
use dds_base::name::LeafName;
use dds_base::number::{NodeNo, TxnNo};
use dds_base::pending::{Pending, TxnStatus};
use std::alloc::Global;
use std::marker::Model;

/// Pending transactions, which lock their keys; write leases; and the outcomes of transactions. Contracts see the
/// pending ones and the leases as lists, in the order of preparing and of giving, and the outcomes as a finite map.
#[derive(Drop)]
pub struct Locks {
    pending: PendingSet,
    leases: Items<Lease>,
    outcomes: Outcomes,
}

impl Model for Locks {
    ghost use Rattle.dds_locks.specs.State.{LockState, lock_code};

    ghost Value = { LockState };

    ghost coded = { lock_code };

    ghost view = { λ a. record { pending = a.pending; leases = a.leases; outcomes = a.outcomes } };
}

impl Locks {
    /// Takes no memory.
    pub fn new(alloc: Global) -> Locks
        ensures { result ≡ record { pending = []; leases = []; outcomes = map.empty } }
    {
        Locks {
            pending: PendingSet::new(alloc),
            leases: Items::new(alloc),
            outcomes: Outcomes::new(alloc),
        }
    }

    /// Locks the transaction's key for it.
    pub fn lock(&mut self, pending: Pending) -> Result<(), Memory>
        requires { holder self.old.pending (the_key pending.op) ≡ None }
        ensures ok { OnOk result (self.new ≡ record self.old { pending = self.old.pending ++ pending ∷ [] }) }
        ensures err { OnErr result (self.new ≡ self.old) }
    {
        self.pending.lock(pending)
    }

    /// The transaction that has the key locked; `None` where it is free.
    pub fn holder(&self, key: u64) -> Option<TxnNo>
        ensures { result ≡ holder self.now.pending key }
    {
        self.pending.holder(key)
    }

    /// Takes the first pending transaction of this number out; `None` where there is none. Takes no memory.
    pub fn unlock(&mut self, txn: TxnNo) -> Option<Pending>
        ensures value { result ≡ first_of self.old.pending txn }
        ensures state { self.new ≡ record self.old { pending = without self.old.pending txn } }
    {
        self.pending.unlock(txn)
    }

    /// The pending transactions in the order of preparing.
    pub fn pending(&self) -> &[Pending]
        ensures { result.now ≡ self.now.pending }
    {
        self.pending.as_slice()
    }

    /// The pending transaction at this place of the order of preparing; `None` past the end.
    pub fn pending_at(&self, place: usize) -> Option<&Pending>
        ensures { option_copied result ≡ slice_get self.now.pending place }
    {
        self.pending.at(place)
    }

    /// Whether some key of the name is locked. Looks at each pending transaction.
    pub fn any_under(&self, name: LeafName) -> bool
        ensures { result ≡ any_under self.now.pending name }
    {
        self.pending.any_under(name)
    }

    /// Gives a node the lease of a name.
    pub fn lease(&mut self, name: LeafName, to: NodeNo) -> Result<(), Memory>
        requires { leased self.old.leases name ≡ None }
        ensures ok { OnOk result (self.new ≡ record self.old { leases = self.old.leases ++ record { name = name; holder = to } ∷ [] }) }
        ensures err { OnErr result (self.new ≡ self.old) }
    {
        self.leases.push(Lease { name, holder: to })
    }

    /// The holder of the first lease given that overlaps the name; `None` where none does.
    pub fn leased(&self, name: LeafName) -> Option<NodeNo>
        ensures { result ≡ leased self.now.leases name }
    {
        leased(self.leases.as_slice(), name)
    }

    /// Whether a lease's name covers the key.
    pub fn lease_covers(&self, key: u64) -> bool
        ensures { result ≡ lease_covers self.now.leases key }
    {
        lease_covers(self.leases.as_slice(), key)
    }

    /// Whether a lease of this name and holder stands.
    pub fn is_given(&self, name: LeafName, to: NodeNo) -> bool
        ensures { result ≡ is_given self.now.leases name to }
    {
        is_given(self.leases.as_slice(), name, to)
    }

    /// The name of the node's first lease that overlaps the name; `None` where it has none.
    pub fn lease_of(&self, name: LeafName, to: NodeNo) -> Option<LeafName>
        ensures { result ≡ lease_of self.now.leases name to }
    {
        lease_of(self.leases.as_slice(), name, to)
    }

    /// Drops the node's lease of just this name, if it has one. Takes no memory.
    pub fn release(&mut self, name: LeafName, to: NodeNo)
        ensures { self.new ≡ record self.old { leases = released self.old.leases name to } }
    {
        release(&mut self.leases, name, to);
    }

    /// Drops all leases of the node. Takes no memory.
    pub fn release_all(&mut self, to: NodeNo)
        ensures { self.new ≡ record self.old { leases = released_all self.old.leases to } }
    {
        release_all(&mut self.leases, to);
    }

    /// Prepared where the transaction is pending, else the outcome noted last, else NotPrepared.
    pub fn status(&self, txn: TxnNo) -> TxnStatus
        ensures { result ≡ status self.now txn }
    {
        if self.pending.is_pending(txn) {
            return TxnStatus::Prepared;
        }
        noted_status(self.outcomes.outcome(txn))
    }

    /// Notes a transaction's outcome in the place of an earlier one.
    pub fn note(&mut self, txn: TxnNo, committed: bool) -> Result<(), Memory>
        ensures ok { OnOk result (self.new ≡ record self.old { outcomes = map.insert self.old.outcomes txn committed }) }
        ensures err { OnErr result (self.new ≡ self.old) }
    {
        self.outcomes.note(txn, committed)
    }

    /// Drops that library's outcomes with numbers below the bound; a brick has none. Takes no memory.
    pub fn trim(&mut self, library: NodeNo, below: u64)
        ensures { self.new ≡ record self.old { outcomes = trimmed self.old.outcomes library below } }
    {
        self.outcomes.trim(library, below);
    }
}

fn noted_status(outcome: Option<bool>) -> TxnStatus
    ensures { result ≡ noted_status outcome }
{
    match outcome {
        None => TxnStatus::NotPrepared,
        Some(true) => TxnStatus::Committed,
        Some(false) => TxnStatus::Aborted,
    }
}
