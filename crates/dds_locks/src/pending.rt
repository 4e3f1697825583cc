//! The pending transactions of a brick, in the order of preparing. Each locks its key.

ghost use Rattle.std.specs.Prelude.{◌≡◌, ℕ, ◌+◌, ◌-◌, ◌<◌, ◌++◌, [], ◌∷◌, OnOk, OnErr, IfSome, None, position, slice_get, option_copied};
ghost use Rattle.std.specs.Prelude.{length, nat_lt, if◌then◌else◌};
ghost use Rattle.dds_base.specs.Number.{Txn, same_txn};
ghost use Rattle.dds_base.specs.Op.{the_key};
ghost use Rattle.dds_locks.specs.Pending.{holder, first_of, without, any_under, times, count_at, is_numbered};

use dds_base::items::Items;
use dds_base::memory::Memory;
use dds_base::name::LeafName;
use dds_base::number::TxnNo;
use dds_base::pending::Pending;
use std::alloc::Global;
use std::collections::BTreeMap;
use std::marker::Model;

/// The pending transactions with an index of their keys and one of their numbers. Contracts see the list.
#[derive(Drop)]
pub struct PendingSet {
    items: Items<Pending>,
    keys: BTreeMap<u64, TxnNo>,
    counts: BTreeMap<TxnNo, u64>,
}

impl Model for PendingSet {
    ghost use Rattle.std.specs.Prelude.{List};
    ghost use Rattle.dds_base.specs.declared.pending.Pending.{Pending};
    ghost use Rattle.dds_locks.specs.Pending.{IsIndexed};

    ghost Value = { List Pending };

    ghost view = { λ a. a.items };

    ghost invariant = { λ a. IsIndexed a.items a.keys a.counts };
}

impl PendingSet {
    /// Takes no memory.
    pub fn new(alloc: Global) -> PendingSet
        ensures { result ≡ [] }
    {
        PendingSet {
            items: Items::new(alloc),
            keys: BTreeMap::new(alloc),
            counts: BTreeMap::new(alloc),
        }
    }

    /// Adds a transaction behind the others.
    pub fn lock(&mut self, pending: Pending) -> Result<(), Memory>
        requires { holder self.old (the_key pending.op) ≡ None }
        ensures ok { OnOk result (self.new ≡ self.old ++ pending ∷ []) }
        ensures err { OnErr result (self.new ≡ self.old) }
    {
        let key = pending.op.key();
        let txn = pending.txn;
        self.keys.insert(key, txn)?;
        match raise(&mut self.counts, txn) {
            Ok(()) => {}
            Err(_) => {
                self.keys.remove(&key);
                return Err(Memory);
            }
        }
        match self.items.push(pending) {
            Ok(()) => Ok(()),
            Err(_) => {
                self.keys.remove(&key);
                lower(&mut self.counts, txn);
                Err(Memory)
            }
        }
    }

    /// The transaction that has the key locked; `None` where it is free.
    pub fn holder(&self, key: u64) -> Option<TxnNo>
        ensures { result ≡ holder self.now key }
    {
        self.keys.get(&key).copied()
    }

    /// Whether a transaction of this number is pending.
    pub fn is_pending(&self, txn: TxnNo) -> bool
        ensures { result ≡ nat_lt 0 (times self.now txn) }
    {
        count(&self.counts, txn) > 0
    }

    /// Takes the first transaction of this number out; `None` where there is none. Takes no memory.
    pub fn unlock(&mut self, txn: TxnNo) -> Option<Pending>
        ensures value { result ≡ first_of self.old txn }
        ensures items { self.new ≡ without self.old txn }
    {
        let Some(place) = place_of(self.items.as_slice(), txn) else {
            return None;
        };
        let pending = self.items.remove(place);
        self.keys.remove(&pending.op.key());
        lower(&mut self.counts, txn);
        Some(pending)
    }

    /// The pending transactions in the order of preparing.
    pub fn as_slice(&self) -> &[Pending]
        ensures { result.now ≡ self.now }
    {
        self.items.as_slice()
    }

    /// The transaction at this place of the order of preparing; `None` past the end.
    pub fn at(&self, place: usize) -> Option<&Pending>
        ensures { option_copied result ≡ slice_get self.now place }
    {
        self.items.as_slice().get(place)
    }

    /// Whether some key of the name is locked. Looks at each transaction.
    pub fn any_under(&self, name: LeafName) -> bool
        ensures { result ≡ any_under self.now name }
    {
        self.items
            .as_slice()
            .iter()
            .any(|pending| name.covers(pending.op.key()))
    }
}

fn place_of(items: &[Pending], txn: TxnNo) -> Option<usize>
    ensures value { result ≡ position (is_numbered txn) items.now }
    ensures within { IfSome result (λ place. place < length items.now) }
{
    items.iter().position(|p| p.txn == txn)
}

fn count(counts: &BTreeMap<TxnNo, u64>, txn: TxnNo) -> u64
    ensures { result ≡ count_at counts.now txn }
{
    counts.get(&txn).copied().unwrap_or(0)
}

/// Counts the transaction once more. A count at its last value finds no memory.
fn raise(counts: &mut BTreeMap<TxnNo, u64>, txn: TxnNo) -> Result<(), Memory>
    ensures ok { OnOk result ((t : Txn) → count_at counts.new t ≡ (if same_txn txn t then count_at counts.old t + 1 else count_at counts.old t)) }
    ensures err { OnErr result ((t : Txn) → count_at counts.new t ≡ count_at counts.old t) }
{
    let count = count(counts, txn);
    if count == u64::MAX {
        return Err(Memory);
    }
    counts.insert(txn, count + 1)?;
    Ok(())
}

/// Counts the transaction once less. Takes no memory: a count that isn't taken away has its place.
fn lower(counts: &mut BTreeMap<TxnNo, u64>, txn: TxnNo)
    ensures { (t : Txn) → count_at counts.new t ≡ (if same_txn txn t then count_at counts.old t - 1 else count_at counts.old t) }
{
    let count = count(counts, txn);
    if count <= 1 {
        counts.remove(&txn);
    } else {
        let _ = counts.insert(txn, count - 1);
    }
}
