//! Cases whose results were worked out by hand.

ghost use Rattle.std.specs.Prelude.{◌≡◌, IfSome};
ghost use Rattle.dds_base.specs.Op.{the_key};

use dds_base::brick_list::BrickList;
use dds_base::name::LeafName;
use dds_base::number::{CallNo, CallerNo, NodeNo, TxnNo};
use dds_base::op::Op;
use dds_base::pending::{Pending, TxnStatus};
use dds_base::update::Update;
use dds_locks::locks::Locks;
use std::alloc::Global;
use std::test::Fail;

/// The transaction of this number of a library.
fn txn(library: u8, number: u64) -> Option<TxnNo> {
    Some(TxnNo::new(NodeNo::library(library)?, number))
}

fn pending(txn: TxnNo, key: u64) -> Option<Pending>
    ensures { IfSome result (λ pending. the_key pending.op ≡ key) }
{
    Some(Pending {
        txn,
        caller: CallerNo::of(3)?,
        call: CallNo(7),
        op: Update::of(Op::Remove { key })?,
        list: BrickList::of(&[0, 1])?,
    })
}

/// Locks a key for the transaction of this number of a library.
fn lock(locks: &mut Locks, library: u8, number: u64, key: u64) -> Option<()> {
    let pending = pending(txn(library, number)?, key)?;
    if locks.holder(key).is_some() {
        return None;
    }
    locks.lock(pending).ok()
}

/// Locks keys, each for the transaction of the library and the number before it.
fn locks_with(alloc: Global, wanted: &[(u8, u64, u64)]) -> Option<Locks> {
    let mut locks = Locks::new(alloc);
    for (library, number, key) in wanted {
        lock(&mut locks, *library, *number, *key)?;
    }
    Some(locks)
}

/// The number of the node whose transaction has the key locked.
fn holder(locks: &Locks, key: u64) -> Option<u8> {
    Some(locks.holder(key)?.library().number())
}

#[test]
fn pending_transactions_lock_their_keys(rt: HostRuntime) -> Result<(), Fail> {
    let wanted = [(0, 5, 8), (1, 5, 3), (0, 5, 6)];
    let locks = locks_with(rt.alloc(), &wanted).ok_or("no memory")?;
    for (key, node) in &[(8, Some(64)), (3, Some(65)), (6, Some(64)), (5, None)] {
        assert_eq!(rt; holder(&locks, *key), *node, "key {key}");
    }
    Ok(())
}

/// Unlocks the first pending transaction of the number, and gives its key.
fn unlocked(locks: &mut Locks, txn: TxnNo) -> Option<u64> {
    Some(locks.unlock(txn)?.op.key())
}

#[test]
fn the_first_of_a_number_is_unlocked(rt: HostRuntime) -> Result<(), Fail> {
    let wanted = [(0, 5, 8), (1, 5, 3), (0, 5, 6)];
    let mut locks = locks_with(rt.alloc(), &wanted).ok_or("no memory")?;
    let txn = txn(0, 5).ok_or("no library")?;
    for want in &[
        (Some(8), TxnStatus::Prepared),
        (Some(6), TxnStatus::NotPrepared),
        (None, TxnStatus::NotPrepared),
    ] {
        assert_eq!(rt; (unlocked(&mut locks, txn), locks.status(txn)), *want);
    }
    Ok(())
}

/// Leases: the bits and the depth of the name, and the brick.
const LEASES: [(u16, u8, u8); 4] = [(0, 2, 4), (1, 2, 5), (3, 2, 4), (2, 2, 6)];

/// Gives a brick the lease of a name that no lease overlaps.
fn lease(locks: &mut Locks, name: LeafName, to: u8) -> Option<()> {
    let to = NodeNo::brick(to)?;
    if locks.leased(name).is_some() {
        return None;
    }
    locks.lease(name, to).ok()
}

fn leases_with(alloc: Global, wanted: &[(u16, u8, u8)]) -> Option<Locks> {
    let mut locks = Locks::new(alloc);
    for (bits, depth, to) in wanted {
        lease(&mut locks, LeafName::of(*bits, *depth)?, *to)?;
    }
    Some(locks)
}

/// The name of the first lease that the brick has over this name, once it gave one of its leases back.
fn lease_without(
    alloc: Global,
    (gone, asked): ((u16, u8), (u16, u8)),
    brick: u8,
) -> Option<LeafName> {
    let mut locks = leases_with(alloc, &LEASES)?;
    let brick = NodeNo::brick(brick)?;
    locks.release(LeafName::of(gone.0, gone.1)?, brick);
    locks.lease_of(LeafName::of(asked.0, asked.1)?, brick)
}

#[test]
fn just_the_named_lease_is_released(rt: HostRuntime) {
    // The name given back, the name asked for, the brick, and the lease that is found.
    for (names, brick, want) in &[
        (((2, 2), (1, 1)), 4, LeafName::of(3, 2)),
        (((3, 2), (0, 0)), 4, LeafName::of(0, 2)),
        (((1, 1), (1, 2)), 5, LeafName::of(1, 2)),
        (((2, 2), (1, 1)), 6, None),
    ] {
        assert_eq!(rt;
            lease_without(rt.alloc(), *names, *brick),
            *want,
            "brick {brick}"
        );
    }
}

/// Outcomes in the order in which they are noted: the library, the number, and whether it was committed.
const NOTED: [(u8, u64, bool); 5] = [
    (0, 4, true),
    (0, 5, false),
    (1, 4, true),
    (0, 6, true),
    (0, 6, false),
];

fn note(locks: &mut Locks, library: u8, number: u64, committed: bool) -> Option<()> {
    locks.note(txn(library, number)?, committed).ok()
}

fn noted(alloc: Global) -> Option<Locks> {
    let mut locks = Locks::new(alloc);
    for (library, number, committed) in &NOTED {
        note(&mut locks, *library, *number, *committed)?;
    }
    Some(locks)
}

/// These outcomes without those of library 0 below 5; a brick has none.
fn trimmed(alloc: Global) -> Option<Locks> {
    let (brick, library) = (NodeNo::brick(0)?, NodeNo::library(0)?);
    let mut locks = noted(alloc)?;
    locks.trim(brick, 9);
    locks.trim(library, 5);
    Some(locks)
}

fn status(locks: &Locks, library: u8, number: u64) -> Option<TxnStatus> {
    Some(locks.status(txn(library, number)?))
}

#[test]
fn outcomes_stay_until_they_are_trimmed(rt: HostRuntime) -> Result<(), Fail> {
    let locks = trimmed(rt.alloc()).ok_or("no memory")?;
    for (library, number, want) in &[
        (0, 4, TxnStatus::NotPrepared),
        (0, 5, TxnStatus::Aborted),
        (1, 4, TxnStatus::Committed),
        (0, 6, TxnStatus::Aborted),
        (2, 4, TxnStatus::NotPrepared),
    ] {
        let found = status(&locks, *library, *number);
        assert_eq!(rt; found, Some(*want), "{library}.{number}");
    }
    Ok(())
}
