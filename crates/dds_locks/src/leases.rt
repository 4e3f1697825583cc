//! The write leases that a brick gave, in the order of giving.

ghost use Rattle.std.specs.Prelude.{◌≡◌, ◌<◌, IfSome, position, length};
ghost use Rattle.dds_locks.specs.Leases.{leased, lease_covers, lease_of, is_given, is_lease, released, released_all};

use dds_base::items::Items;
use dds_base::memory::Memory;
use dds_base::name::LeafName;
use dds_base::number::NodeNo;
use std::alloc::Global;

/// A name's keys, and the node that no other may update them before it gives the lease back.
#[derive(Clone, Copy, PartialEq, Eq, Debug)]
pub struct Lease {
    pub name: LeafName,
    pub holder: NodeNo,
}

/// The holder of the first lease given that overlaps the name; `None` where none does.
pub fn leased(leases: &[Lease], name: LeafName) -> Option<NodeNo>
    ensures { result ≡ leased leases.now name }
{
    for lease in leases {
        if lease.name.overlaps(&name) {
            return Some(lease.holder);
        }
    }
    None
}

/// Whether a lease's name covers the key.
pub fn lease_covers(leases: &[Lease], key: u64) -> bool
    ensures { result ≡ lease_covers leases.now key }
{
    leases.iter().any(|lease| lease.name.covers(key))
}

/// Whether a lease of this name and holder stands.
pub fn is_given(leases: &[Lease], name: LeafName, to: NodeNo) -> bool
    ensures { result ≡ is_given leases.now name to }
{
    leases
        .iter()
        .any(|lease| lease.holder == to && lease.name == name)
}

/// The name of the first lease of this holder that overlaps the name; `None` where it has none.
pub fn lease_of(leases: &[Lease], name: LeafName, to: NodeNo) -> Option<LeafName>
    ensures { result ≡ lease_of leases.now name to }
{
    for lease in leases {
        if lease.holder == to && lease.name.overlaps(&name) {
            return Some(lease.name);
        }
    }
    None
}

/// Drops the first lease of this name and holder, if there is one. Takes no memory.
pub fn release(leases: &mut Items<Lease>, name: LeafName, to: NodeNo)
    ensures { leases.new ≡ released leases.old name to }
{
    if let Some(place) = place_of(leases.as_slice(), name, to) {
        leases.remove(place);
    }
}

fn place_of(leases: &[Lease], name: LeafName, to: NodeNo) -> Option<usize>
    ensures value { result ≡ position (is_lease name to) leases.now }
    ensures within { IfSome result (λ place. place < length leases.now) }
{
    leases
        .iter()
        .position(|lease| lease.holder == to && lease.name == name)
}

/// Drops all leases of this holder. Takes no memory.
pub fn release_all(leases: &mut Items<Lease>, to: NodeNo)
    ensures { leases.new ≡ released_all leases.old to }
{
    let mut place = 0;
    'dropping: while place < leases.len() {
        if leases.at(place).holder == to {
            leases.remove(place);
        } else {
            place += 1;
        }
    }
}
