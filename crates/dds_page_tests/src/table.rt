//! A store at work over a disk of memory.

use crate::acts::Act::{Add, Drop, Get, GetHalf, GetOther, Part, Put, Remove, Split};
use crate::acts::Answer::{Done, Keys, NoTable, Was};
use crate::acts::{Row, Tried, run};
use dds_disk::memory_disk::MemoryDisk;
use dds_table::store::Store;
use std::alloc::Global;

/// Parts in the order of places. The table is dropped, and values of each length then take its pages.
pub(crate) const VALUES: [Row; 14] = [
    (Add, 0..1, Done),
    (Put, 1..4, Was(false)),
    (Part(None), 0..1, Keys(Some(2), Some(1), false)),
    (Part(Some(1)), 0..1, Keys(Some(3), None, true)),
    (Drop, 0..1, Done),
    (Get, 0..1, NoTable),
    (Add, 0..1, Done),
    (Put, 0..6, Was(false)),
    (Put, 0..6, Was(true)),
    (Get, 0..6, Was(true)),
    (Remove, 5..6, Was(true)),
    (Remove, 5..6, Was(false)),
    (Get, 5..6, Was(false)),
    (Get, 3..4, Was(true)),
];

/// A split, and where each key is then.
pub(crate) const HALVES: [Row; 6] = [
    (Add, 0..1, Done),
    (Put, 11..20, Was(false)),
    (Split, 0..1, Done),
    (Get, 0..1, NoTable),
    (GetHalf, 11..20, Was(true)),
    (GetOther, 11..20, Was(false)),
];

/// Keys of many buckets.
pub(crate) const MANY: [Row; 3] = [
    (Add, 0..1, Done),
    (Put, 100..200, Was(false)),
    (Get, 100..200, Was(true)),
];

/// The first row that is answered otherwise by a new store.
fn first_wrong(alloc: Global, rows: &[Row]) -> Tried<Option<usize>> {
    let disk = MemoryDisk::new(alloc, &[])?;
    let mut store = Store::new(alloc, disk)?;
    run(alloc, &mut store, rows)
}

#[test]
fn tables_answer_as_they_must(rt: HostRuntime) {
    assert_eq!(rt; first_wrong(rt.alloc(), &VALUES), Ok(None));
    assert_eq!(rt; first_wrong(rt.alloc(), &HALVES), Ok(None));
    assert_eq!(rt; first_wrong(rt.alloc(), &MANY), Ok(None));
}
