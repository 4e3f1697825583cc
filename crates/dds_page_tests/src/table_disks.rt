//! A store over disks that fail, and over disks that give other pages; pages that are used again.

ghost use Rattle.std.specs.Prelude.{◌≡◌, None, Option, false};

use crate::acts::Act::{Add, Put, Remove};
use crate::acts::Answer::{Done, Was};
use crate::acts::{Row, Tried, run};
use crate::table::{HALVES, MANY, VALUES};
use dds_base::memory::Memory;
use dds_disk::disk::{Disk, DiskError};
use dds_disk::memory_disk::MemoryDisk;
use dds_disk::zero_disk::ZeroDisk;
use dds_table::fault::TableFault;
use dds_table::store::Store;
use std::alloc::Global;
use std::test::Fail;

/// Whether the rows are answered as they must be where a call of the disk fails, by a fault just where the disk had one.
fn is_met(alloc: Global, rows: &[Row], call: u64) -> Result<bool, Memory> {
    let mut disk = MemoryDisk::new(alloc, &[call])?;
    let mut store = Store::new(alloc, &mut disk)?;
    let answer = run(alloc, &mut store, rows);
    let _disk = store.into_disk();
    match answer {
        Ok(wrong) => Ok(wrong.is_none() && disk.faults() == 0),
        Err(fault) => Ok(fault == TableFault::Disk && disk.faults() > 0),
    }
}

#[test]
fn a_call_of_the_disk_fails(rt: HostRuntime) -> Result<(), Memory> {
    for call in 0..120u64 {
        assert!(rt; is_met(rt.alloc(), &VALUES, call)?, "call {call}");
        assert!(rt; is_met(rt.alloc(), &HALVES, call)?, "call {call}");
    }
    Ok(())
}

/// A value in the bucket page, and one of two overflow pages, put and removed.
const AGAIN: [Row; 4] = [
    (Put, 6..7, Was(false)),
    (Remove, 6..7, Was(true)),
    (Put, 4..5, Was(false)),
    (Remove, 4..5, Was(true)),
];

/// The first row that is answered otherwise in so many turns.
fn again<D: Disk>(alloc: Global, store: &mut Store<D>, turns: u32) -> Tried<Option<usize>>
    requires { store.old.failed ≡ false }
{
    let mut wrong = run(alloc, store, &[(Add, 0..1, Done)])?;
    for _turn in 0..turns {
        if wrong.is_none() {
            wrong = run(alloc, store, &AGAIN)?;
        }
    }
    Ok(wrong)
}

#[test]
fn freed_pages_are_used_again(rt: HostRuntime) -> Result<(), Fail> {
    let mut disk = MemoryDisk::new(rt.alloc(), &[])?;
    let mut store = Store::new(rt.alloc(), &mut disk)?;
    assert_eq!(rt; again(rt.alloc(), &mut store, 1_000), Ok(None));
    let _disk = store.into_disk();
    for page in 0..100u64 {
        let mut bytes = [0; 4_096];
        assert_eq!(rt; disk.read(page, &mut bytes), Ok(()));
        assert_eq!(rt; bytes[0] != 0, page < 4, "page {page}");
    }
    Ok(())
}

/// Whether a page is refused.
fn is_refused<D: Disk>(alloc: Global, disk: D) -> Tried<bool> {
    let mut store = Store::new(alloc, disk)?;
    match run(alloc, &mut store, &MANY) {
        Ok(None) => Ok(false),
        Err(TableFault::Page { page: _ }) => Ok(true),
        _ => Err(TableFault::Memory),
    }
}

#[test]
fn a_disk_forgets(rt: HostRuntime) -> Result<(), Fail> {
    for (honest, refused) in [(0, true), (40, true), (1_000, false)] {
        let disk = ZeroDisk::new(rt.alloc(), honest)?;
        assert_eq!(rt; is_refused(rt.alloc(), disk), Ok(refused), "{honest}");
    }
    Ok(())
}

/// A disk that gives the next page in the place of each, and doesn't tell its pages.
#[derive(Drop)]
struct NextDisk {
    disk: MemoryDisk,
}

impl Disk for NextDisk {
    ghost pages = { λ _. None };

    ghost faults = { λ disk. disk.disk.faults };

    fn read(&mut self, page: u64, into: &mut [u8; 4_096]) -> Result<(), DiskError> {
        self.disk.read(page.wrapping_add(1), into)
    }

    fn write(&mut self, page: u64, from: &[u8; 4_096]) -> Result<(), DiskError> {
        self.disk.write(page, from)
    }
}

#[test]
fn another_page_is_refused(rt: HostRuntime) -> Result<(), Fail> {
    let disk = MemoryDisk::new(rt.alloc(), &[])?;
    assert_eq!(rt; is_refused(rt.alloc(), NextDisk { disk }), Ok(true));
    Ok(())
}
