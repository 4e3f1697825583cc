//! Tables of version 1 on a disk of memory, written byte by byte.

ghost use Rattle.std.specs.Prelude.{◌≡◌, false, OnOk};

use crate::acts::Act::{Add, Get};
use crate::acts::Answer::{Done, Was};
use crate::acts::run;
use crate::pages::bucket_page;
use dds_base::memory::Memory;
use dds_base::name::LeafName;
use dds_disk::disk::Disk;
use dds_disk::memory_disk::MemoryDisk;
use dds_pages::fault::NO_PAGE;
use dds_table::fault::LiftFault;
use dds_table::store::Store;
use std::alloc::Global;

/// A root page with so many pairs, whose bucket 0 is at page 1; no other bucket has pages.
fn root_page(pairs: u8) -> [u8; 4_096] {
    let mut page = [0; 4_096];
    page[..8].copy_from_slice(&[1, 1, 0, 0, 0, 0, 0, pairs]);
    page[23] = 1;
    page[24..2_064].copy_from_slice(&[255; 2_040]);
    page
}

/// A disk with such a root page, and a bucket page with this next page; a call fails.
fn old_disk(alloc: Global, pairs: u8, next: u64, failing: u64) -> Result<MemoryDisk, LiftFault> {
    let mut disk = MemoryDisk::new(alloc, &[failing])?;
    let written = disk.write(0, &root_page(pairs)).is_ok()
        && disk.write(1, &bucket_page(1, next)).is_ok();
    if written {
        Ok(disk)
    } else {
        Err(LiftFault::Memory)
    }
}

/// Lifts a table where the store's conditions hold.
fn lift<D: Disk>(store: &mut Store<D>, old: &mut MemoryDisk, root: u64) -> Result<u32, LiftFault>
    requires { store.old.failed ≡ false }
    ensures { OnOk result (store.new.failed ≡ false) }
{
    let name = LeafName::of(0, 0).ok_or(Memory)?;
    if !store.has(name) || store.len(name) > 0 {
        return Err(LiftFault::Memory);
    }
    store.lift(name, old, root)
}

/// Lifts a table into a new one; says how many pairs it has, and whether key 0 isn't as it must be.
fn lifted(alloc: Global, old: &mut MemoryDisk, root: u64) -> Result<(u32, bool), LiftFault> {
    let mut store = Store::new(alloc, MemoryDisk::new(alloc, &[])?)?;
    run(alloc, &mut store, &[(Add, 0..1, Done)]).map_err(LiftFault::Store)?;
    let count = lift(&mut store, old, root)?;
    let wrong = run(alloc, &mut store, &[(Get, 0..1, Was(true))]).map_err(LiftFault::Store)?;
    Ok((count, wrong.is_some()))
}

#[test]
fn lifts_an_old_table(rt: HostRuntime) -> Result<(), LiftFault> {
    // The root page's pairs, the bucket page's next page, the page of the root, and the call that fails, if it comes.
    for ((pairs, next, root, failing), want) in [
        ((1, NO_PAGE, 0, 9), Ok((1, false))),
        ((2, NO_PAGE, 0, 9), Err(LiftFault::Page { page: 0 })),
        ((1, 1, 0, 9), Err(LiftFault::Page { page: 1 })),
        ((1, NO_PAGE, 2, 9), Err(LiftFault::Page { page: 2 })),
        ((1, NO_PAGE, 0, 2), Err(LiftFault::Old)),
        ((1, NO_PAGE, 0, 3), Err(LiftFault::Old)),
    ] {
        let mut old = old_disk(rt.alloc(), pairs, next, failing)?;
        assert_eq!(rt; lifted(rt.alloc(), &mut old, root), want);
    }
    Ok(())
}
