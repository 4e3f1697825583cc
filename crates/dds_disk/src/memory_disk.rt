//! A disk over memory, whose calls fail as it is told.

ghost use Rattle.std.specs.Prelude.{◌≡◌, ◌≤◌, ◌↔◌, Option, Some, OnOk, OnErr, IsErrOf, IfOk, IsTrue};
ghost use Rattle.std.specs.FinMap.{empty, insert};
ghost use Rattle.dds_base.specs.Outside.{Rose, one_more, is_listed};
ghost use Rattle.dds_disk.specs.Pages.{ReadPage, WrotePage, page_at};
ghost use Rattle.dds_disk.specs.Disks.{MemoryDiskState};

use crate::disk::{Disk, DiskError};
use crate::page_map::PageMap;
use dds_base::memory::Memory;
use dds_base::memory_source::is_listed;
use dds_base::source::one_more;
use std::alloc::Global;
use std::marker::Model;

/// Keeps its pages in memory, and tells them. The calls, reads and writes together, are counted
/// from 0, failed ones too, and the last number is kept from the call of number `2^64 - 1` on.
#[derive(Drop)]
pub struct MemoryDisk {
    map: PageMap,
    failing: Vec<u64>,
    calls: u64,
    faults: u64,
}

impl Model for MemoryDisk {
    ghost use Rattle.dds_disk.specs.Disks.{MemoryDiskState, memory_disk_code};

    ghost Value = { MemoryDiskState };

    ghost coded = { memory_disk_code };

    ghost view = { λ a. record { pages = a.map; failing = a.failing.items; calls = a.calls; faults = a.faults } };
}

impl MemoryDisk {
    /// Makes a disk whose pages are zeros. `failing` lists the numbers of the calls that fail, in
    /// any order; a failed call changes no page.
    pub fn new(alloc: Global, failing: &[u64]) -> Result<MemoryDisk, Memory>
        ensures { IfOk result (λ disk. disk ≡ record { pages = empty; failing = failing.now; calls = 0; faults = 0 }) }
    {
        Ok(MemoryDisk {
            map: PageMap::new(alloc),
            failing: Vec::from_slice(alloc, failing)?,
            calls: 0,
            faults: 0,
        })
    }

    /// How many of its calls failed.
    pub fn faults(&self) -> u64
        ensures { result ≡ self.now.faults }
    {
        self.faults
    }

    /// The number of its next call.
    pub fn calls(&self) -> u64
        ensures { result ≡ self.now.calls }
    {
        self.calls
    }

    /// Counts a call, which fails where its number is listed.
    fn begin(&mut self) -> Result<(), DiskError>
        ensures ok { OnOk result (self.new ≡ record self.old { calls = one_more self.old.calls }) }
        ensures err { OnErr result (self.new ≡ record self.old { calls = one_more self.old.calls; faults = one_more self.old.faults }) }
        ensures fails { IsErrOf result DiskError.Failed ↔ IsTrue (is_listed self.old.calls self.old.failing) }
        ensures memory { ¬ (IsErrOf result DiskError.Memory) }
        ensures rose { OnErr result (Rose self.old.faults self.new.faults) }
        ensures never_falls { self.old.faults ≤ self.new.faults }
    {
        let call = self.calls;
        self.calls = one_more(call);
        if is_listed(call, self.failing.as_slice()) {
            self.faults = one_more(self.faults);
            return Err(DiskError::Failed);
        }
        Ok(())
    }
}

impl Disk for MemoryDisk {
    ghost pages = { λ disk. Some disk.pages };

    ghost faults = { λ disk. disk.faults };

    /// Fails at just the listed calls, and else gives the page.
    fn read(&mut self, page: u64, into: &mut [u8; 4_096]) -> Result<(), DiskError>
        ensures gives { OnOk result (ReadPage (Some self.old.pages) page into.new (Some self.new.pages)) }
        ensures kept { OnErr result (Some self.new.pages ≡ Some self.old.pages) }
        ensures rose { IsErrOf result DiskError.Failed → Rose self.old.faults self.new.faults }
        ensures steady { OnOk result (self.new.faults ≡ self.old.faults) }
        ensures never_falls { self.old.faults ≤ self.new.faults }
        ensures fails { IsErrOf result DiskError.Failed ↔ IsTrue (is_listed self.old.calls self.old.failing) }
        ensures ok { OnOk result (self.new ≡ record self.old { calls = one_more self.old.calls }) }
        ensures err { OnErr result (self.new ≡ record self.old { calls = one_more self.old.calls; faults = one_more self.old.faults }) }
        ensures memory { ¬ (IsErrOf result DiskError.Memory) }
    {
        self.begin()?;
        self.map.read(page, into);
        Ok(())
    }

    /// Fails at just the listed calls, and else makes the bytes the page, where there is memory.
    fn write(&mut self, page: u64, from: &[u8; 4_096]) -> Result<(), DiskError>
        ensures wrote { OnOk result (WrotePage (Some self.old.pages) page from.now (Some self.new.pages)) }
        ensures kept { OnErr result (Some self.new.pages ≡ Some self.old.pages) }
        ensures rose { IsErrOf result DiskError.Failed → Rose self.old.faults self.new.faults }
        ensures steady { OnOk result (self.new.faults ≡ self.old.faults) }
        ensures never_falls { self.old.faults ≤ self.new.faults }
        ensures fails { IsErrOf result DiskError.Failed ↔ IsTrue (is_listed self.old.calls self.old.failing) }
        ensures ok { OnOk result (self.new ≡ record self.old { pages = insert self.old.pages page from.now; calls = one_more self.old.calls }) }
        ensures failed { IsErrOf result DiskError.Failed → self.new ≡ record self.old { calls = one_more self.old.calls; faults = one_more self.old.faults } }
        ensures memory { IsErrOf result DiskError.Memory → self.new ≡ record self.old { calls = one_more self.old.calls } }
    {
        self.begin()?;
        self.map.write(page, from)?;
        Ok(())
    }
}
