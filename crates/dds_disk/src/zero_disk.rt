//! A disk that forgets: after its honest reads every page reads as zeros.

ghost use Rattle.std.specs.Prelude.{◌≡◌, ◌-◌, ◌≤◌, Option, None, OnOk, OnErr, IsErrOf, IfOk, IsOk};
ghost use Rattle.std.specs.FinMap.{empty, insert};
ghost use Rattle.dds_base.specs.Outside.{Rose};
ghost use Rattle.dds_disk.specs.Pages.{ReadPage, WrotePage, page_at};
ghost use Rattle.dds_disk.specs.Disks.{ZeroDiskState, given_by};

use crate::disk::{Disk, DiskError};
use crate::page_map::{PageMap, clear};
use dds_base::memory::Memory;
use std::alloc::Global;
use std::marker::Model;

/// Gives what was written in its first reads, and zeros in each later one. No call fails. It
/// doesn't tell its pages.
#[derive(Drop)]
pub struct ZeroDisk {
    map: PageMap,
    honest: u64,
}

impl Model for ZeroDisk {
    ghost use Rattle.dds_disk.specs.Disks.{ZeroDiskState, zero_disk_code};

    ghost Value = { ZeroDiskState };

    ghost coded = { zero_disk_code };

    ghost view = { λ a. record { written = a.map; honest = a.honest } };
}

impl ZeroDisk {
    /// Makes a disk whose first `honest` reads give what was written.
    pub fn new(alloc: Global, honest: u64) -> Result<ZeroDisk, Memory>
        ensures { IfOk result (λ disk. disk ≡ record { written = empty; honest = honest }) }
    {
        Ok(ZeroDisk {
            map: PageMap::new(alloc),
            honest,
        })
    }
}

impl Disk for ZeroDisk {
    ghost pages = { λ _. None };

    ghost faults = { λ _. 0 };

    /// Gives the page while there are honest reads left, and zeros then.
    fn read(&mut self, page: u64, into: &mut [u8; 4_096]) -> Result<(), DiskError>
        ensures always { IsOk result }
        ensures value { into.new ≡ given_by self.old page }
        ensures after { self.new ≡ record self.old { honest = self.old.honest - 1 } }
    {
        if self.honest > 0 {
            self.honest -= 1;
            self.map.read(page, into);
        } else {
            clear(into);
        }
        Ok(())
    }

    /// Makes the bytes the page, where there is memory.
    fn write(&mut self, page: u64, from: &[u8; 4_096]) -> Result<(), DiskError>
        ensures ok { OnOk result (self.new ≡ record self.old { written = insert self.old.written page from.now }) }
        ensures err { OnErr result (self.new ≡ self.old) }
        ensures never_failed { ¬ (IsErrOf result DiskError.Failed) }
    {
        self.map.write(page, from)?;
        Ok(())
    }
}
