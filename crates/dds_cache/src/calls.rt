//! The calls of a cache's disk.

ghost use Rattle.std.specs.Prelude.{◌≡◌, ◌≤◌, OnOk, OnErr, IsErrOf};
ghost use Rattle.dds_base.specs.Outside.{Rose};
ghost use Rattle.dds_disk.specs.Pages.{ReadPage, WrotePage};

use crate::cache::CacheFault;
use dds_disk::disk::{Disk, DiskError};

/// Reads a page from the disk.
pub(crate) fn read_from<D: Disk>(
    disk: &mut D,
    page: u64,
    into: &mut [u8; 4_096],
) -> Result<(), CacheFault>
    ensures gives { OnOk result (ReadPage (D.pages disk.old) page into.new (D.pages disk.new)) }
    ensures err { OnErr result (D.pages disk.new ≡ D.pages disk.old) }
    ensures rose { IsErrOf result CacheFault.Disk → Rose (D.faults disk.old) (D.faults disk.new) }
    ensures steady { OnOk result (D.faults disk.new ≡ D.faults disk.old) }
    ensures never_falls { D.faults disk.old ≤ D.faults disk.new }
{
    match disk.read(page, into) {
        Ok(()) => Ok(()),
        Err(DiskError::Failed) => Err(CacheFault::Disk),
        Err(DiskError::Memory) => Err(CacheFault::Memory),
    }
}

/// Writes a page to the disk.
pub(crate) fn write_to<D: Disk>(
    disk: &mut D,
    page: u64,
    bytes: &[u8; 4_096],
) -> Result<(), CacheFault>
    ensures wrote { OnOk result (WrotePage (D.pages disk.old) page bytes.now (D.pages disk.new)) }
    ensures err { OnErr result (D.pages disk.new ≡ D.pages disk.old) }
    ensures rose { IsErrOf result CacheFault.Disk → Rose (D.faults disk.old) (D.faults disk.new) }
    ensures steady { OnOk result (D.faults disk.new ≡ D.faults disk.old) }
    ensures never_falls { D.faults disk.old ≤ D.faults disk.new }
{
    match disk.write(page, bytes) {
        Ok(()) => Ok(()),
        Err(DiskError::Failed) => Err(CacheFault::Disk),
        Err(DiskError::Memory) => Err(CacheFault::Memory),
    }
}
