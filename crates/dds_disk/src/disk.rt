//! What a disk is: pages of 4,096 bytes by number, and calls that may fail.

ghost use Rattle.std.specs.Prelude.{◌≡◌, ℕ, ◌≤◌, Option, OnOk, OnErr, IsErrOf};
ghost use Rattle.dds_disk.specs.declared.disk.DiskError.TheVariants.{Memory as NoMemory};
ghost use Rattle.dds_base.specs.Outside.{Rose};
ghost use Rattle.dds_disk.specs.Pages.{Pages, ReadPage, WrotePage};

use dds_base::memory::Memory;

/// How many bytes a page has.
pub const PAGE_BYTES: usize = 4_096;

/// Why a call of a disk did nothing: it failed, and the disk's count of faults rose; or there was
/// no memory.
#[derive(Clone, Copy, Debug, PartialEq, Eq)]
pub enum DiskError {
    Failed,
    Memory,
}

impl From<Memory> for DiskError {
    ghost from_gives = { λ _ e. e ≡ NoMemory };

    fn from(_: Memory) -> DiskError {
        DiskError::Memory
    }
}

/// Keeps pages by their numbers. A page that was never written is zeros. What the pages are may be
/// told to callers' proofs or not.
pub trait Disk: Drop {
    // The pages, where they are told. No call changes whether they are.
    ghost pages: { Self → Option Pages };

    // How many calls failed. At its last value, 2^64 - 1, the count may stay.
    ghost faults: { Self → ℕ };

    /// Gives the page of this number. After an error the pages are as before, and nothing is said
    /// of `into`; a later call may succeed.
    fn read(&mut self, page: u64, into: &mut [u8; 4_096]) -> Result<(), DiskError>
        ensures gives { OnOk result (ReadPage (pages self.old) page into.new (pages self.new)) }
        ensures kept { OnErr result (pages self.new ≡ pages self.old) }
        ensures rose { IsErrOf result DiskError.Failed → Rose (faults self.old) (faults self.new) }
        ensures steady { OnOk result (faults self.new ≡ faults self.old) }
        ensures never_falls { faults self.old ≤ faults self.new };

    /// Makes the bytes the page of this number. After an error the pages are as before; a later
    /// call may succeed.
    fn write(&mut self, page: u64, from: &[u8; 4_096]) -> Result<(), DiskError>
        ensures wrote { OnOk result (WrotePage (pages self.old) page from.now (pages self.new)) }
        ensures kept { OnErr result (pages self.new ≡ pages self.old) }
        ensures rose { IsErrOf result DiskError.Failed → Rose (faults self.old) (faults self.new) }
        ensures steady { OnOk result (faults self.new ≡ faults self.old) }
        ensures never_falls { faults self.old ≤ faults self.new };
}

/// A disk that is lent is a disk.
impl<D: Disk> Disk for &mut D {
    ghost pages = { λ disk. D.pages disk.now };

    ghost faults = { λ disk. D.faults disk.now };

    fn read(&mut self, page: u64, into: &mut [u8; 4_096]) -> Result<(), DiskError> {
        Disk::read(&mut **self, page, into)
    }

    fn write(&mut self, page: u64, from: &[u8; 4_096]) -> Result<(), DiskError> {
        Disk::write(&mut **self, page, from)
    }
}
