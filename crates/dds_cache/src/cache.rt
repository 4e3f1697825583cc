//! A cache over a disk: pages that were read or written are held, the least recently used leaves.

ghost use Rattle.std.specs.Prelude.{◌≡◌, ℕ, ◌<◌, ◌≤◌, List, length, Some, None, [], IfOk, OnOk, OnErr, IsErrOf, IsTrue, IsOk, is_some, true, false};
ghost use Rattle.dds_base.specs.Outside.{Rose};
ghost use Rattle.dds_disk.specs.Pages.{ReadPage, WrotePage};
ghost use Rattle.dds_cache.specs.declared.cache.CacheFault.TheVariants.{Memory as NoMemory};
ghost use Rattle.dds_cache.specs.Kept.{CacheState, held, after_use};

use crate::calls::{read_from, write_to};
use crate::recent::{hold, hold_again, look, take_back, trim};
use dds_base::memory::Memory;
use dds_disk::disk::Disk;
use dds_disk::page::Page;
use lru::LruCache;
use std::alloc::Global;
use std::marker::Model;
use std::num::NonZeroUsize;

/// The most pages that a cache may hold.
pub const CAPACITY: usize = 4_096;

/// Why a call of a cache did nothing: its disk failed, and the disk's count of faults rose; or
/// there was no memory.
#[derive(Clone, Copy, Debug, PartialEq, Eq)]
pub enum CacheFault {
    Disk,
    Memory,
}

impl From<Memory> for CacheFault {
    ghost from_gives = { λ _ e. e ≡ NoMemory };

    fn from(_: Memory) -> CacheFault {
        CacheFault::Memory
    }
}

/// A disk's pages, of which the ones used last are held in memory. Each write goes to the disk
/// before it is answered, so where the disk tells its pages, those are the cache's pages at all
/// times. Over any other disk a page that is held is what was last read or written there.
#[derive(Drop)]
pub struct Cache<D: Disk> {
    alloc: Global,
    disk: D,
    pages: LruCache<u64, Page>,
    capacity: usize,
}

impl<D: Disk> Model for Cache<D> {
    ghost use Rattle.dds_cache.specs.Kept.{CacheState, cache_code, IsSound};

    ghost Value = { CacheState D };

    ghost coded = { cache_code D.code };

    ghost view = { λ a. record { disk = a.disk; kept = a.pages.entries; capacity = a.capacity } };

    ghost invariant = { λ a. IsSound (D.pages a.disk) a.pages.entries a.pages.cap a.capacity };
}

impl<D: Disk> Cache<D> {
    /// Makes a cache that holds nothing yet. Where it answers `Memory`, the disk was dropped.
    pub fn new(alloc: Global, disk: D, capacity: usize) -> Result<Cache<D>, Memory>
        requires some { 1 ≤ capacity }
        requires most { capacity ≤ 4096 }
        ensures { IfOk result (λ cache. cache ≡ record { disk = disk; kept = []; capacity = capacity }) }
    {
        let room = NonZeroUsize::new(capacity + 1).unwrap();
        let pages = LruCache::new(alloc, room)?;
        Ok(Cache {
            alloc,
            disk,
            pages,
            capacity,
        })
    }

    /// Copies the page to `into` where it is held, with no call of the disk.
    fn find(&mut self, page: u64, into: &mut [u8; 4_096]) -> bool
        ensures found { IsTrue result → (held self.old.kept page ≡ Some into.new)
            × (self.new ≡ record self.old { kept = after_use self.old.capacity self.old.kept page into.new }) }
        ensures gives { IsTrue result → ReadPage (D.pages self.old.disk) page into.new (D.pages self.old.disk) }
        ensures missing { result ≡ false → (held self.old.kept page ≡ None) × (self.new ≡ self.old) }
    {
        look(&mut self.pages, page, into)
    }

    /// Reads a page that isn't held from the disk, and holds it.
    fn fetch(&mut self, page: u64, into: &mut [u8; 4_096]) -> Result<(), CacheFault>
        ensures gives { OnOk result (ReadPage (D.pages self.old.disk) page into.new (D.pages self.new.disk)) }
        ensures kept { OnOk result (self.new.kept ≡ after_use self.old.capacity self.old.kept page into.new) }
        ensures capacity { self.new.capacity ≡ self.old.capacity }
        ensures err_pages { OnErr result (D.pages self.new.disk ≡ D.pages self.old.disk) }
        ensures err_kept { OnErr result (self.new.kept ≡ self.old.kept) }
        ensures rose { IsErrOf result CacheFault.Disk → Rose (D.faults self.old.disk) (D.faults self.new.disk) }
        ensures steady { OnOk result (D.faults self.new.disk ≡ D.faults self.old.disk) }
        ensures never_falls { D.faults self.old.disk ≤ D.faults self.new.disk }
    {
        read_from(&mut self.disk, page, into)?;
        let copy = Page::of(self.alloc, into)?;
        hold(&mut self.pages, page, copy)?;
        trim(&mut self.pages, self.capacity);
        Ok(())
    }

    /// The law that a cache may hold some page. Does nothing.
    fn may_hold(&self)
        ensures { 0 < self.now.capacity }
    {
        let _capacity = self.capacity;
    }

    /// Copies the page to `into`, of which nothing is said after an error. One that is held is given with no call of the
    /// disk, and any other with one read. The page is then the one that was used last, and it is held as it was given.
    pub fn read_into(&mut self, page: u64, into: &mut [u8; 4_096]) -> Result<(), CacheFault>
        ensures held { (bytes : List ℕ) → held self.old.kept page ≡ Some bytes → IsOk result × (into.new ≡ bytes) × (self.new.disk ≡ self.old.disk) }
        ensures gives { OnOk result (ReadPage (D.pages self.old.disk) page into.new (D.pages self.new.disk)) }
        ensures kept { OnOk result (self.new.kept ≡ after_use self.old.capacity self.old.kept page into.new) }
        ensures given { OnOk result (held self.new.kept page ≡ Some into.new) }
        ensures capacity { self.new.capacity ≡ self.old.capacity }
        ensures err_pages { OnErr result (D.pages self.new.disk ≡ D.pages self.old.disk) }
        ensures err_kept { OnErr result (self.new.kept ≡ self.old.kept) }
        ensures rose { IsErrOf result CacheFault.Disk → Rose (D.faults self.old.disk) (D.faults self.new.disk) }
        ensures steady { OnOk result (D.faults self.new.disk ≡ D.faults self.old.disk) }
        ensures never_falls { D.faults self.old.disk ≤ D.faults self.new.disk }
    {
        self.may_hold();
        if !self.find(page, into) {
            self.fetch(page, into)?;
        }
        Ok(())
    }

    /// Gives the page. One that is held is given with no call of the disk, and any other with one
    /// read. The page is then the one that was used last, and it is held as it was given.
    pub fn read(&mut self, page: u64) -> Result<[u8; 4_096], CacheFault>
        ensures held { (bytes : List ℕ) → held self.old.kept page ≡ Some bytes → (result ≡ Ok bytes) × (self.new.disk ≡ self.old.disk) }
        ensures gives { IfOk result (λ bytes. ReadPage (D.pages self.old.disk) page bytes (D.pages self.new.disk)) }
        ensures kept { IfOk result (λ bytes. self.new.kept ≡ after_use self.old.capacity self.old.kept page bytes) }
        ensures given { IfOk result (λ bytes. held self.new.kept page ≡ Some bytes) }
        ensures capacity { self.new.capacity ≡ self.old.capacity }
        ensures err_pages { OnErr result (D.pages self.new.disk ≡ D.pages self.old.disk) }
        ensures err_kept { OnErr result (self.new.kept ≡ self.old.kept) }
        ensures rose { IsErrOf result CacheFault.Disk → Rose (D.faults self.old.disk) (D.faults self.new.disk) }
        ensures steady { OnOk result (D.faults self.new.disk ≡ D.faults self.old.disk) }
        ensures never_falls { D.faults self.old.disk ≤ D.faults self.new.disk }
    {
        let mut bytes = [0; 4_096];
        self.read_into(page, &mut bytes)?;
        Ok(bytes)
    }

    /// Writes a page that is held to the disk, and then holds these bytes of it.
    fn write_held(&mut self, page: u64, bytes: &[u8; 4_096], copy: Page) -> Result<(), CacheFault>
        requires there { is_some (held self.old.kept page) ≡ true }
        requires same { copy ≡ bytes.now }
        ensures wrote { OnOk result (WrotePage (D.pages self.old.disk) page bytes.now (D.pages self.new.disk)) }
        ensures kept { OnOk result (self.new.kept ≡ after_use self.old.capacity self.old.kept page bytes.now) }
        ensures capacity { self.new.capacity ≡ self.old.capacity }
        ensures err_pages { OnErr result (D.pages self.new.disk ≡ D.pages self.old.disk) }
        ensures err_kept { OnErr result (self.new.kept ≡ self.old.kept) }
        ensures rose { IsErrOf result CacheFault.Disk → Rose (D.faults self.old.disk) (D.faults self.new.disk) }
        ensures steady { OnOk result (D.faults self.new.disk ≡ D.faults self.old.disk) }
        ensures never_falls { D.faults self.old.disk ≤ D.faults self.new.disk }
    {
        write_to(&mut self.disk, page, bytes)?;
        hold_again(&mut self.pages, page, copy);
        Ok(())
    }

    /// Holds a page that isn't held, and writes it to the disk.
    fn write_new(&mut self, page: u64, bytes: &[u8; 4_096], copy: Page) -> Result<(), CacheFault>
        requires missing { is_some (held self.old.kept page) ≡ false }
        requires same { copy ≡ bytes.now }
        ensures wrote { OnOk result (WrotePage (D.pages self.old.disk) page bytes.now (D.pages self.new.disk)) }
        ensures kept { OnOk result (self.new.kept ≡ after_use self.old.capacity self.old.kept page bytes.now) }
        ensures capacity { self.new.capacity ≡ self.old.capacity }
        ensures err_pages { OnErr result (D.pages self.new.disk ≡ D.pages self.old.disk) }
        ensures err_kept { OnErr result (self.new.kept ≡ self.old.kept) }
        ensures rose { IsErrOf result CacheFault.Disk → Rose (D.faults self.old.disk) (D.faults self.new.disk) }
        ensures steady { OnOk result (D.faults self.new.disk ≡ D.faults self.old.disk) }
        ensures never_falls { D.faults self.old.disk ≤ D.faults self.new.disk }
    {
        hold(&mut self.pages, page, copy)?;
        match write_to(&mut self.disk, page, bytes) {
            Ok(()) => {
                trim(&mut self.pages, self.capacity);
                Ok(())
            }
            Err(fault) => {
                take_back(&mut self.pages);
                Err(fault)
            }
        }
    }

    /// Makes the bytes the page: finds the memory, and then makes one write of the disk. The page
    /// is then the one that was used last.
    pub fn write(&mut self, page: u64, bytes: &[u8; 4_096]) -> Result<(), CacheFault>
        ensures wrote { OnOk result (WrotePage (D.pages self.old.disk) page bytes.now (D.pages self.new.disk)) }
        ensures kept { OnOk result (self.new.kept ≡ after_use self.old.capacity self.old.kept page bytes.now) }
        ensures capacity { self.new.capacity ≡ self.old.capacity }
        ensures err_pages { OnErr result (D.pages self.new.disk ≡ D.pages self.old.disk) }
        ensures err_kept { OnErr result (self.new.kept ≡ self.old.kept) }
        ensures rose { IsErrOf result CacheFault.Disk → Rose (D.faults self.old.disk) (D.faults self.new.disk) }
        ensures steady { OnOk result (D.faults self.new.disk ≡ D.faults self.old.disk) }
        ensures never_falls { D.faults self.old.disk ≤ D.faults self.new.disk }
    {
        let copy = Page::of(self.alloc, bytes)?;
        if self.pages.contains(&page) {
            self.write_held(page, bytes, copy)
        } else {
            self.write_new(page, bytes, copy)
        }
    }

    /// How many pages are held.
    pub fn len(&self) -> usize
        ensures value { result ≡ length self.now.kept }
        ensures within { result ≤ self.now.capacity }
        ensures few { self.now.capacity ≤ 4096 }
    {
        let _capacity = self.capacity;
        self.pages.len()
    }

    /// Gives the disk back.
    pub fn into_disk(self) -> D
        ensures { result ≡ self.disk }
    {
        let Cache {
            alloc: _,
            disk,
            pages: _,
            capacity: _,
        } = self;
        disk
    }
}
