//! The pages of a disk, handed out and taken back.

ghost use Rattle.std.specs.Prelude.{◌≡◌, ℕ, ◌+◌, ◌<◌, ◌≤◌, ◌^◌, ◌-◌, [], IfOk, IfErr, OnOk, OnErr, IsErrOf, None, Some};
ghost use Rattle.dds_base.specs.Outside.{Rose};
ghost use Rattle.std.specs.FinMap.{insert};
ghost use Rattle.dds_disk.specs.Pages.{Pages, page_at};
ghost use Rattle.dds_cache.specs.Kept.{held};
ghost use Rattle.dds_pages.specs.Fields.{padded};
ghost use Rattle.dds_chains.specs.Index.{same, vacant};
ghost use Rattle.dds_chains.specs.Answers.{IsNoPage};

use crate::fault::TableFault;
use dds_base::memory::Memory;
use dds_cache::cache::{Cache, CacheFault};
use dds_disk::disk::Disk;
use dds_pages::writer::PageWriter;
use std::alloc::Global;

/// How many pages are held in memory.
const HELD: usize = 64;

/// A cached disk, with the numbers of its pages that are in no use: `free` were used before, and
/// those from `fresh` on never were. Pages are read to `bytes`, and written from `writer`.
#[derive(Drop)]
pub struct Space<D: Disk> {
    pub alloc: Global,
    pub cache: Cache<D>,
    pub free: Vec<u64>,
    pub fresh: u64,
    pub(crate) bytes: [u8; 4_096],
    pub(crate) writer: PageWriter,
}

impl<D: Disk> Space<D> {
    /// A space of which no page is used, with a cache of 64 pages that holds none. Makes no call of the disk.
    pub fn new(alloc: Global, disk: D) -> Result<Space<D>, Memory>
        ensures cache { IfOk result (λ space. space.cache ≡ record { disk = disk; kept = []; capacity = 64 }) }
        ensures free { IfOk result (λ space. space.free.items ≡ []) }
        ensures fresh { IfOk result (λ space. space.fresh ≡ 0) }
    {
        Ok(Space {
            alloc,
            cache: Cache::new(alloc, disk, HELD)?,
            free: Vec::new(alloc),
            fresh: 0,
            bytes: [0; 4_096],
            writer: PageWriter::new(),
        })
    }

    /// Hands out a page. The last number stands for no page.
    pub(crate) fn take(&mut self) -> Result<u64, Memory>
        requires { (n : ℕ) → vacant n self.old.free.items self.old.fresh ≤ 1 }
        ensures below { IfOk result (λ page. page < 2 ^ 64 - 1) }
        ensures cache { self.new.cache ≡ self.old.cache }
        ensures number { IfOk result (λ page. (n : ℕ) →
            vacant n self.new.free.items self.new.fresh + same n page ≡ vacant n self.old.free.items self.old.fresh) }
    {
        let fresh = self.fresh;
        if let Some(page) = self.free.pop() {
            return Ok(page);
        }
        if fresh == u64::MAX {
            return Err(Memory);
        }
        self.fresh = fresh + 1;
        Ok(fresh)
    }

    /// Takes a page back.
    pub(crate) fn give_back(&mut self, page: u64) -> Result<(), Memory>
        ensures cache { self.new.cache ≡ self.old.cache }
        ensures number { OnOk result ((n : ℕ) → vacant n self.new.free.items self.new.fresh ≡ vacant n self.old.free.items self.old.fresh + same n page) }
    {
        self.free.push(page)?;
        Ok(())
    }

    /// Reads a page.
    pub(crate) fn read(&mut self, page: u64) -> Result<(), TableFault>
        ensures same { D.pages self.new.cache.disk ≡ D.pages self.old.cache.disk }
        ensures told { (a : Pages) → D.pages self.old.cache.disk ≡ Some a → OnOk result (self.new.bytes ≡ page_at a page) }
        ensures given { OnOk result (held self.new.cache.kept page ≡ Some self.new.bytes) }
        ensures lawful { IfErr result IsNoPage }
        ensures free { self.new.free.items ≡ self.old.free.items }
        ensures fresh { self.new.fresh ≡ self.old.fresh }
        ensures rose { IsErrOf result TableFault.Disk → Rose (D.faults self.old.cache.disk) (D.faults self.new.cache.disk) }
        ensures steady { OnOk result (D.faults self.new.cache.disk ≡ D.faults self.old.cache.disk) }
        ensures never_falls { D.faults self.old.cache.disk ≤ D.faults self.new.cache.disk }
    {
        match self.cache.read_into(page, &mut self.bytes) {
            Ok(()) => Ok(()),
            Err(CacheFault::Disk) => Err(TableFault::Disk),
            Err(CacheFault::Memory) => Err(TableFault::Memory),
        }
    }

    /// Writes a page.
    pub(crate) fn write(&mut self, page: u64) -> Result<(), TableFault>
        ensures told { (a : Pages) → D.pages self.old.cache.disk ≡ Some a →
            OnOk result (D.pages self.new.cache.disk ≡ Some (insert a page (padded self.old.writer))) }
        ensures lawful { IfErr result IsNoPage }
        ensures free { self.new.free.items ≡ self.old.free.items }
        ensures fresh { self.new.fresh ≡ self.old.fresh }
        ensures untold { D.pages self.old.cache.disk ≡ None → D.pages self.new.cache.disk ≡ None }
        ensures rose { IsErrOf result TableFault.Disk → Rose (D.faults self.old.cache.disk) (D.faults self.new.cache.disk) }
        ensures steady { OnOk result (D.faults self.new.cache.disk ≡ D.faults self.old.cache.disk) }
        ensures never_falls { D.faults self.old.cache.disk ≤ D.faults self.new.cache.disk }
    {
        match self.cache.write(page, self.writer.page()) {
            Ok(()) => Ok(()),
            Err(CacheFault::Disk) => Err(TableFault::Disk),
            Err(CacheFault::Memory) => Err(TableFault::Memory),
        }
    }

    /// Gives the disk back.
    pub fn into_disk(self) -> D
        ensures { result ≡ self.cache.disk }
    {
        let Space {
            alloc: _,
            cache,
            free: _,
            fresh: _,
            bytes: _,
            writer: _,
        } = self;
        cache.into_disk()
    }
}
