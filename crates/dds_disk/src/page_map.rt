//! The pages that were written, by their numbers.

ghost use Rattle.std.specs.Prelude.{◌≡◌, option_copied, OnOk, OnErr};
ghost use Rattle.std.specs.FinMap.{empty, get, insert};
ghost use Rattle.dds_disk.specs.Pages.{page_at, zero_page};

use crate::page::Page;
use dds_base::memory::Memory;
use std::alloc::Global;
use std::collections::BTreeMap;
use std::marker::Model;

/// Makes the page zeros.
#[tactic(auto, unfolding(crate::specs::Pages::zero_page))]
pub(crate) fn clear(into: &mut [u8; 4_096])
    ensures { into.new ≡ zero_page }
{
    *into = [0; 4_096];
}

/// Pages by number. A page that was never written is zeros.
#[derive(Drop)]
pub struct PageMap {
    alloc: Global,
    written: BTreeMap<u64, Page>,
}

impl Model for PageMap {
    ghost use Rattle.std.specs.FinMap.{from_entries};
    ghost use Rattle.dds_disk.specs.Pages.{Pages};
    ghost use Rattle.dds_disk.specs.Disks.{pages_code};

    ghost Value = { Pages };

    ghost coded = { pages_code };

    ghost view = { λ a. from_entries a.written.entries };
}

impl PageMap {
    /// No page was written. Takes no memory.
    pub fn new(alloc: Global) -> PageMap
        ensures { result ≡ empty }
    {
        PageMap {
            alloc: alloc,
            written: BTreeMap::new(alloc),
        }
    }

    /// The page of this number, where it was written.
    fn find(&self, number: u64) -> Option<&Page>
        ensures { option_copied result ≡ get self.now number }
    {
        self.written.get(&number)
    }

    /// Copies the page of this number to `into`.
    pub fn read(&self, number: u64, into: &mut [u8; 4_096])
        ensures { into.new ≡ page_at self.now number }
    {
        match self.find(number) {
            Some(page) => page.copy_to(into),
            None => clear(into),
        }
    }

    /// Makes the bytes the page of this number.
    pub fn write(&mut self, number: u64, bytes: &[u8; 4_096]) -> Result<(), Memory>
        ensures ok { OnOk result (self.new ≡ insert self.old number bytes.now) }
        ensures err { OnErr result (self.new ≡ self.old) }
    {
        let page = Page::of(self.alloc, bytes)?;
        self.written.insert(number, page)?;
        Ok(())
    }
}
