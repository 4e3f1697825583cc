//! Taking a pair out of a table.

ghost use Rattle.std.specs.Prelude.{◌≡◌, ◌==◌, ◌&&◌, not, ℕ, ◌+◌, ◌-◌, ◌<◌, ◌≤◌, ◌^◌, List, ◌∷◌, [], Some, None, IsTrue, length, get_or};
ghost use Rattle.std.specs.Prelude.{IfOk, IfErr, OnOk, OnErr, IsErrOf, vec_capacity};
ghost use Rattle.std.specs.FinMap.{insert, remove as without};
ghost use Rattle.dds_base.specs.Outside.{Rose};
ghost use Rattle.dds_disk.specs.Pages.{Pages, page_at};
ghost use Rattle.dds_pages.specs.Bucket.{Bucket, bucket_bytes};
ghost use Rattle.dds_pages.specs.declared.bucket.PagePair.{PagePair};
ghost use Rattle.dds_chains.specs.Content.{content};
ghost use Rattle.dds_pages.specs.Said.{bucket_in};
ghost use Rattle.dds_base.specs.Place.{bucket as bucket_no};
ghost use Rattle.dds_chains.specs.Index.{IsChain, IsTable, IsIndex, Misses, place_of, chain_uses, slot_uses, table_uses, tables_use, vacant};
ghost use Rattle.dds_chains.specs.Answers.{IsNoPage, Bridged, Changed};
ghost use Rattle.dds_chains.specs.Part.{has_key};
ghost use Rattle.dds_chains.specs.Lawful.{IsSilent, IsChainRefused, IsTableRefused, WherePage};

use crate::fault::TableFault;
use crate::pairs::{read_bucket, write_root};
use crate::space::Space;
use crate::table::{Chains, Slot, first_page};
use dds_base::memory::Memory;
use dds_disk::disk::Disk;
use dds_pages::bucket::BucketPage;

/// Gives a bucket page another next page.
fn relink<D: Disk>(space: &mut Space<D>, page: u64, next: u64) -> Result<(), TableFault>
    ensures told { (a : Pages) (pairs : List PagePair) (was : ℕ) → D.pages space.old.cache.disk ≡ Some a →
        bucket_in (page_at a page) ≡ Some (record { pairs = pairs; next = was }) →
        OnOk result (D.pages space.new.cache.disk ≡ Some (insert a page (bucket_bytes (record { pairs = pairs; next = next })))) }
    ensures lawful { (a : Pages) (bucket : Bucket) → D.pages space.old.cache.disk ≡ Some a → bucket_in (page_at a page) ≡ Some bucket → IfErr result IsNoPage }
    ensures refused { IfErr result (IsSilent bucket_in space.new.cache.kept page) }
    ensures free { space.new.free.items ≡ space.old.free.items }
    ensures fresh { space.new.fresh ≡ space.old.fresh }
    ensures untold { D.pages space.old.cache.disk ≡ None → D.pages space.new.cache.disk ≡ None }
    ensures rose { IsErrOf result TableFault.Disk → Rose (D.faults space.old.cache.disk) (D.faults space.new.cache.disk) }
    ensures steady { OnOk result (D.faults space.new.cache.disk ≡ D.faults space.old.cache.disk) }
    ensures never_falls { D.faults space.old.cache.disk ≤ D.faults space.new.cache.disk }
{
    let bucket = match read_bucket(space, page) {
        Ok(bucket) => bucket,
        Err(fault) => return Err(fault),
    };
    let bucket = BucketPage::of(bucket.into_pairs(), next);
    bucket.write_in(&mut space.writer);
    match space.write(page) {
        Ok(()) => Ok(()),
        Err(fault) => Err(fault),
    }
}

/// Makes the chain lead past a slot.
fn bridge<D: Disk>(space: &mut Space<D>, slots: &[Slot], place: usize) -> Result<(), TableFault>
    requires within { place < length slots.now }
    ensures told { (a : Pages) → D.pages space.old.cache.disk ≡ Some a → IsChain a slots.now → ((n : ℕ) → chain_uses n slots.now ≤ 1) →
        OnOk result (Bridged a slots.now place (D.pages space.new.cache.disk)) }
    ensures lawful { (a : Pages) → D.pages space.old.cache.disk ≡ Some a → IsChain a slots.now → IfErr result IsNoPage }
    ensures refused { IfErr result (IsChainRefused space.new.cache.kept slots.now) }
    ensures free { space.new.free.items ≡ space.old.free.items }
    ensures fresh { space.new.fresh ≡ space.old.fresh }
    ensures untold { D.pages space.old.cache.disk ≡ None → D.pages space.new.cache.disk ≡ None }
    ensures rose { IsErrOf result TableFault.Disk → Rose (D.faults space.old.cache.disk) (D.faults space.new.cache.disk) }
    ensures steady { OnOk result (D.faults space.new.cache.disk ≡ D.faults space.old.cache.disk) }
    ensures never_falls { D.faults space.old.cache.disk ≤ D.faults space.new.cache.disk }
{
    if place == 0 {
        return Ok(());
    }
    let before = &slots[place - 1];
    let after = first_page(&slots[place + 1..]);
    match relink(space, before.page, after) {
        Ok(()) => Ok(()),
        Err(fault) => Err(fault),
    }
}

/// Takes a slot's pages back.
pub(crate) fn release<D: Disk>(space: &mut Space<D>, slot: &Slot) -> Result<(), Memory>
    ensures cache { space.new.cache ≡ space.old.cache }
    ensures number { OnOk result ((n : ℕ) → vacant n space.new.free.items space.new.fresh ≡ vacant n space.old.free.items space.old.fresh + slot_uses n
        slot.now) }
{
    space.give_back(slot.page)?;
    'pages: for page in slot.overflow.as_slice() {
        space.give_back(*page)?;
    }
    Ok(())
}

/// Takes out the pair at a place of the chain of its key's bucket.
pub(crate) fn remove_pair<D: Disk>(
    space: &mut Space<D>,
    table: &mut Chains,
    key: u64,
    place: usize,
) -> Result<(), TableFault>
    requires index { IsIndex table.old }
    requires there { place_of (get_or table.old.buckets.items (bucket_no key) []) key ≡ Some place }
    requires within { place < length (get_or table.old.buckets.items (bucket_no key) []) }
    requires single { (n : ℕ) → vacant n space.old.free.items space.old.fresh + table_uses n table.old ≤ 1 }
    ensures index { OnOk result (IsIndex table.new) }
    ensures name { OnOk result (table.new.name ≡ table.old.name) }
    ensures root { OnOk result (table.new.root ≡ table.old.root) }
    ensures number { OnOk result ((n : ℕ) → vacant n space.new.free.items space.new.fresh + table_uses n table.new
        ≡ vacant n space.old.free.items space.old.fresh + table_uses n table.old) }
    ensures told { (a : Pages) → D.pages space.old.cache.disk ≡ Some a → IsTable a table.old →
        OnOk result (Changed a space.old.free.items space.old.fresh table.old (D.pages space.new.cache.disk) table.new
        (without (content a table.old.root) key)) }
    ensures keys { OnOk result ((q : ℕ) → has_key table.new q ≡ (not (key == q) && has_key table.old q)) }
    ensures gone { OnOk result (Misses key (get_or table.new.buckets.items (bucket_no key) [])) }
    ensures less { (a : Pages) → D.pages space.old.cache.disk ≡ Some a → IsTable a table.old → OnOk result (table.new.len < table.old.len) }
    ensures lawful { (a : Pages) → D.pages space.old.cache.disk ≡ Some a → IsTable a table.old → IfErr result IsNoPage }
    ensures refused { IfErr result (IsTableRefused space.new.cache.kept table.old.buckets.items) }
    ensures stays { IfErr result (WherePage (table.new ≡ table.old)) }
    ensures untold { D.pages space.old.cache.disk ≡ None → D.pages space.new.cache.disk ≡ None }
    ensures rose { IsErrOf result TableFault.Disk → Rose (D.faults space.old.cache.disk) (D.faults space.new.cache.disk) }
    ensures steady { OnOk result (D.faults space.new.cache.disk ≡ D.faults space.old.cache.disk) }
    ensures never_falls { D.faults space.old.cache.disk ≤ D.faults space.new.cache.disk }
{
    bridge(space, table.chain(key), place)?;
    let slot = table.unlink(key, place);
    release(space, &slot)?;
    write_root(space, table)
}

/// Takes the pages of a chain back.
fn release_chain<D: Disk>(space: &mut Space<D>, slots: &[Slot]) -> Result<(), Memory>
    ensures cache { space.new.cache ≡ space.old.cache }
    ensures number { OnOk result ((n : ℕ) → vacant n space.new.free.items space.new.fresh ≡ vacant n space.old.free.items space.old.fresh + chain_uses n
        slots.now) }
{
    'slots: for slot in slots {
        release(space, slot)?;
    }
    Ok(())
}

/// Takes all pages of a table back.
fn release_table<D: Disk>(space: &mut Space<D>, table: &Chains) -> Result<(), Memory>
    ensures cache { space.new.cache ≡ space.old.cache }
    ensures number { OnOk result ((n : ℕ) → vacant n space.new.free.items space.new.fresh ≡ vacant n space.old.free.items space.old.fresh + table_uses n
        table.now) }
{
    space.give_back(table.root)?;
    'buckets: for slots in table.buckets.as_slice() {
        release_chain(space, slots.as_slice())?;
    }
    Ok(())
}

/// Takes back the pages of the table that was dropped last.
pub fn reclaim<D: Disk>(space: &mut Space<D>, dropped: &mut Vec<Chains>) -> Result<(), Memory>
    ensures cache { space.new.cache ≡ space.old.cache }
    ensures number { OnOk result ((n : ℕ) → vacant n space.new.free.items space.new.fresh + tables_use n dropped.new.items
        ≡ vacant n space.old.free.items space.old.fresh + tables_use n dropped.old.items) }
    ensures shorter { length dropped.new.items ≤ length dropped.old.items }
    ensures capacity { vec_capacity dropped.old ≤ vec_capacity dropped.new }
{
    match dropped.pop() {
        None => Ok(()),
        Some(table) => release_table(space, &table),
    }
}
