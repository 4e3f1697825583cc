//! The pairs of a table: reading, adding and taking out one of them.

ghost use Rattle.std.specs.Prelude.{◌≡◌, ◌==◌, ◌||◌, is_some, true, ℕ, ◌+◌, ◌-◌, ◌<◌, ◌≤◌, ◌^◌, ◌∷◌, [], Some, None, option_copied, IsTrue};
ghost use Rattle.std.specs.Prelude.{false, length, get_or, map, replicate, IfOk, IfErr, OnOk, OnErr, IsErrOf};
ghost use Rattle.std.specs.FinMap.{empty, get, insert, remove, contains_key};
ghost use Rattle.dds_base.specs.Name.{covers};
ghost use Rattle.dds_base.specs.Outside.{Rose};
ghost use Rattle.dds_disk.specs.Pages.{Pages, page_at};
ghost use Rattle.dds_pages.specs.Root.{Root, root_bytes};
ghost use Rattle.dds_pages.specs.Bucket.{Bucket, IsHeld, FitsAPage, bucket_bytes};
ghost use Rattle.dds_pages.specs.declared.bucket.Held.{Held};
ghost use Rattle.dds_chains.specs.Content.{content};
ghost use Rattle.dds_pages.specs.Said.{bucket_in};
ghost use Rattle.dds_base.specs.Place.{bucket as bucket_no};
ghost use Rattle.dds_chains.specs.Index.{first_page, IsStored, IsTable, IsIndex, Misses, place_of, slot_value, table_uses, vacant};
ghost use Rattle.dds_chains.specs.Part.{has_key};
ghost use Rattle.dds_chains.specs.Lawful.{IsGivenAs, IsSlotRefused, IsTableRefused, is_pair_of};
ghost use Rattle.dds_chains.specs.Answers.{IsNoPage, IsReadAs, Changed, Made};

use crate::fault::TableFault;
use crate::space::Space;
use crate::table::{Chains, Slot, first_page, no_buckets, place_of};
use crate::value::{Placed, fetch, is_place_of, len_of, place};
use dds_base::items::Items;
use dds_base::memory::Memory;
use dds_base::name::LeafName;
use dds_base::value::Value;
use dds_disk::disk::Disk;
use dds_pages::bucket::{BucketPage, Held, PagePair};
use dds_pages::fault::PageFault;
use std::alloc::Global;

/// Decodes a bucket page that was read.
fn decode(alloc: Global, page: u64, bytes: &[u8; 4_096]) -> Result<BucketPage, TableFault>
    ensures read { IsReadAs (bucket_in bytes.now) page result }
    ensures disk { ¬ (IsErrOf result TableFault.Disk) }
{
    match BucketPage::read(alloc, bytes) {
        Ok(bucket) => Ok(bucket),
        Err(PageFault::NotAPage { at: _ }) => Err(TableFault::Page { page }),
        Err(PageFault::Memory) => Err(TableFault::Memory),
    }
}

/// Reads a bucket page.
pub(crate) fn read_bucket<D: Disk>(
    space: &mut Space<D>,
    page: u64,
) -> Result<BucketPage, TableFault>
    ensures same { D.pages space.new.cache.disk ≡ D.pages space.old.cache.disk }
    ensures told { (a : Pages) → D.pages space.old.cache.disk ≡ Some a → IsReadAs (bucket_in (page_at a page)) page result }
    ensures given { IsGivenAs bucket_in space.new.cache.kept page result }
    ensures free { space.new.free.items ≡ space.old.free.items }
    ensures fresh { space.new.fresh ≡ space.old.fresh }
    ensures rose { IsErrOf result TableFault.Disk → Rose (D.faults space.old.cache.disk) (D.faults space.new.cache.disk) }
    ensures steady { OnOk result (D.faults space.new.cache.disk ≡ D.faults space.old.cache.disk) }
    ensures never_falls { D.faults space.old.cache.disk ≤ D.faults space.new.cache.disk }
{
    match space.read(page) {
        Ok(()) => decode(space.alloc, page, &space.bytes),
        Err(fault) => Err(fault),
    }
}

/// Whether there is just one pair, the slot's.
fn is_pair_of(pairs: &[PagePair], slot: &Slot) -> bool
    ensures { result ≡ is_pair_of slot.now pairs.now }
{
    if pairs.len() != 1 {
        return false;
    }
    let pair = &pairs[0];
    pair.key == slot.key && is_place_of(&pair.held, slot)
}

/// Reads the value of a slot. Its page is refused where it hasn't just the slot's pair.
pub(crate) fn read_value<D: Disk>(
    space: &mut Space<D>,
    slot: &Slot,
) -> Result<Option<Value>, TableFault>
    ensures same { D.pages space.new.cache.disk ≡ D.pages space.old.cache.disk }
    ensures told { (a : Pages) (next : ℕ) → D.pages space.old.cache.disk ≡ Some a → IsStored a slot.now next → next < 2 ^ 64 →
        IfOk result (λ value. value ≡ Some (slot_value a slot.now)) }
    ensures lawful { (a : Pages) (next : ℕ) → D.pages space.old.cache.disk ≡ Some a → IsStored a slot.now next → next < 2 ^ 64 → IfErr result IsNoPage }
    ensures refused { IfErr result (IsSlotRefused space.new.cache.kept slot.now) }
    ensures some { IfOk result (λ value. is_some value ≡ true) }
    ensures free { space.new.free.items ≡ space.old.free.items }
    ensures fresh { space.new.fresh ≡ space.old.fresh }
    ensures rose { IsErrOf result TableFault.Disk → Rose (D.faults space.old.cache.disk) (D.faults space.new.cache.disk) }
    ensures steady { OnOk result (D.faults space.new.cache.disk ≡ D.faults space.old.cache.disk) }
    ensures never_falls { D.faults space.old.cache.disk ≤ D.faults space.new.cache.disk }
{
    let bucket = match read_bucket(space, slot.page) {
        Ok(bucket) => bucket,
        Err(fault) => return Err(fault),
    };
    let pairs = bucket.pairs();
    if !is_pair_of(pairs, slot) {
        return Err(TableFault::Page { page: slot.page });
    }
    let pair = &pairs[0];
    match fetch(space, &pair.held, slot) {
        Ok(value) => Ok(Some(value)),
        Err(fault) => Err(fault),
    }
}

/// The value of a key.
pub fn get<D: Disk>(
    space: &mut Space<D>,
    table: &Chains,
    key: u64,
) -> Result<Option<Value>, TableFault>
    requires { IsIndex table.now }
    ensures same { D.pages space.new.cache.disk ≡ D.pages space.old.cache.disk }
    ensures told { (a : Pages) → D.pages space.old.cache.disk ≡ Some a → IsTable a table.now →
        IfOk result (λ value. value ≡ get (content a table.now.root) key) }
    ensures lawful { (a : Pages) → D.pages space.old.cache.disk ≡ Some a → IsTable a table.now → IfErr result IsNoPage }
    ensures refused { IfErr result (IsTableRefused space.new.cache.kept table.now.buckets.items) }
    ensures known { IfOk result (λ value. is_some value ≡ has_key table.now key) }
    ensures free { space.new.free.items ≡ space.old.free.items }
    ensures fresh { space.new.fresh ≡ space.old.fresh }
    ensures rose { IsErrOf result TableFault.Disk → Rose (D.faults space.old.cache.disk) (D.faults space.new.cache.disk) }
    ensures steady { OnOk result (D.faults space.new.cache.disk ≡ D.faults space.old.cache.disk) }
    ensures never_falls { D.faults space.old.cache.disk ≤ D.faults space.new.cache.disk }
{
    let slots = table.chain(key);
    match place_of(slots, key) {
        None => Ok(None),
        Some(place) => read_value(space, &slots[place]),
    }
}

/// Makes a page of one pair.
fn pair_page(alloc: Global, key: u64, held: Held, next: u64) -> Result<BucketPage, Memory>
    requires { IsHeld held }
    ensures { IfOk result (λ bucket. bucket ≡ record { pairs = record { key = key; held = held } ∷ []; next = next }) }
{
    let mut pairs = Items::new(alloc);
    pairs.push(PagePair { key, held })?;
    Ok(BucketPage::of(pairs, next))
}

/// Writes the table's root page.
pub(crate) fn write_root<D: Disk>(space: &mut Space<D>, table: &Chains) -> Result<(), TableFault>
    requires long { length table.now.buckets.items ≡ 256 }
    requires few { table.now.len ≤ 16384 }
    ensures told { (a : Pages) → D.pages space.old.cache.disk ≡ Some a →
        OnOk result (D.pages space.new.cache.disk
        ≡ Some (insert a table.now.root (root_bytes 2 (record { pairs = table.now.len; firsts = map first_page table.now.buckets.items })))) }
    ensures lawful { IfErr result IsNoPage }
    ensures free { space.new.free.items ≡ space.old.free.items }
    ensures fresh { space.new.fresh ≡ space.old.fresh }
    ensures untold { D.pages space.old.cache.disk ≡ None → D.pages space.new.cache.disk ≡ None }
    ensures rose { IsErrOf result TableFault.Disk → Rose (D.faults space.old.cache.disk) (D.faults space.new.cache.disk) }
    ensures steady { OnOk result (D.faults space.new.cache.disk ≡ D.faults space.old.cache.disk) }
    ensures never_falls { D.faults space.old.cache.disk ≤ D.faults space.new.cache.disk }
{
    table.write_root_in(&mut space.writer);
    space.write(table.root)
}

/// Makes an empty table.
pub fn create<D: Disk>(space: &mut Space<D>, name: LeafName) -> Result<Chains, TableFault>
    requires { (n : ℕ) → vacant n space.old.free.items space.old.fresh ≤ 1 }
    ensures index { IfOk result (λ table. IsIndex table) }
    ensures name { IfOk result (λ table. table.name ≡ name) }
    ensures len { IfOk result (λ table. table.len ≡ 0) }
    ensures buckets { IfOk result (λ table. table.buckets.items ≡ replicate 256 []) }
    ensures number { IfOk result (λ table. (n : ℕ) →
        vacant n space.new.free.items space.new.fresh + table_uses n table ≡ vacant n space.old.free.items space.old.fresh) }
    ensures told { (a : Pages) → D.pages space.old.cache.disk ≡ Some a →
        IfOk result (λ table. Made a space.old.free.items space.old.fresh (D.pages space.new.cache.disk) table) }
    ensures lawful { IfErr result IsNoPage }
    ensures untold { D.pages space.old.cache.disk ≡ None → D.pages space.new.cache.disk ≡ None }
    ensures rose { IsErrOf result TableFault.Disk → Rose (D.faults space.old.cache.disk) (D.faults space.new.cache.disk) }
    ensures steady { OnOk result (D.faults space.new.cache.disk ≡ D.faults space.old.cache.disk) }
    ensures never_falls { D.faults space.old.cache.disk ≤ D.faults space.new.cache.disk }
{
    let root = space.take()?;
    let table = Chains {
        name,
        root,
        len: 0,
        buckets: no_buckets(space.alloc)?,
    };
    match write_root(space, &table) {
        Ok(()) => Ok(table),
        Err(fault) => Err(fault),
    }
}

/// Adds a pair of a key that the table hasn't.
pub(crate) fn add_pair<D: Disk>(
    space: &mut Space<D>,
    table: &mut Chains,
    key: u64,
    value: &Value,
) -> Result<(), TableFault>
    requires index { IsIndex table.old }
    requires covers { IsTrue (covers table.old.name key) }
    requires new { Misses key (get_or table.old.buckets.items (bucket_no key) []) }
    requires single { (n : ℕ) → vacant n space.old.free.items space.old.fresh + table_uses n table.old ≤ 1 }
    ensures index { OnOk result (IsIndex table.new) }
    ensures name { OnOk result (table.new.name ≡ table.old.name) }
    ensures root { OnOk result (table.new.root ≡ table.old.root) }
    ensures number { OnOk result ((n : ℕ) → vacant n space.new.free.items space.new.fresh + table_uses n table.new
        ≡ vacant n space.old.free.items space.old.fresh + table_uses n table.old) }
    ensures keys { OnOk result ((q : ℕ) → has_key table.new q ≡ (key == q || has_key table.old q)) }
    ensures told { (a : Pages) → D.pages space.old.cache.disk ≡ Some a → IsTable a table.old → table.old.len < 16384 →
        OnOk result (Changed a space.old.free.items space.old.fresh table.old (D.pages space.new.cache.disk) table.new
        (insert (content a table.old.root) key value.now)) }
    ensures lawful { IfErr result IsNoPage }
    ensures untold { D.pages space.old.cache.disk ≡ None → D.pages space.new.cache.disk ≡ None }
    ensures rose { IsErrOf result TableFault.Disk → Rose (D.faults space.old.cache.disk) (D.faults space.new.cache.disk) }
    ensures steady { OnOk result (D.faults space.new.cache.disk ≡ D.faults space.old.cache.disk) }
    ensures never_falls { D.faults space.old.cache.disk ≤ D.faults space.new.cache.disk }
{
    let len = len_of(value);
    let Placed { held, overflow } = place(space, value)?;
    let page = space.take()?;
    let next = first_page(table.chain(key));
    let bucket = pair_page(space.alloc, key, held, next)?;
    bucket.write_in(&mut space.writer);
    space.write(page)?;
    let slot = Slot {
        key,
        page,
        len,
        overflow,
    };
    table.link(slot)?;
    write_root(space, table)
}
