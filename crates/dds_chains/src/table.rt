//! A table in memory: where the pairs of each bucket stand.

ghost use Rattle.std.specs.Prelude.{◌≡◌, ◌+◌, ◌-◌, ◌<◌, ◌≤◌, ◌^◌, ◌∷◌, [], length, map, get_or, replicate, slice_set, OnOk, OnErr, IfOk};
ghost use Rattle.std.specs.Prelude.{IfSome, if◌then◌else◌, nat_lt};
ghost use Rattle.std.proofs.Math.ListN.{set};
ghost use Rattle.std.specs.List.{remove};
ghost use Rattle.dds_pages.specs.Fields.{padded};
ghost use Rattle.dds_pages.specs.Root.{root_bytes};
ghost use Rattle.dds_base.specs.Place.{bucket as bucket_no};
ghost use Rattle.dds_chains.specs.Index.{place_of, first_page};

use dds_base::items::Items;
use dds_base::memory::Memory;
use dds_base::name::LeafName;
use dds_base::place::bucket;
use dds_pages::fault::NO_PAGE;
use dds_pages::root::{BUCKETS, PAIRS, put_head};
use dds_pages::writer::PageWriter;
use std::alloc::Global;

/// Where a pair stands: its bucket page, how long its value is, and the overflow pages of a long value, in their order.
#[derive(Drop)]
pub struct Slot {
    pub key: u64,
    pub page: u64,
    pub len: u16,
    pub overflow: Items<u64>,
}

/// The chains of a table: its root page, its number of pairs, and the slots of each bucket in the order of its chain.
#[derive(Drop)]
pub struct Chains {
    pub name: LeafName,
    pub root: u64,
    pub len: u32,
    pub buckets: Vec<Items<Slot>>,
}

/// The bucket of a key.
#[tactic(auto, unfolding(dds_base::specs::Place::bucket))]
pub(crate) fn bucket_of(key: u64) -> u8
    ensures value { result ≡ bucket_no key }
    ensures range { bucket_no key < 256 }
{
    bucket(key)
}

/// The place of the key's slot.
pub(crate) fn place_of(slots: &[Slot], key: u64) -> Option<usize>
    ensures value { result ≡ place_of slots.now key }
    ensures within { IfSome result (λ place. place < length slots.now) }
{
    for (place, slot) in slots.iter().enumerate() {
        if slot.key == key {
            return Some(place);
        }
    }
    None
}

/// The first page of a chain, or `NO_PAGE`.
pub(crate) fn first_page(slots: &[Slot]) -> u64
    ensures { result ≡ first_page slots.now }
{
    if slots.is_empty() {
        return NO_PAGE;
    }
    let slot = &slots[0];
    slot.page
}

/// Buckets without pairs.
pub(crate) fn no_buckets(alloc: Global) -> Result<Vec<Items<Slot>>, Memory>
    ensures { IfOk result (λ buckets. buckets.items ≡ replicate 256 []) }
{
    let mut buckets = Vec::new(alloc);
    for _bucket in 0..BUCKETS {
        buckets.push(Items::new(alloc))?;
    }
    Ok(buckets)
}

impl Chains {
    /// The slots of a key's bucket.
    pub(crate) fn chain(&self, key: u64) -> &[Slot]
        requires { length self.now.buckets.items ≡ 256 }
        ensures { result.now ≡ get_or self.now.buckets.items (bucket_no key) [] }
    {
        let slots = &self.buckets[usize::from(bucket_of(key))];
        slots.as_slice()
    }

    /// Writes the table's root page in place of what was written.
    pub(crate) fn write_root_in(&self, writer: &mut PageWriter)
        requires long { length self.now.buckets.items ≡ 256 }
        ensures { padded writer.new ≡ root_bytes 2 (record { pairs = self.now.len; firsts = map first_page self.now.buckets.items }) }
    {
        put_head(writer, self.len);
        'buckets: for bucket in 0..BUCKETS {
            let slots = &self.buckets[bucket];
            writer.put_8(first_page(slots.as_slice()));
        }
    }

    /// Puts a slot first in its bucket's chain. At its last value the number of pairs stays.
    pub(crate) fn link(&mut self, slot: Slot) -> Result<(), Memory>
        requires long { length self.old.buckets.items ≡ 256 }
        requires few { self.old.len ≤ 16384 }
        ensures name { self.new.name ≡ self.old.name }
        ensures root { self.new.root ≡ self.old.root }
        ensures len { OnOk result (self.new.len ≡ (if nat_lt self.old.len 16384 then self.old.len + 1 else self.old.len)) }
        ensures buckets { OnOk result (self.new.buckets.items
            ≡ set self.old.buckets.items (bucket_no slot.key) (slot ∷ get_or self.old.buckets.items (bucket_no slot.key) [])) }
    {
        let bucket = usize::from(bucket_of(slot.key));
        self.buckets[bucket].insert(0, slot)?;
        if self.len < PAIRS {
            self.len += 1;
        }
        Ok(())
    }

    /// Takes a slot out of the chain of its key's bucket.
    pub(crate) fn unlink(&mut self, key: u64, place: usize) -> Slot
        requires long { length self.old.buckets.items ≡ 256 }
        requires within { place < length (get_or self.old.buckets.items (bucket_no key) []) }
        ensures slot { result ≡ get_or (get_or self.old.buckets.items (bucket_no key) []) place result }
        ensures name { self.new.name ≡ self.old.name }
        ensures root { self.new.root ≡ self.old.root }
        ensures len { self.new.len ≡ self.old.len - 1 }
        ensures buckets { self.new.buckets.items
            ≡ set self.old.buckets.items (bucket_no key) (remove (get_or self.old.buckets.items (bucket_no key) []) place) }
    {
        let bucket = usize::from(bucket_of(key));
        let slot = self.buckets[bucket].remove(place);
        self.len = self.len.saturating_sub(1);
        slot
    }
}
