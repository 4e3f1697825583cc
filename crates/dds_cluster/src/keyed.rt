//! A list of which some items have a key, with the keys.

ghost use Rattle.std.specs.Prelude.{◌≡◌, ◌++◌, ◌||◌, [], ◌∷◌, false, OnOk, OnErr, IsTrue, IfOk};
ghost use Rattle.std.specs.List.{list_any};
ghost use Rattle.std.specs.List.Sorted.{IsSorted};
ghost use Rattle.std.specs.Ordering.{is_eq};
ghost use Rattle.dds_cluster.specs.Keyed.{IsBehind, has, is_key};

use dds_base::items::Items;
use dds_base::memory::Memory;
use std::alloc::Global;
use std::collections::BTreeSet;

/// Items, and the keys of those that have one. A list that looks for its items by keys stands on it. Most keys come in
/// their order: a key that stands behind all of `rising` goes there, and each other key to `others`.
#[derive(Drop)]
pub struct Keyed<T, K: Ord> {
    pub items: Items<T>,
    pub rising: Vec<K>,
    pub others: BTreeSet<K>,
}

impl<T: Drop, K: Ord + Copy + Drop> Keyed<T, K> {
    /// Takes no memory.
    pub fn new(alloc: Global) -> Self
        ensures items { result.items ≡ [] }
        ensures rising { IsSorted K.cmp result.rising.items }
        ensures keys { (q : K) → has K.cmp result.rising.items result.others q ≡ false }
    {
        Keyed {
            items: Items::new(alloc),
            rising: Vec::new(alloc),
            others: BTreeSet::new(alloc),
        }
    }

    /// Whether a key is among the keys.
    pub fn has(&self, key: &K) -> bool
        requires { IsSorted K.cmp self.now.rising.items }
        ensures { result ≡ has K.cmp self.now.rising.items self.now.others key.now }
    {
        is_among(self.rising.as_slice(), key) || self.others.contains(key)
    }

    /// Adds an item with its key, if it has one.
    pub fn push(&mut self, item: T, key: Option<K>) -> Result<(), Memory>
        requires { IsSorted K.cmp self.old.rising.items }
        ensures items { OnOk result (self.new.items ≡ self.old.items ++ item ∷ []) }
        ensures rising { IsSorted K.cmp self.new.rising.items }
        ensures keys { OnOk result ((q : K) → has K.cmp self.new.rising.items self.new.others q
            ≡ (is_key K.cmp key q || has K.cmp self.old.rising.items self.old.others q)) }
        ensures items_err { OnErr result (self.new.items ≡ self.old.items) }
        ensures keys_err { OnErr result ((q : K) → has K.cmp self.new.rising.items self.new.others q
            ≡ has K.cmp self.old.rising.items self.old.others q) }
    {
        match key {
            None => self.items.push(item),
            Some(key) => self.push_keyed(item, key),
        }
    }

    fn push_keyed(&mut self, item: T, key: K) -> Result<(), Memory>
        requires { IsSorted K.cmp self.old.rising.items }
        ensures items { OnOk result (self.new.items ≡ self.old.items ++ item ∷ []) }
        ensures rising { IsSorted K.cmp self.new.rising.items }
        ensures keys { OnOk result ((q : K) → has K.cmp self.new.rising.items self.new.others q
            ≡ (is_eq (K.cmp key q) || has K.cmp self.old.rising.items self.old.others q)) }
        ensures items_err { OnErr result (self.new.items ≡ self.old.items) }
        ensures keys_err { OnErr result ((q : K) → has K.cmp self.new.rising.items self.new.others q
            ≡ has K.cmp self.old.rising.items self.old.others q) }
    {
        let place = self.items.len();
        self.items.push(item)?;
        match note(&mut self.rising, &mut self.others, key) {
            Ok(()) => Ok(()),
            Err(Memory) => {
                self.items.remove(place);
                Err(Memory)
            }
        }
    }
}

/// Adds a key.
fn note<K: Ord + Copy + Drop>(
    rising: &mut Vec<K>,
    others: &mut BTreeSet<K>,
    key: K,
) -> Result<(), Memory>
    requires { IsSorted K.cmp rising.old.items }
    ensures rising { IsSorted K.cmp rising.new.items }
    ensures ok { OnOk result ((q : K) → has K.cmp rising.new.items others.new q ≡ (is_eq (K.cmp key q) || has K.cmp rising.old.items others.old q)) }
    ensures err { OnErr result ((q : K) → has K.cmp rising.new.items others.new q ≡ has K.cmp rising.old.items others.old q) }
{
    if is_behind(rising.as_slice(), &key) {
        rising.push(key)?;
        return Ok(());
    }
    others.insert(key)?;
    Ok(())
}

/// Whether a key stands behind the last of a list.
fn is_behind<K: Ord>(keys: &[K], key: &K) -> bool
    ensures { IsTrue result → IsBehind K.cmp keys.now key.now }
{
    match keys.last() {
        None => true,
        Some(last) => last < key,
    }
}

/// Whether a key is among some in their order.
fn is_among<K: Ord>(keys: &[K], key: &K) -> bool
    requires { IsSorted K.cmp keys.now }
    ensures { result ≡ list_any (λ x. is_eq (K.cmp x key.now)) keys.now }
{
    keys.binary_search(key).is_ok()
}
