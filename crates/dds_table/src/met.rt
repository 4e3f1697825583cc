//! The keys and the pages that a walk has met, kept in order, so that each is found in few steps.

ghost use Rattle.std.specs.Prelude.{◌≡◌, ◌==◌, ◌&&◌, ◌∷◌, [], not, ℕ, List, OnOk, IfOk};
ghost use Rattle.std.specs.List.{list_any};
ghost use Rattle.dds_base.specs.declared.pair.Pair.{Pair};
ghost use Rattle.dds_table.specs.Old.{is_fresh};
ghost use Rattle.dds_table.specs.Met.{AreKeysOf, ArePagesOf, Adds};

use dds_base::memory::Memory;
use dds_base::name::LeafName;
use dds_base::place::bucket;
use std::alloc::Global;
use std::collections::BTreeSet;

/// The keys of the pairs that were read, and the pages that were read.
#[derive(Drop)]
pub(crate) struct Met {
    pub(crate) keys: BTreeSet<u64>,
    pub(crate) pages: BTreeSet<u64>,
}

/// Adds a number, which may be there.
pub(crate) fn add(numbers: &mut BTreeSet<u64>, number: u64) -> Result<(), Memory>
    ensures { OnOk result (Adds numbers.old number numbers.new) }
{
    numbers.insert(number)?;
    Ok(())
}

/// Only the root page was met.
pub(crate) fn only(alloc: Global, page: u64) -> Result<Met, Memory>
    ensures keys { IfOk result (λ met. AreKeysOf met.keys []) }
    ensures pages { IfOk result (λ met. ArePagesOf met.pages (page ∷ [])) }
{
    let mut pages = BTreeSet::new(alloc);
    add(&mut pages, page)?;
    Ok(Met {
        keys: BTreeSet::new(alloc),
        pages,
    })
}

/// Whether a key may stand behind the pairs with these keys: it is the bucket's, the name covers it, and it wasn't read
/// before.
pub(crate) fn is_fresh(at: u8, name: LeafName, keys: &BTreeSet<u64>, key: u64) -> bool
    ensures { (pairs : List Pair) → AreKeysOf keys.now pairs → result ≡ is_fresh at name pairs key }
{
    bucket(key) == at && name.covers(key) && !keys.contains(&key)
}

/// Whether a page was read before.
pub(crate) fn was_seen(pages: &BTreeSet<u64>, page: u64) -> bool
    ensures { (seen : List ℕ) → ArePagesOf pages.now seen → result ≡ list_any (λ other. other == page) seen }
{
    pages.contains(&page)
}
