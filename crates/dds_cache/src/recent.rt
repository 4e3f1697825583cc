//! The pages that a cache holds, in the order of their last use.

ghost use Rattle.std.specs.Prelude.{◌≡◌, ◌+◌, ◌<◌, ◌≤◌, length, take, drop, nat_eq, false, Some, None, OnOk, OnErr, is_some, true, IsSome, IsOk, IsTrue};
ghost use Rattle.std.specs.Map.{lookup, remove_entry};
ghost use Rattle.lru.specs.LruCache.{lru_cache};
ghost use Rattle.dds_cache.specs.Kept.{held, first_used};

use dds_base::memory::Memory;
use dds_disk::page::Page;
use lru::LruCache;

/// Puts the page first. Nothing else leaves, so there must be room for one page more.
pub(crate) fn hold(pages: &mut LruCache<u64, Page>, number: u64, page: Page) -> Result<(), Memory>
    requires { length pages.old.entries < pages.old.cap }
    ensures ok { OnOk result (pages.new ≡ lru_cache (first_used pages.old.entries number page) pages.old.cap) }
    ensures err { OnErr result (pages.new ≡ pages.old) }
    ensures again { IsSome (held pages.old.entries number) → IsOk result }
{
    pages.put(number, page)?;
    Ok(())
}

/// Puts a page first that is held already, with other bytes. Takes no memory.
pub(crate) fn hold_again(pages: &mut LruCache<u64, Page>, number: u64, page: Page)
    requires room { length pages.old.entries < pages.old.cap }
    requires there { is_some (held pages.old.entries number) ≡ true }
    ensures { pages.new ≡ lru_cache (first_used pages.old.entries number page) pages.old.cap }
{
    let _ = hold(pages, number, page);
}

/// Lets the page that was used longest ago leave, where there is one more than `most`.
pub(crate) fn trim(pages: &mut LruCache<u64, Page>, most: usize)
    requires { length pages.old.entries ≤ most + 1 }
    ensures { pages.new ≡ lru_cache (take most pages.old.entries) pages.old.cap }
{
    if pages.len() > most {
        pages.pop_lru();
    }
}

/// Takes the page back that was put first.
pub(crate) fn take_back(pages: &mut LruCache<u64, Page>)
    ensures { pages.new ≡ lru_cache (drop 1 pages.old.entries) pages.old.cap }
{
    pages.pop_mru();
}

/// Copies the page to `into`, where it is held, and puts it first.
pub(crate) fn look(pages: &mut LruCache<u64, Page>, number: u64, into: &mut [u8; 4_096]) -> bool
    ensures found { IsTrue result → (held pages.old.entries number ≡ Some into.new)
        × (pages.new ≡ lru_cache (first_used pages.old.entries number into.new) pages.old.cap) }
    ensures missing { result ≡ false → (held pages.old.entries number ≡ None) × (pages.new ≡ pages.old) }
{
    match pages.peek(&number) {
        Some(page) => page.copy_to(into),
        None => return false,
    }
    pages.promote(&number)
}
