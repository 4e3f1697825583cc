//! The walk through the pages of a table of version 1, which another disk has.

ghost use Rattle.std.specs.Prelude.{◌≡◌, ℕ, ◌≤◌, ◌<◌, ◌+◌, Some, None, true, false, Ok, length, slice_index, IfOk, IfErr, OnOk, IsErrOf};
ghost use Rattle.dds_base.specs.Outside.{Rose};
ghost use Rattle.dds_disk.specs.Pages.{Pages, page_at};
ghost use Rattle.dds_pages.specs.Bucket.{IsHere, AreHere};
ghost use Rattle.dds_table.specs.Old.{here_value, add_all, start_of, left, bucket_turn, page_turn, turn, counted, IsOldRead, IsAdded};
ghost use Rattle.dds_table.specs.Old.{IsTurn, IsCounted, IsWalk, IsUnread, NoStore, AreCovered};
ghost use Rattle.dds_pages.specs.Said.{old_root_in, old_bucket_in};
ghost use Rattle.dds_table.specs.Met.{AreKeysOf, IsMetBy};

use crate::fault::LiftFault;
use crate::met::{Met, add, is_fresh, only, was_seen};
use dds_base::items::Items;
use dds_base::memory::Memory;
use dds_base::name::LeafName;
use dds_base::pair::{Pair, PairList};
use dds_base::value::Value;
use dds_disk::disk::{Disk, DiskError};
use dds_pages::bucket::{Held, PagePair};
use dds_pages::fault::{NO_PAGE, PageFault};
use dds_pages::old::{OldBucketPage, OldRootPage};
use std::alloc::Global;
use std::collections::BTreeSet;

/// Where a walk is: the bucket, the next page of its chain, the pages that were read, and the pairs on them.
#[derive(Drop)]
pub(crate) struct Walk {
    pub(crate) bucket: u8,
    pub(crate) page: u64,
    pub(crate) seen: Items<u64>,
    pub(crate) pairs: PairList,
}

/// Reads a page of the other disk.
fn read_page<E: Disk>(old: &mut E, page: u64) -> Result<[u8; 4_096], LiftFault>
    ensures same { E.pages old.new ≡ E.pages old.old }
    ensures told { (p : Pages) → E.pages old.old ≡ Some p → IfOk result (λ bytes. bytes ≡ page_at p page) }
    ensures unread { IfErr result IsUnread }
    ensures rose { IsErrOf result LiftFault.Old → Rose (E.faults old.old) (E.faults old.new) }
    ensures steady { OnOk result (E.faults old.new ≡ E.faults old.old) }
    ensures never_falls { E.faults old.old ≤ E.faults old.new }
{
    let mut bytes = [0; 4_096];
    match old.read(page, &mut bytes) {
        Ok(()) => Ok(bytes),
        Err(DiskError::Failed) => Err(LiftFault::Old),
        Err(DiskError::Memory) => Err(LiftFault::Memory),
    }
}

fn root_of(page: u64, bytes: &[u8; 4_096]) -> Result<OldRootPage, LiftFault>
    ensures read { IsOldRead (old_root_in bytes.now) page result }
    ensures disk { ¬ (IsErrOf result LiftFault.Old) }
{
    match OldRootPage::read(bytes) {
        Ok(root) => Ok(root),
        Err(PageFault::NotAPage { at: _ }) => Err(LiftFault::Page { page }),
        Err(PageFault::Memory) => Err(LiftFault::Memory),
    }
}

fn bucket_of(alloc: Global, page: u64, bytes: &[u8; 4_096]) -> Result<OldBucketPage, LiftFault>
    ensures read { IsOldRead (old_bucket_in bytes.now) page result }
    ensures disk { ¬ (IsErrOf result LiftFault.Old) }
{
    match OldBucketPage::read(alloc, bytes) {
        Ok(bucket) => Ok(bucket),
        Err(PageFault::NotAPage { at: _ }) => Err(LiftFault::Page { page }),
        Err(PageFault::Memory) => Err(LiftFault::Memory),
    }
}

/// Reads the root page.
fn read_root<E: Disk>(old: &mut E, page: u64) -> Result<OldRootPage, LiftFault>
    ensures same { E.pages old.new ≡ E.pages old.old }
    ensures told { (p : Pages) → E.pages old.old ≡ Some p → IsOldRead (old_root_in (page_at p page)) page result }
    ensures store { IfErr result NoStore }
    ensures rose { IsErrOf result LiftFault.Old → Rose (E.faults old.old) (E.faults old.new) }
    ensures steady { OnOk result (E.faults old.new ≡ E.faults old.old) }
    ensures never_falls { E.faults old.old ≤ E.faults old.new }
{
    match read_page(old, page) {
        Ok(bytes) => root_of(page, &bytes),
        Err(fault) => Err(fault),
    }
}

/// Reads a bucket page.
fn read_bucket<E: Disk>(alloc: Global, old: &mut E, page: u64) -> Result<OldBucketPage, LiftFault>
    ensures same { E.pages old.new ≡ E.pages old.old }
    ensures told { (p : Pages) → E.pages old.old ≡ Some p → IsOldRead (old_bucket_in (page_at p page)) page result }
    ensures store { IfErr result NoStore }
    ensures rose { IsErrOf result LiftFault.Old → Rose (E.faults old.old) (E.faults old.new) }
    ensures steady { OnOk result (E.faults old.new ≡ E.faults old.old) }
    ensures never_falls { E.faults old.old ≤ E.faults old.new }
{
    match read_page(old, page) {
        Ok(bytes) => bucket_of(alloc, page, &bytes),
        Err(fault) => Err(fault),
    }
}

/// A copy of a value that stands in its page.
fn value_of(held: &Held) -> Result<Value, Memory>
    requires { IsHere held.now }
    ensures { IfOk result (λ value. value ≡ here_value held.now) }
{
    match held {
        Held::Here { value } => value.copy(),
        Held::Chain { len: _, first: _ } => unreachable!(),
    }
}

/// Adds the pairs of a page of a bucket; `false` where a key may not stand there.
fn add_all(
    at: u8,
    name: LeafName,
    pairs: &mut PairList,
    keys: &mut BTreeSet<u64>,
    more: &[PagePair],
) -> Result<bool, Memory>
    requires here { AreHere more.now }
    requires covered { AreCovered name pairs.old }
    requires keys { AreKeysOf keys.old pairs.old }
    ensures value { IfOk result (λ added. IsAdded (add_all at name pairs.old more.now) added pairs.new) }
    ensures covered { AreCovered name pairs.new }
    ensures keys { OnOk result (AreKeysOf keys.new pairs.new) }
{
    'adding: for pair in more {
        if !is_fresh(at, name, keys, pair.key) {
            return Ok(false);
        }
        let value = value_of(&pair.held)?;
        add(keys, pair.key)?;
        pairs.push(Pair {
            key: pair.key,
            value,
        })?;
    }
    Ok(true)
}

/// Goes on to the next bucket; `false` where there is none.
fn next_bucket(root: &OldRootPage, walk: &mut Walk) -> bool
    ensures value { IsTurn (bucket_turn root.now.firsts walk.old) walk.old walk.new (Ok result) }
    ensures fewer { result ≡ true → left walk.new < left walk.old }
    ensures pairs { walk.new.pairs ≡ walk.old.pairs }
{
    if walk.bucket == 255 {
        return false;
    }
    walk.bucket += 1;
    walk.page = root.first(walk.bucket);
    true
}

/// Takes the pairs of a page that was read.
fn take_page(
    name: LeafName,
    walk: &mut Walk,
    met: &mut Met,
    bucket: &OldBucketPage,
) -> Result<bool, LiftFault>
    requires covered { AreCovered name walk.old.pairs }
    requires met { IsMetBy walk.old met.old }
    ensures value { IsTurn (page_turn name walk.old (Some bucket.now)) walk.old walk.new result }
    ensures covered { AreCovered name walk.new.pairs }
    ensures met { OnOk result (IsMetBy walk.new met.new) }
    ensures fewer { IfOk result (λ _. left walk.new < left walk.old) }
    ensures disk { ¬ (IsErrOf result LiftFault.Old) }
{
    let page = walk.page;
    let _seen = walk.seen.len();
    if !add_all(
        walk.bucket,
        name,
        &mut walk.pairs,
        &mut met.keys,
        bucket.pairs(),
    )? {
        return Err(LiftFault::Page { page });
    }
    add(&mut met.pages, page)?;
    walk.seen.push(page)?;
    walk.page = bucket.next();
    Ok(true)
}

/// One turn of a walk; `false` where it is at its end.
fn turn<E: Disk>(
    alloc: Global,
    old: &mut E,
    name: LeafName,
    root: &OldRootPage,
    walk: &mut Walk,
    met: &mut Met,
) -> Result<bool, LiftFault>
    requires covered { AreCovered name walk.old.pairs }
    requires met { IsMetBy walk.old met.old }
    ensures same { E.pages old.new ≡ E.pages old.old }
    ensures told { (p : Pages) → E.pages old.old ≡ Some p → IsTurn (turn p name root.now.firsts walk.old) walk.old walk.new result }
    ensures covered { AreCovered name walk.new.pairs }
    ensures met { OnOk result (IsMetBy walk.new met.new) }
    ensures fewer { IfOk result (λ on. on ≡ true → left walk.new < left walk.old) }
    ensures store { IfErr result NoStore }
    ensures rose { IsErrOf result LiftFault.Old → Rose (E.faults old.old) (E.faults old.new) }
    ensures steady { OnOk result (E.faults old.new ≡ E.faults old.old) }
    ensures never_falls { E.faults old.old ≤ E.faults old.new }
{
    if walk.page == NO_PAGE {
        return Ok(next_bucket(root, walk));
    }
    if was_seen(&met.pages, walk.page) {
        return Err(LiftFault::Page { page: walk.page });
    }
    match read_bucket(alloc, old, walk.page) {
        Ok(bucket) => take_page(name, walk, met, &bucket),
        Err(fault) => Err(fault),
    }
}

/// A walk at its start.
fn start(alloc: Global, page: u64, root: &OldRootPage) -> Result<Walk, Memory>
    ensures { IfOk result (λ walk. walk ≡ start_of page root.now) }
{
    let mut seen = Items::new(alloc);
    seen.push(page)?;
    Ok(Walk {
        bucket: 0,
        page: root.first(0),
        seen,
        pairs: PairList::new(alloc),
    })
}

/// The pairs, where they are as many as the root page says.
fn finish(page: u64, root: &OldRootPage, pairs: PairList) -> Result<PairList, LiftFault>
    ensures value { IsCounted (counted page root.now.pairs (Ok pairs)) result }
    ensures pairs { IfOk result (λ found. found ≡ pairs) }
    ensures few { IfOk result (λ found. length found ≤ 16384) }
{
    if pairs.len() == root.pairs() as usize {
        Ok(pairs)
    } else {
        Err(LiftFault::Page { page })
    }
}

/// Reads the pairs of a table of version 1 from its root page on, in the order of buckets.
pub(crate) fn read_all<E: Disk>(
    alloc: Global,
    old: &mut E,
    name: LeafName,
    page: u64,
) -> Result<PairList, LiftFault>
    ensures same { E.pages old.new ≡ E.pages old.old }
    ensures told { (p : Pages) → E.pages old.old ≡ Some p → IsWalk p name page result }
    ensures covered { IfOk result (λ pairs. AreCovered name pairs) }
    ensures few { IfOk result (λ pairs. length pairs ≤ 16384) }
    ensures store { IfErr result NoStore }
    ensures rose { IsErrOf result LiftFault.Old → Rose (E.faults old.old) (E.faults old.new) }
    ensures steady { OnOk result (E.faults old.new ≡ E.faults old.old) }
    ensures never_falls { E.faults old.old ≤ E.faults old.new }
{
    let root = match read_root(old, page) {
        Ok(root) => root,
        Err(fault) => return Err(fault),
    };
    let mut walk = start(alloc, page, &root)?;
    let mut met = only(alloc, page)?;
    'walking: loop {
        match turn(alloc, old, name, &root, &mut walk, &mut met) {
            Ok(true) => {}
            Ok(false) => return finish(page, &root, walk.pairs),
            Err(fault) => return Err(fault),
        }
    }
}
