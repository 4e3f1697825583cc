//! Pages as they are written, and read again.

use dds_pages::bucket::BucketPage;
use dds_pages::fault::{NO_PAGE, PageFault};
use dds_pages::old::{OldBucketPage, OldRootPage};
use dds_pages::overflow::OverflowPage;
use dds_pages::root::RootPage;
use std::alloc::Global;

/// Writes and reads an overflow page of so many bytes: how many it has then, and its next page.
fn again(alloc: Global, len: usize, next: u64) -> Option<(usize, u64)> {
    if len == 0 || len > 4_080 {
        return None;
    }
    let bytes = vec![in alloc; 5u8; len].ok()?;
    let page = OverflowPage::of(alloc, bytes.as_slice(), next).ok()?;
    let read = OverflowPage::read(alloc, &page.write()).ok()?;
    Some((read.bytes().len(), read.next()))
}

#[test]
fn overflow_pages_are_read_as_written(rt: HostRuntime) {
    for (len, next) in &[(1, NO_PAGE), (100, 0), (4_080, 7)] {
        assert_eq!(rt; again(rt.alloc(), *len, *next), Some((*len, *next)));
    }
}

/// A root page of 16,384 pairs, whose bucket 158 begins at page 3.
fn root_page() -> [u8; 4_096] {
    let mut root = RootPage::new();
    root.set_pairs(16_384);
    root.set_first(158, 3);
    root.write()
}

/// The pairs of a root page, and the first pages of its buckets 158 and 0.
fn root_of(page: &[u8; 4_096]) -> Option<(u32, u64, u64)> {
    let root = RootPage::read(page).ok()?;
    Some((root.pairs(), root.first(158), root.first(0)))
}

fn old_root_of(page: &[u8; 4_096]) -> Option<(u32, u64, u64)> {
    let root = OldRootPage::read(page).ok()?;
    Some((root.pairs(), root.first(158), root.first(0)))
}

#[test]
fn root_pages_are_read_as_written(rt: HostRuntime) {
    let mut page = root_page();
    assert_eq!(rt; page[16 + 8 * 158 + 7], 3);
    assert_eq!(rt; root_of(&page), Some((16_384, 3, NO_PAGE)));
    page[1] = 1;
    assert_eq!(rt; old_root_of(&page), Some((16_384, 3, NO_PAGE)));
}

/// A bucket page of this version and this next page, which has the key 0 with the bytes 0, 1 and 2.
pub(crate) fn bucket_page(version: u8, next: u64) -> [u8; 4_096] {
    let mut page = [0; 4_096];
    page[..4].copy_from_slice(&[2, version, 0, 1]);
    page[4..12].copy_from_slice(&next.to_be_bytes());
    page[13] = 29;
    page[25] = 3;
    page[27] = 1;
    page[28] = 2;
    page
}

#[test]
fn bucket_pages_are_read_as_written(rt: HostRuntime) -> Result<(), PageFault> {
    let page = bucket_page(2, NO_PAGE);
    let read = BucketPage::read(rt.alloc(), &page)?;
    assert_eq!(rt; (read.pairs().len(), read.next()), (1, NO_PAGE));
    assert!(rt; read.write() == page);
    let old = OldBucketPage::read(rt.alloc(), &bucket_page(1, NO_PAGE))?;
    assert_eq!(rt; (old.pairs().len(), old.next()), (1, NO_PAGE));
    Ok(())
}
