//! A page of a bucket's pairs.

ghost use Rattle.std.specs.Prelude.{◌≡◌, ◌+◌, ◌≤◌, ◌<◌, ◌==◌, None, length, Option, IfOk};
ghost use Rattle.dds_pages.specs.Fields.{form_2, number_at, padded};
ghost use Rattle.dds_pages.specs.Bucket.{Bucket, FitsAPage, IsBucketRead, head_fault, bucket_bytes};

use crate::fault::PageFault;
use crate::fields::{Form, byte_at, is_zero_from, number2_at, number8_at};
use crate::pairs::{put_pairs, read_pairs, total_width};
use crate::writer::PageWriter;
use dds_base::items::Items;
use dds_base::value::Value;
use std::alloc::Global;
use std::marker::Model;

/// Where a pair's value stands: in the bucket page, up to 4,000 bytes, or, up to 60,000, in a chain
/// of overflow pages.
#[derive(Debug, Drop)]
pub enum Held {
    Here { value: Value },
    Chain { len: u16, first: u64 },
}

/// A key with its value's place.
#[derive(Debug, Drop)]
pub struct PagePair {
    pub key: u64,
    pub held: Held,
}

/// The bytes of a page before its first pair.
pub const BUCKET_HEAD: usize = 16;

/// Some pairs of a bucket, for which a page has room, and the page of the next ones, or `NO_PAGE`.
#[derive(Drop)]
pub struct BucketPage {
    pairs: Items<PagePair>,
    next: u64,
}

impl Model for BucketPage {
    ghost use Rattle.dds_pages.specs.Bucket.{Bucket, FitsAPage};

    ghost Value = { Bucket };

    ghost view = { λ a. record { pairs = a.pairs; next = a.next } };

    ghost invariant = { λ a. FitsAPage a.pairs };
}

/// The first field before the pairs that isn't accepted.
fn head_fault(page: &[u8; 4_096], form: Form) -> Option<usize>
    ensures value { result ≡ head_fault form page.now }
    ensures least { result ≡ None → 16 ≤ number_at page.now 12 2 }
    ensures most { result ≡ None → number_at page.now 12 2 ≤ 4096 }
{
    if byte_at(page, 0) != 2 {
        return Some(0);
    }
    if byte_at(page, 1) != form.version {
        return Some(1);
    }
    let used = number2_at(page, 12);
    if used < 16 || used > 4_096 {
        return Some(12);
    }
    if number2_at(page, 14) != 0 {
        return Some(14);
    }
    None
}

/// Reads a bucket page of this form.
pub(crate) fn read_bucket(
    alloc: Global,
    page: &[u8; 4_096],
    form: Form,
) -> Result<BucketPage, PageFault>
    ensures { IsBucketRead form page.now result }
{
    if let Some(at) = head_fault(page, form) {
        return Err(PageFault::NotAPage { at });
    }
    let used = usize::from(number2_at(page, 12));
    let count = usize::from(number2_at(page, 2));
    let pairs = match read_pairs(alloc, page, form, used, count) {
        Ok(pairs) => pairs,
        Err(fault) => return Err(fault),
    };
    if !is_zero_from(page, used) {
        return Err(PageFault::NotAPage { at: used });
    }
    Ok(BucketPage {
        pairs,
        next: number8_at(page, 4),
    })
}

impl BucketPage {
    pub fn of(pairs: Items<PagePair>, next: u64) -> BucketPage
        requires { FitsAPage pairs }
        ensures { result ≡ record { pairs = pairs; next = next } }
    {
        BucketPage { pairs, next }
    }

    pub fn pairs(&self) -> &[PagePair]
        ensures value { result.now ≡ self.now.pairs }
        ensures fits { FitsAPage result.now }
    {
        self.pairs.as_slice()
    }

    /// The page of the bucket's next pairs, or `NO_PAGE`.
    pub fn next(&self) -> u64
        ensures { result ≡ self.now.next }
    {
        self.next
    }

    pub fn into_pairs(self) -> Items<PagePair>
        ensures value { result ≡ self.pairs }
        ensures fits { FitsAPage result }
    {
        let BucketPage { pairs, next: _ } = self;
        pairs
    }

    /// Reads a page of version 2.
    pub fn read(alloc: Global, page: &[u8; 4_096]) -> Result<BucketPage, PageFault>
        ensures verdict { IsBucketRead form_2 page.now result }
        ensures spelled { IfOk result (λ bucket. bucket_bytes bucket ≡ page.now) }
    {
        read_bucket(
            alloc,
            page,
            Form {
                version: 2,
                chained: true,
            },
        )
    }

    /// Writes a page of version 2 in place of what was written.
    pub fn write_in(&self, writer: &mut PageWriter)
        ensures { padded writer.new ≡ bucket_bytes self.now }
    {
        let pairs = self.pairs.as_slice();
        writer.clear();
        writer.put_byte(2);
        writer.put_byte(2);
        writer.put_2(pairs.len() as u16);
        writer.put_8(self.next);
        writer.put_2(16 + total_width(pairs) as u16);
        writer.put_2(0);
        put_pairs(writer, pairs);
    }

    /// Writes a page of version 2.
    pub fn write(&self) -> [u8; 4_096]
        ensures { result ≡ bucket_bytes self.now }
    {
        let mut writer = PageWriter::new();
        self.write_in(&mut writer);
        writer.finish()
    }
}
