//! The pages of version 1, which an older store wrote: they are read, and written no more.

ghost use Rattle.std.specs.Prelude.{◌≡◌, ◌≤◌, slice_index};
ghost use Rattle.dds_pages.specs.Fields.{form_1};
ghost use Rattle.dds_pages.specs.Root.{Root, IsRootRead};
ghost use Rattle.dds_pages.specs.Bucket.{Bucket, IsBucketRead, AreHere};

use crate::bucket::{BucketPage, PagePair, read_bucket};
use crate::fault::PageFault;
use crate::fields::Form;
use crate::root::{RootPage, read_root};
use std::alloc::Global;
use std::marker::Model;

/// The root page of a table of version 1.
#[derive(Drop)]
pub struct OldRootPage {
    root: RootPage,
}

impl Model for OldRootPage {
    ghost use Rattle.dds_pages.specs.Root.{Root};

    ghost Value = { Root };

    ghost view = { λ a. a.root };
}

impl OldRootPage {
    /// Reads a page of version 1. Takes no memory.
    pub fn read(page: &[u8; 4_096]) -> Result<OldRootPage, PageFault>
        ensures { IsRootRead 1 page.now result }
    {
        match read_root(page, 1) {
            Ok(root) => Ok(OldRootPage { root }),
            Err(fault) => Err(fault),
        }
    }

    /// How many pairs the table has.
    pub fn pairs(&self) -> u32
        ensures value { result ≡ self.now.pairs }
        ensures range { result ≤ 16384 }
    {
        self.root.pairs()
    }

    /// The first page of a bucket, or `NO_PAGE`.
    pub fn first(&self, bucket: u8) -> u64
        ensures { result ≡ slice_index self.now.firsts bucket }
    {
        self.root.first(bucket)
    }
}

/// Some pairs of a bucket of version 1, and the page of the next ones, or `NO_PAGE`. Each value
/// stands in the page.
#[derive(Drop)]
pub struct OldBucketPage {
    bucket: BucketPage,
}

impl Model for OldBucketPage {
    ghost use Rattle.dds_pages.specs.Bucket.{Bucket, AreHere};

    ghost Value = { Bucket };

    ghost view = { λ a. a.bucket };

    ghost invariant = { λ a. AreHere a.bucket.pairs };
}

impl OldBucketPage {
    /// Reads a page of version 1.
    pub fn read(alloc: Global, page: &[u8; 4_096]) -> Result<OldBucketPage, PageFault>
        ensures { IsBucketRead form_1 page.now result }
    {
        let form = Form {
            version: 1,
            chained: false,
        };
        match read_bucket(alloc, page, form) {
            Ok(bucket) => Ok(OldBucketPage { bucket }),
            Err(fault) => Err(fault),
        }
    }

    pub fn pairs(&self) -> &[PagePair]
        ensures value { result.now ≡ self.now.pairs }
        ensures here { AreHere result.now }
    {
        self.bucket.pairs()
    }

    /// The page of the bucket's next pairs, or `NO_PAGE`.
    pub fn next(&self) -> u64
        ensures { result ≡ self.now.next }
    {
        self.bucket.next()
    }
}
