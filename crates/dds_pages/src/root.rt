//! The root page of a table.

ghost use Rattle.std.specs.Prelude.{◌≡◌, ◌<◌, ◌≤◌, ◌==◌, ◌-◌, ◌^◌, length, replicate, slice_index, slice_set, Option, ◌++◌, flat_map, IfOk};
ghost use Rattle.dds_pages.specs.Fields.{spelled};
ghost use Rattle.dds_pages.specs.Root.{Root, IsRootRead, root_fault, root_head, root_bytes, numbers_at};

use crate::fault::{NO_PAGE, PageFault};
use crate::fields::{byte_at, is_zero_from, number2_at, number4_at, number8_at};
use crate::writer::PageWriter;
use std::marker::Model;

/// The most pairs that a table has.
pub const PAIRS: u32 = 16_384;

/// How many buckets a table has.
pub const BUCKETS: usize = 256;

/// How many pairs a table has, and the first page of each of its buckets.
#[derive(Drop)]
pub struct RootPage {
    pairs: u32,
    firsts: [u64; 256],
}

impl Model for RootPage {
    ghost use Rattle.std.specs.Prelude.{◌≤◌};
    ghost use Rattle.dds_pages.specs.Root.{Root};

    ghost Value = { Root };

    ghost view = { λ a. record { pairs = a.pairs; firsts = a.firsts } };

    ghost invariant = { λ a. a.pairs ≤ 16384 };
}

/// The first field of a root page of this version that isn't accepted.
pub(crate) fn root_fault(page: &[u8; 4_096], version: u8) -> Option<usize>
    ensures { result ≡ root_fault version page.now }
{
    if byte_at(page, 0) != 1 {
        return Some(0);
    }
    if byte_at(page, 1) != version {
        return Some(1);
    }
    if number2_at(page, 2) != 0 {
        return Some(2);
    }
    if number4_at(page, 4) > PAIRS {
        return Some(4);
    }
    if number8_at(page, 8) != 0 {
        return Some(8);
    }
    if !is_zero_from(page, 2_064) {
        return Some(2_064);
    }
    None
}

/// The first pages of the buckets.
fn firsts_of(page: &[u8; 4_096]) -> [u64; 256]
    ensures { result ≡ numbers_at page.now 16 256 }
{
    let mut firsts = [0; 256];
    'buckets: for bucket in 0..256usize {
        firsts[bucket] = number8_at(page, 16 + 8 * bucket);
    }
    firsts
}

/// Reads a root page of this version.
pub(crate) fn read_root(page: &[u8; 4_096], version: u8) -> Result<RootPage, PageFault>
    ensures { IsRootRead version page.now result }
{
    match root_fault(page, version) {
        Some(at) => Err(PageFault::NotAPage { at }),
        None => Ok(RootPage {
            pairs: number4_at(page, 4),
            firsts: firsts_of(page),
        }),
    }
}

impl RootPage {
    /// A table without pairs.
    pub fn new() -> RootPage
        ensures { result ≡ record { pairs = 0; firsts = replicate 256 (2 ^ 64 - 1) } }
    {
        RootPage {
            pairs: 0,
            firsts: [NO_PAGE; 256],
        }
    }

    /// How many pairs the table has.
    pub fn pairs(&self) -> u32
        ensures value { result ≡ self.now.pairs }
        ensures range { result ≤ 16384 }
    {
        self.pairs
    }

    pub fn set_pairs(&mut self, pairs: u32)
        requires { pairs ≤ 16384 }
        ensures { self.new ≡ record self.old { pairs = pairs } }
    {
        self.pairs = pairs;
    }

    /// The first page of a bucket, or `NO_PAGE`.
    pub fn first(&self, bucket: u8) -> u64
        ensures { result ≡ slice_index self.now.firsts bucket }
    {
        self.firsts[usize::from(bucket)]
    }

    pub fn set_first(&mut self, bucket: u8, page: u64)
        ensures { self.new ≡ record self.old { firsts = slice_set self.old.firsts bucket page } }
    {
        self.firsts[usize::from(bucket)] = page;
    }

    /// Reads a page of version 2. Takes no memory.
    pub fn read(page: &[u8; 4_096]) -> Result<RootPage, PageFault>
        ensures verdict { IsRootRead 2 page.now result }
        ensures spelled { IfOk result (λ root. root_bytes 2 root ≡ page.now) }
    {
        read_root(page, 2)
    }

    /// Writes a page of version 2.
    pub fn write(&self) -> [u8; 4_096]
        ensures { result ≡ root_bytes 2 self.now }
    {
        let mut writer = PageWriter::new();
        put_head(&mut writer, self.pairs);
        put_all(&mut writer, &self.firsts);
        writer.finish()
    }
}

/// Writes the bytes of a root page of version 2 before its first pages, in place of what was written.
pub fn put_head(writer: &mut PageWriter, pairs: u32)
    ensures written { writer.new ≡ root_head 2 pairs }
    ensures len { length writer.new ≡ 16 }
{
    writer.clear();
    writer.put_byte(1);
    writer.put_byte(2);
    writer.put_2(0);
    writer.put_4(pairs);
    writer.put_8(0);
}

/// Writes the first pages.
fn put_all(writer: &mut PageWriter, firsts: &[u64; 256])
    requires { length writer.old ≡ 16 }
    ensures { writer.new ≡ writer.old ++ flat_map (spelled 8) firsts.now }
{
    'buckets: for bucket in 0..256usize {
        writer.put_8(firsts[bucket]);
    }
}
