//! A page of a long value's bytes.

ghost use Rattle.std.specs.Prelude.{◌≡◌, ◌<◌, ◌≤◌, ◌==◌, None, length, Option, IfOk};
ghost use Rattle.dds_pages.specs.Fields.{number_at, padded};
ghost use Rattle.dds_pages.specs.Overflow.{Overflow, IsOverflowRead, overflow_fault, overflow_bytes};

use crate::fault::PageFault;
use crate::fields::{byte_at, bytes_at, is_zero_from, number2_at, number4_at, number8_at};
use crate::writer::PageWriter;
use dds_base::memory::Memory;
use std::alloc::Global;
use std::marker::Model;

/// The most bytes of a value that one overflow page has.
pub const OVERFLOW_BYTES: usize = 4_080;

/// Some bytes of a value, 1 to 4,080, and the page of the next ones, or `NO_PAGE`.
#[derive(Drop)]
pub struct OverflowPage {
    bytes: Vec<u8>,
    next: u64,
}

impl Model for OverflowPage {
    ghost use Rattle.std.specs.Prelude.{◌<◌, ◌≤◌, length};
    ghost use Rattle.dds_pages.specs.Overflow.{Overflow};

    ghost Value = { Overflow };

    ghost view = { λ a. record { bytes = a.bytes.items; next = a.next } };

    ghost invariant = { λ a. (0 < length a.bytes.items) × (length a.bytes.items ≤ 4080) };
}

/// The first field of an overflow page that isn't accepted.
fn overflow_fault(page: &[u8; 4_096]) -> Option<usize>
    ensures value { result ≡ overflow_fault page.now }
    ensures some { result ≡ None → 0 < number_at page.now 2 2 }
    ensures few { result ≡ None → number_at page.now 2 2 ≤ 4080 }
{
    if byte_at(page, 0) != 3 {
        return Some(0);
    }
    if byte_at(page, 1) != 2 {
        return Some(1);
    }
    let n = usize::from(number2_at(page, 2));
    if n == 0 || n > OVERFLOW_BYTES {
        return Some(2);
    }
    if number4_at(page, 12) != 0 {
        return Some(12);
    }
    if !is_zero_from(page, 16 + n) {
        return Some(16 + n);
    }
    None
}

/// Reads an overflow page.
fn read_overflow(alloc: Global, page: &[u8; 4_096]) -> Result<OverflowPage, PageFault>
    ensures { IsOverflowRead page.now result }
{
    match overflow_fault(page) {
        Some(at) => Err(PageFault::NotAPage { at }),
        None => {
            let n = usize::from(number2_at(page, 2));
            Ok(OverflowPage {
                bytes: bytes_at(alloc, page, 16, n)?,
                next: number8_at(page, 4),
            })
        }
    }
}

impl OverflowPage {
    /// Makes a page of these bytes.
    pub fn of(alloc: Global, bytes: &[u8], next: u64) -> Result<OverflowPage, Memory>
        requires some { 0 < length bytes.now }
        requires few { length bytes.now ≤ 4080 }
        ensures { IfOk result (λ page. page ≡ record { bytes = bytes.now; next = next }) }
    {
        Ok(OverflowPage {
            bytes: Vec::from_slice(alloc, bytes)?,
            next,
        })
    }

    pub fn bytes(&self) -> &[u8]
        ensures value { result.now ≡ self.now.bytes }
        ensures some { 0 < length result.now }
        ensures few { length result.now ≤ 4080 }
    {
        self.bytes.as_slice()
    }

    /// The page of the value's next bytes, or `NO_PAGE`.
    pub fn next(&self) -> u64
        ensures { result ≡ self.now.next }
    {
        self.next
    }

    /// Reads a page of version 2.
    pub fn read(alloc: Global, page: &[u8; 4_096]) -> Result<OverflowPage, PageFault>
        ensures verdict { IsOverflowRead page.now result }
        ensures spelled { IfOk result (λ over. overflow_bytes over ≡ page.now) }
    {
        read_overflow(alloc, page)
    }

    /// Writes a page of version 2 in place of what was written.
    pub fn write_in(&self, writer: &mut PageWriter)
        ensures { padded writer.new ≡ overflow_bytes self.now }
    {
        writer.clear();
        writer.put_byte(3);
        writer.put_byte(2);
        writer.put_2(self.bytes.len() as u16);
        writer.put_8(self.next);
        writer.put_4(0);
        writer.put(self.bytes.as_slice());
    }

    /// Writes a page of version 2.
    pub fn write(&self) -> [u8; 4_096]
        ensures { result ≡ overflow_bytes self.now }
    {
        let mut writer = PageWriter::new();
        self.write_in(&mut writer);
        writer.finish()
    }
}
