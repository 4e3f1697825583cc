//! Reading and writing the pairs of a bucket page.

ghost use Rattle.std.specs.Prelude.{◌≡◌, ◌+◌, ◌-◌, ◌^◌, ◌<◌, ◌≤◌, ◌==◌, ◌++◌, None, length, drop, take, flat_map, Option, IfOk};
ghost use Rattle.dds_pages.specs.Fields.{number_at, spelled};
ghost use Rattle.dds_pages.specs.Bucket.{extent, most, is_long, IsPairRead, IsHeldRead, ArePairsRead, AreHeld, IsHeld, held_bytes, pair_bytes, pair_width};

use crate::bucket::{Held, PagePair};
use crate::fault::{NO_PAGE, PageFault};
use crate::fields::{Form, number2_at, number8_at, tail};
use crate::writer::PageWriter;
use dds_base::items::Items;
use dds_base::memory::Memory;
use dds_base::value::Value;
use std::alloc::Global;

/// The most bytes of a value that stands in a bucket page.
pub const SHORT: u16 = 4_000;

/// Whether a value of this length stands in a chain of overflow pages.
fn is_long(form: Form, len: u16) -> bool
    ensures { result ≡ is_long form len }
{
    form.chained && len > SHORT
}

/// How many bytes a pair of this value's length takes.
fn extent(form: Form, len: u16) -> usize
    ensures { result ≡ extent form len }
{
    if is_long(form, len) {
        18
    } else {
        10 + usize::from(len)
    }
}

/// The most bytes of a value.
fn most(form: Form) -> u16
    ensures { result ≡ most form }
{
    if form.chained { 60_000 } else { 4_000 }
}

/// The value in some bytes of a page.
fn value_at(alloc: Global, page: &[u8; 4_096], at: usize, n: usize) -> Result<Value, Memory>
    requires { at + n ≤ 4096 }
    ensures value { IfOk result (λ value. value ≡ take n (drop at page.now)) }
    ensures len { IfOk result (λ value. length value ≡ n) }
{
    match Value::of(alloc, &tail(page, at)[..n]) {
        Ok(value) => Ok(value),
        Err(_) => Err(Memory),
    }
}

/// Where the value of a pair stands that fits.
fn read_held(
    alloc: Global,
    page: &[u8; 4_096],
    form: Form,
    used: usize,
    at: usize,
) -> Result<Held, PageFault>
    requires used { used ≤ 4096 }
    requires head { at + 10 ≤ used }
    requires room { at + extent form (number_at page.now (at + 8) 2) ≤ used }
    requires short { number_at page.now (at + 8) 2 ≤ most form }
    ensures { IsHeldRead form page.now at result }
{
    let len = number2_at(page, at + 8);
    if is_long(form, len) {
        let first = number8_at(page, at + 10);
        if first == NO_PAGE {
            return Err(PageFault::NotAPage { at: at + 10 });
        }
        return Ok(Held::Chain { len, first });
    }
    let value = value_at(alloc, page, at + 10, usize::from(len))?;
    Ok(Held::Here { value })
}

/// Reads the pair at a place.
fn read_pair(
    alloc: Global,
    page: &[u8; 4_096],
    form: Form,
    used: usize,
    at: usize,
) -> Result<PagePair, PageFault>
    requires used { used ≤ 4096 }
    requires within { at ≤ used }
    ensures { IsPairRead form page.now used at result }
{
    if used < at + 10 {
        return Err(PageFault::NotAPage { at });
    }
    let len = number2_at(page, at + 8);
    if used < at + extent(form, len) {
        return Err(PageFault::NotAPage { at });
    }
    if len > most(form) {
        return Err(PageFault::NotAPage { at: at + 8 });
    }
    let key = number8_at(page, at);
    match read_held(alloc, page, form, used, at) {
        Ok(held) => Ok(PagePair { key, held }),
        Err(fault) => Err(fault),
    }
}

/// Reads a number of pairs from the page's first pair on.
pub(crate) fn read_pairs(
    alloc: Global,
    page: &[u8; 4_096],
    form: Form,
    used: usize,
    count: usize,
) -> Result<Items<PagePair>, PageFault>
    requires least { 16 ≤ used }
    requires most { used ≤ 4096 }
    ensures { ArePairsRead form page.now used 16 count result }
{
    let mut pairs = Items::new(alloc);
    let mut at = 16;
    'pairs: for _pair in 0..count {
        let pair = match read_pair(alloc, page, form, used, at) {
            Ok(pair) => pair,
            Err(fault) => return Err(fault),
        };
        at += width(&pair);
        pairs.push(pair)?;
    }
    if at < used {
        return Err(PageFault::NotAPage { at });
    }
    Ok(pairs)
}

/// How many bytes the pair takes in its page.
pub fn width(pair: &PagePair) -> usize
    ensures value { result ≡ pair_width pair.now }
    ensures range { result ≤ 60010 }
{
    match &pair.held {
        Held::Here { value } => 10 + value.bytes().len(),
        Held::Chain { len: _, first: _ } => 18,
    }
}

/// How many bytes the pairs take in their page.
pub fn total_width(pairs: &[PagePair]) -> usize
    requires { length (flat_map pair_bytes pairs.now) ≤ 4096 }
    ensures { result ≡ length (flat_map pair_bytes pairs.now) }
{
    let mut total = 0;
    'pairs: for pair in pairs {
        total += width(pair);
    }
    total
}

/// Writes a pair.
fn put_pair(writer: &mut PageWriter, pair: &PagePair)
    requires room { length writer.old + pair_width pair.now ≤ 4096 }
    requires held { IsHeld pair.now.held }
    ensures written { writer.new ≡ writer.old ++ pair_bytes pair.now }
{
    writer.put_8(pair.key);
    match &pair.held {
        Held::Here { value } => {
            let bytes = value.bytes();
            writer.put_2(bytes.len() as u16);
            writer.put(bytes);
        }
        Held::Chain { len, first } => {
            writer.put_2(*len);
            writer.put_8(*first);
        }
    }
}

/// Writes the pairs.
pub(crate) fn put_pairs(writer: &mut PageWriter, pairs: &[PagePair])
    requires room { length writer.old + length (flat_map pair_bytes pairs.now) ≤ 4096 }
    requires held { AreHeld pairs.now }
    ensures { writer.new ≡ writer.old ++ flat_map pair_bytes pairs.now }
{
    'pairs: for pair in pairs {
        put_pair(writer, pair);
    }
}
