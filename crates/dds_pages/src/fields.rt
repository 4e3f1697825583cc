//! Reading the fields of a page.

ghost use Rattle.std.specs.Prelude.{◌≡◌, ◌+◌, ◌^◌, ◌<◌, ◌≤◌, drop, take, length, IfOk};
ghost use Rattle.dds_pages.specs.Fields.{number_at, zero_from};

use byteorder::{BigEndian, ByteOrder};
use dds_base::memory::Memory;
use std::alloc::Global;

/// A page of zeros.
static ZEROS: [u8; 4_096] = [0; 4_096];

/// Which bucket pages are read: their version, and whether values above 4,000 bytes stand in chains
/// of overflow pages, or nowhere.
#[derive(Clone, Copy)]
pub(crate) struct Form {
    pub(crate) version: u8,
    pub(crate) chained: bool,
}

/// The bytes of a page from a place on.
#[tactic(auto, using(std::proofs::lemmas::Grind::common_steps))]
pub(crate) fn tail(page: &[u8; 4_096], at: usize) -> &[u8]
    requires { at ≤ 4096 }
    ensures bytes { result.now ≡ drop at page.now }
    ensures len { length result.now + at ≡ 4096 }
{
    &page[at..]
}

/// The byte at a place.
pub(crate) fn byte_at(page: &[u8; 4_096], at: usize) -> u8
    requires { at + 1 ≤ 4096 }
    ensures { result ≡ number_at page.now at 1 }
{
    page[at]
}

/// The number in the 2 bytes from a place.
#[tactic(auto, unfolding(crate::specs::Fields::number_at))]
pub(crate) fn number2_at(page: &[u8; 4_096], at: usize) -> u16
    requires { at + 2 ≤ 4096 }
    ensures { result ≡ number_at page.now at 2 }
{
    BigEndian::read_u16(tail(page, at))
}

/// The number in the 4 bytes from a place.
#[tactic(auto, unfolding(crate::specs::Fields::number_at))]
pub(crate) fn number4_at(page: &[u8; 4_096], at: usize) -> u32
    requires { at + 4 ≤ 4096 }
    ensures { result ≡ number_at page.now at 4 }
{
    BigEndian::read_u32(tail(page, at))
}

/// The number in the 8 bytes from a place.
#[tactic(auto, unfolding(crate::specs::Fields::number_at))]
pub(crate) fn number8_at(page: &[u8; 4_096], at: usize) -> u64
    requires { at + 8 ≤ 4096 }
    ensures { result ≡ number_at page.now at 8 }
{
    BigEndian::read_u64(tail(page, at))
}

/// Copies some bytes of a page.
pub(crate) fn bytes_at(
    alloc: Global,
    page: &[u8; 4_096],
    at: usize,
    n: usize,
) -> Result<Vec<u8>, Memory>
    requires { at + n ≤ 4096 }
    ensures bytes { IfOk result (λ bytes. bytes.items ≡ take n (drop at page.now)) }
    ensures len { IfOk result (λ bytes. length bytes.items ≡ n) }
{
    Ok(Vec::from_slice(alloc, &tail(page, at)[..n])?)
}

/// Whether each byte from a place on is zero.
pub(crate) fn is_zero_from(page: &[u8; 4_096], at: usize) -> bool
    requires { at ≤ 4096 }
    ensures { result ≡ zero_from page.now at }
{
    *tail(page, at) == *tail(&ZEROS, at)
}
