//! Values of tables: short ones stand in their bucket page, long ones in overflow pages.

ghost use Rattle.std.specs.Prelude.{◌≡◌, true, ℕ, ◌+◌, ◌-◌, ◌*◌, ◌<◌, ◌≤◌, ◌^◌, ◌++◌, List, [], length, take, drop, IfOk, IfErr, OnOk};
ghost use Rattle.std.specs.Prelude.{OnErr, IsErrOf, None, Some};
ghost use Rattle.std.specs.FinMap.{insert};
ghost use Rattle.dds_base.specs.Outside.{Rose};
ghost use Rattle.dds_disk.specs.Pages.{Pages, page_at};
ghost use Rattle.dds_pages.specs.Bucket.{IsHeld};
ghost use Rattle.dds_pages.specs.Overflow.{Overflow, overflow_bytes};
ghost use Rattle.dds_pages.specs.Said.{overflow_in};
ghost use Rattle.dds_chains.specs.Index.{same, times, vacant, IsSpread, IsPlaced, first_number};
ghost use Rattle.dds_chains.specs.Lawful.{IsGivenAs, IsPieceRefused, IsSlotRefused, is_place_of};
ghost use Rattle.dds_chains.specs.Answers.{IsNoPage, IsReadAs, KeepsUsed, WroteChain, WroteValue};

use crate::fault::TableFault;
use crate::space::Space;
use crate::table::Slot;
use dds_base::items::Items;
use dds_base::memory::Memory;
use dds_base::value::{VALUE_BYTES, Value};
use dds_disk::disk::Disk;
use dds_pages::bucket::Held;
use dds_pages::fault::{NO_PAGE, PageFault};
use dds_pages::overflow::{OVERFLOW_BYTES, OverflowPage};
use dds_pages::pairs::SHORT;
use std::alloc::Global;

/// Where a value stands, and its overflow pages in their order.
#[derive(Drop)]
pub(crate) struct Placed {
    pub(crate) held: Held,
    pub(crate) overflow: Items<u64>,
}

/// Decodes an overflow page that was read.
fn decode(alloc: Global, page: u64, bytes: &[u8; 4_096]) -> Result<OverflowPage, TableFault>
    ensures read { IsReadAs (overflow_in bytes.now) page result }
    ensures disk { ¬ (IsErrOf result TableFault.Disk) }
{
    match OverflowPage::read(alloc, bytes) {
        Ok(over) => Ok(over),
        Err(PageFault::NotAPage { at: _ }) => Err(TableFault::Page { page }),
        Err(PageFault::Memory) => Err(TableFault::Memory),
    }
}

/// Reads an overflow page.
fn read_overflow<D: Disk>(space: &mut Space<D>, page: u64) -> Result<OverflowPage, TableFault>
    ensures same { D.pages space.new.cache.disk ≡ D.pages space.old.cache.disk }
    ensures told { (a : Pages) → D.pages space.old.cache.disk ≡ Some a → IsReadAs (overflow_in (page_at a page)) page result }
    ensures given { IsGivenAs overflow_in space.new.cache.kept page result }
    ensures free { space.new.free.items ≡ space.old.free.items }
    ensures fresh { space.new.fresh ≡ space.old.fresh }
    ensures rose { IsErrOf result TableFault.Disk → Rose (D.faults space.old.cache.disk) (D.faults space.new.cache.disk) }
    ensures steady { OnOk result (D.faults space.new.cache.disk ≡ D.faults space.old.cache.disk) }
    ensures never_falls { D.faults space.old.cache.disk ≤ D.faults space.new.cache.disk }
{
    match space.read(page) {
        Ok(()) => decode(space.alloc, page, &space.bytes),
        Err(fault) => Err(fault),
    }
}

/// Writes some bytes of a value to a page that is in no use, and gives the page.
fn write_overflow<D: Disk>(space: &mut Space<D>, bytes: &[u8], next: u64) -> Result<u64, TableFault>
    requires single { (n : ℕ) → vacant n space.old.free.items space.old.fresh ≤ 1 }
    requires some { 0 < length bytes.now }
    requires few { length bytes.now ≤ 4080 }
    ensures number { IfOk result (λ page. (n : ℕ) →
        vacant n space.new.free.items space.new.fresh + same n page ≡ vacant n space.old.free.items space.old.fresh) }
    ensures below { IfOk result (λ page. page < 2 ^ 64 - 1) }
    ensures told { (a : Pages) → D.pages space.old.cache.disk ≡ Some a →
        IfOk result (λ page. D.pages space.new.cache.disk ≡ Some (insert a page (overflow_bytes (record { bytes = bytes.now; next = next })))) }
    ensures lawful { IfErr result IsNoPage }
    ensures untold { D.pages space.old.cache.disk ≡ None → D.pages space.new.cache.disk ≡ None }
    ensures rose { IsErrOf result TableFault.Disk → Rose (D.faults space.old.cache.disk) (D.faults space.new.cache.disk) }
    ensures steady { OnOk result (D.faults space.new.cache.disk ≡ D.faults space.old.cache.disk) }
    ensures never_falls { D.faults space.old.cache.disk ≤ D.faults space.new.cache.disk }
{
    let page = space.take()?;
    let over = OverflowPage::of(space.alloc, bytes, next)?;
    over.write_in(&mut space.writer);
    match space.write(page) {
        Ok(()) => Ok(page),
        Err(fault) => Err(fault),
    }
}

/// Writes the bytes of a long value to overflow pages, the last ones first.
fn write_chain<D: Disk>(space: &mut Space<D>, bytes: &[u8]) -> Result<Items<u64>, TableFault>
    requires single { (n : ℕ) → vacant n space.old.free.items space.old.fresh ≤ 1 }
    requires most { length bytes.now ≤ 60000 }
    ensures number { IfOk result (λ pages. (n : ℕ) →
        vacant n space.new.free.items space.new.fresh + times n pages ≡ vacant n space.old.free.items space.old.fresh) }
    ensures few { IfOk result (λ pages. length pages ≤ 15) }
    ensures first { IfOk result (λ pages. 0 < length bytes.now → first_number pages < 2 ^ 64 - 1) }
    ensures told { (a : Pages) → D.pages space.old.cache.disk ≡ Some a →
        IfOk result (λ pages. WroteChain a space.old.free.items space.old.fresh (D.pages space.new.cache.disk) pages bytes.now) }
    ensures lawful { IfErr result IsNoPage }
    ensures untold { D.pages space.old.cache.disk ≡ None → D.pages space.new.cache.disk ≡ None }
    ensures rose { IsErrOf result TableFault.Disk → Rose (D.faults space.old.cache.disk) (D.faults space.new.cache.disk) }
    ensures steady { OnOk result (D.faults space.new.cache.disk ≡ D.faults space.old.cache.disk) }
    ensures never_falls { D.faults space.old.cache.disk ≤ D.faults space.new.cache.disk }
{
    let mut pages = Items::new(space.alloc);
    let mut next = NO_PAGE;
    let mut left = (bytes.len() + OVERFLOW_BYTES - 1) / OVERFLOW_BYTES;
    'pages: while left > 0 {
        left -= 1;
        let start = left * OVERFLOW_BYTES;
        let end = (start + OVERFLOW_BYTES).min(bytes.len());
        next = match write_overflow(space, &bytes[start..end], next) {
            Ok(page) => page,
            Err(fault) => return Err(fault),
        };
        pages.insert(0, next)?;
    }
    Ok(pages)
}

/// Writes a value where it needs pages of its own, and says where it stands.
pub(crate) fn place<D: Disk>(space: &mut Space<D>, value: &Value) -> Result<Placed, TableFault>
    requires single { (n : ℕ) → vacant n space.old.free.items space.old.fresh ≤ 1 }
    ensures number { IfOk result (λ placed. (n : ℕ) →
        vacant n space.new.free.items space.new.fresh + times n placed.overflow ≡ vacant n space.old.free.items space.old.fresh) }
    ensures held { IfOk result (λ placed. IsHeld placed.held) }
    ensures told { (a : Pages) → D.pages space.old.cache.disk ≡ Some a →
        IfOk result (λ placed. WroteValue a space.old.free.items space.old.fresh (D.pages space.new.cache.disk) placed.held placed.overflow value.now) }
    ensures lawful { IfErr result IsNoPage }
    ensures untold { D.pages space.old.cache.disk ≡ None → D.pages space.new.cache.disk ≡ None }
    ensures rose { IsErrOf result TableFault.Disk → Rose (D.faults space.old.cache.disk) (D.faults space.new.cache.disk) }
    ensures steady { OnOk result (D.faults space.new.cache.disk ≡ D.faults space.old.cache.disk) }
    ensures never_falls { D.faults space.old.cache.disk ≤ D.faults space.new.cache.disk }
{
    let bytes = value.bytes();
    if bytes.len() <= usize::from(SHORT) {
        return Ok(Placed {
            held: Held::Here {
                value: value.copy()?,
            },
            overflow: Items::new(space.alloc),
        });
    }
    let overflow = write_chain(space, bytes)?;
    let first = first_of(&overflow);
    Ok(Placed {
        held: Held::Chain {
            len: bytes.len() as u16,
            first,
        },
        overflow,
    })
}

/// The first of some pages, or `NO_PAGE`.
fn first_of(pages: &Items<u64>) -> u64
    ensures { result ≡ first_number pages.now }
{
    if pages.is_empty() {
        NO_PAGE
    } else {
        *pages.at(0)
    }
}

/// Appends some bytes.
fn append(bytes: &mut Vec<u8>, more: &[u8]) -> Result<(), Memory>
    ensures { OnOk result (bytes.new.items ≡ bytes.old.items ++ more.now) }
{
    bytes.extend_from_slice(more)?;
    Ok(())
}

/// Reads the bytes of a long value from its overflow pages. A page is refused that hasn't as many
/// bytes as the value's length asks at its place.
fn read_chain<D: Disk>(
    space: &mut Space<D>,
    overflow: &[u64],
    len: usize,
) -> Result<Vec<u8>, TableFault>
    ensures same { D.pages space.new.cache.disk ≡ D.pages space.old.cache.disk }
    ensures told { (a : Pages) (value : List ℕ) → D.pages space.old.cache.disk ≡ Some a → IsSpread a overflow.now value → len ≡ length value →
        IfOk result (λ bytes. bytes.items ≡ value) }
    ensures few { IfOk result (λ bytes. length bytes.items ≤ len) }
    ensures lawful { (a : Pages) (value : List ℕ) → D.pages space.old.cache.disk ≡ Some a → IsSpread a overflow.now value → len ≡ length value →
        IfErr result IsNoPage }
    ensures refused { IfErr result (IsPieceRefused space.new.cache.kept overflow.now len) }
    ensures free { space.new.free.items ≡ space.old.free.items }
    ensures fresh { space.new.fresh ≡ space.old.fresh }
    ensures rose { IsErrOf result TableFault.Disk → Rose (D.faults space.old.cache.disk) (D.faults space.new.cache.disk) }
    ensures steady { OnOk result (D.faults space.new.cache.disk ≡ D.faults space.old.cache.disk) }
    ensures never_falls { D.faults space.old.cache.disk ≤ D.faults space.new.cache.disk }
{
    let mut bytes = Vec::new(space.alloc);
    'pages: for page in overflow {
        let over = match read_overflow(space, *page) {
            Ok(over) => over,
            Err(fault) => return Err(fault),
        };
        let piece = over.bytes();
        if piece.len() != OVERFLOW_BYTES.min(len - bytes.len()) {
            return Err(TableFault::Page { page: *page });
        }
        append(&mut bytes, piece)?;
    }
    Ok(bytes)
}

/// The value of the bytes of an overflow chain.
fn long_value(bytes: Vec<u8>) -> Value
    requires { length bytes.items ≤ 60000 }
    ensures { result ≡ bytes.items }
{
    match Value::from_vec(bytes) {
        Some(value) => value,
        None => unreachable!(),
    }
}

/// How long a value is.
pub(crate) fn len_of(value: &Value) -> u16
    ensures { result ≡ length value.now }
{
    value.bytes().len() as u16
}

/// Whether a value stands there that is as long as the slot's, and that the slot's overflow pages have room for.
pub(crate) fn is_place_of(held: &Held, slot: &Slot) -> bool
    ensures { result ≡ is_place_of slot.now held.now }
{
    match held {
        Held::Here { value } => value.bytes().len() == usize::from(slot.len),
        Held::Chain { len, first: _ } => {
            let pages = (usize::from(*len) + OVERFLOW_BYTES - 1) / OVERFLOW_BYTES;
            *len == slot.len && usize::from(*len) <= VALUE_BYTES && pages <= slot.overflow.len()
        }
    }
}

/// Reads the slot's value, which stands in this place.
pub(crate) fn fetch<D: Disk>(
    space: &mut Space<D>,
    held: &Held,
    slot: &Slot,
) -> Result<Value, TableFault>
    requires { is_place_of slot.now held.now ≡ true }
    ensures same { D.pages space.new.cache.disk ≡ D.pages space.old.cache.disk }
    ensures told { (a : Pages) (bytes : List ℕ) → D.pages space.old.cache.disk ≡ Some a → IsPlaced a held.now slot.now.overflow bytes →
        IfOk result (λ value. value ≡ bytes) }
    ensures lawful { (a : Pages) (bytes : List ℕ) → D.pages space.old.cache.disk ≡ Some a → IsPlaced a held.now slot.now.overflow bytes →
        IfErr result IsNoPage }
    ensures refused { IfErr result (IsSlotRefused space.new.cache.kept slot.now) }
    ensures free { space.new.free.items ≡ space.old.free.items }
    ensures fresh { space.new.fresh ≡ space.old.fresh }
    ensures rose { IsErrOf result TableFault.Disk → Rose (D.faults space.old.cache.disk) (D.faults space.new.cache.disk) }
    ensures steady { OnOk result (D.faults space.new.cache.disk ≡ D.faults space.old.cache.disk) }
    ensures never_falls { D.faults space.old.cache.disk ≤ D.faults space.new.cache.disk }
{
    match held {
        Held::Here { value } => Ok(value.copy()?),
        Held::Chain { len, first: _ } => {
            let len = usize::from(*len);
            match read_chain(space, slot.overflow.as_slice(), len) {
                Ok(bytes) => Ok(long_value(bytes)),
                Err(fault) => Err(fault),
            }
        }
    }
}
