//! Acts on a table of a store, made one after another, and the answers that they must have.

ghost use Rattle.std.specs.Prelude.{◌≡◌, ◌<◌, false, IsTrue, OnOk};
ghost use Rattle.dds_groups.specs.Names.{low_half, high_half};
ghost use Rattle.dds_table.specs.Store.{has_table};

use dds_base::memory::Memory;
use dds_base::name::LeafName;
use dds_base::pair::Pair;
use dds_base::value::Value;
use dds_disk::disk::Disk;
use dds_groups::halves::{high_half, low_half};
use dds_table::fault::TableFault;
use dds_table::store::Store;
use std::alloc::Global;
use std::ops::Range;

/// What is done with the table of all keys. A part is of at most two pairs behind a key. A get is from the table, from
/// its half that covers the key, or from the other half.
#[derive(Clone, Copy)]
pub(crate) enum Act {
    Add,
    Put,
    Get,
    GetHalf,
    GetOther,
    Remove,
    Part(Option<u64>),
    Split,
    Drop,
}

/// What was answered: that there is no such table, whether a key was there, or the keys of a part and whether it is the
/// last. `Other` stands for a value that wasn't put, and for a call whose other conditions don't hold.
#[derive(Clone, Copy, PartialEq, Eq)]
pub(crate) enum Answer {
    Done,
    NoTable,
    Was(bool),
    Keys(Option<u64>, Option<u64>, bool),
    Other,
}

pub(crate) type Tried<T> = Result<T, TableFault>;

/// An act, the keys with which it is made in turn, and the answer each time.
pub(crate) type Row = (Act, Range<u64>, Answer);

/// The first row that was answered otherwise.
pub(crate) fn run<D: Disk>(
    alloc: Global,
    store: &mut Store<D>,
    rows: &[Row],
) -> Tried<Option<usize>>
    requires { store.old.failed ≡ false }
    ensures { OnOk result (store.new.failed ≡ false) }
{
    for (place, row) in rows.iter().enumerate() {
        if !is_answered(alloc, store, row)? {
            return Ok(Some(place));
        }
    }
    Ok(None)
}

/// Whether each call of a row is answered so.
fn is_answered<D: Disk>(alloc: Global, store: &mut Store<D>, row: &Row) -> Tried<bool>
    requires { store.old.failed ≡ false }
    ensures { OnOk result (store.new.failed ≡ false) }
{
    let (act, keys, answer) = row;
    for key in keys.start..keys.end {
        if make(alloc, store, *act, key)? != *answer {
            return Ok(false);
        }
    }
    Ok(true)
}

/// Makes an act where the store's conditions hold, which it tests.
fn make<D: Disk>(alloc: Global, store: &mut Store<D>, act: Act, key: u64) -> Tried<Answer>
    requires { store.old.failed ≡ false }
    ensures { OnOk result (store.new.failed ≡ false) }
{
    let name = name_of(act, key).ok_or(Memory)?;
    if let Act::Add = act {
        store.add(name)?;
        return Ok(Answer::Done);
    }
    if !store.has(name) {
        return Ok(Answer::NoTable);
    }
    match act {
        Act::Put if name.covers(key) && store.len(name) < 16_384 => {
            Ok(Answer::Was(store.put(name, key, &value_of(alloc, key)?)?))
        }
        Act::Get | Act::GetHalf | Act::GetOther => match store.get(name, key)? {
            Some(value) => Ok(shown(&value, &value_of(alloc, key)?)),
            None => Ok(Answer::Was(false)),
        },
        Act::Remove => Ok(Answer::Was(store.remove(name, key)?)),
        Act::Part(after) => {
            let part = store.part(name, after, 2)?;
            let pairs = part.pairs.as_slice();
            Ok(Answer::Keys(key_at(pairs, 0), key_at(pairs, 1), part.last))
        }
        Act::Split if may_split(store, name) => {
            store.split(name)?;
            Ok(Answer::Done)
        }
        Act::Drop => {
            store.drop_table(name);
            Ok(Answer::Done)
        }
        _ => Ok(Answer::Other),
    }
}

/// The name of an act's table.
fn name_of(act: Act, key: u64) -> Option<LeafName> {
    let bit = (key % 2) as u16;
    match act {
        Act::GetHalf => LeafName::of(bit, 1),
        Act::GetOther => LeafName::of(1 - bit, 1),
        _ => LeafName::of(0, 0),
    }
}

/// The lengths of the first keys' values: within a bucket page, of one overflow page, and of several.
const LENGTHS: [usize; 7] = [3, 0, 4_000, 4_001, 8_160, 60_000, 100];

/// The value of a key.
fn value_of(alloc: Global, key: u64) -> Result<Value, Memory> {
    let len = LENGTHS.get(key as usize).copied().unwrap_or(10);
    let mut bytes = Vec::new(alloc);
    for n in 0..len {
        bytes.push((key % 256) as u8 ^ (n % 251) as u8)?;
    }
    Value::from_vec(bytes).ok_or(Memory)
}

fn shown(value: &Value, wanted: &Value) -> Answer {
    if value.same(wanted) {
        Answer::Was(true)
    } else {
        Answer::Other
    }
}

fn key_at(pairs: &[Pair], place: usize) -> Option<u64> {
    Some(pairs.get(place)?.key)
}

/// Whether the table's halves may be added.
fn may_split<D: Disk>(store: &Store<D>, name: LeafName) -> bool
    ensures { IsTrue result → (name.depth < 16) × (has_table store.now.tables (low_half name) ≡ false) × (has_table store.now.tables (high_half name) ≡ false) }
{
    name.depth() < 16 && !store.has(low_half(name)) && !store.has(high_half(name))
}
