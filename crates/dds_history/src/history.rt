//! Histories: whether one is legal, and the table that it leaves.

ghost use Rattle.std.specs.Prelude.{◌≡◌, ◌↔◌, IfOk, IsTrue, option_copied};
ghost use Rattle.std.specs.FinMap as map;
ghost use Rattle.dds_history.specs.Map.{reply_at, bound_by, found};
ghost use Rattle.dds_history.specs.History.{IsLegal, replay};
ghost use Rattle.dds_base.specs.declared.op.Reply.TheVariants.{Done, Swapped};

use crate::entry::Entry;
use crate::table::{Table, is_bound_to};
use dds_base::memory::Memory;
use dds_base::op::{Op, Reply};
use dds_base::value::Value;
use std::alloc::Global;

/// Whether each entry's reply is the one that its operation gives after the entries before it. It takes no memory, and
/// so looks at the entries before it once more for each entry.
pub fn legal(entries: &[Entry]) -> bool
    ensures { IsTrue result ↔ IsLegal entries.now }
{
    for (place, entry) in entries.iter().enumerate() {
        let bound = left_at(&entries[..place], entry.op.key());
        if !is_reply(bound, &entry.op, &entry.reply) {
            return false;
        }
    }
    true
}

/// The table after all entries' operations.
pub fn replay(alloc: Global, entries: &[Entry]) -> Result<Table, Memory>
    ensures { IfOk result (λ table. table ≡ replay entries.now) }
{
    let mut table = Table::new(alloc);
    for entry in entries {
        table.apply(&entry.op)?;
    }
    Ok(table)
}

/// What the entries leave the key bound to.
fn left_at(entries: &[Entry], key: u64) -> Option<&Value>
    ensures { option_copied result ≡ map.get (replay entries.now) key }
{
    let mut bound = None;
    for entry in entries {
        bound = left_by(bound, &entry.op, key);
    }
    bound
}

/// What an operation leaves a key bound to, from what it was bound to.
fn left_by<'a>(bound: Option<&'a Value>, op: &'a Op, key: u64) -> Option<&'a Value>
    ensures { option_copied result ≡ bound_by (option_copied bound.entry) op.now key }
{
    if op.key() != key {
        return bound;
    }
    match op {
        Op::Get { key: _ } => bound,
        Op::Put { key: _, value } => Some(value),
        Op::Remove { key: _ } => None,
        Op::Swap {
            key: _,
            expected,
            value,
        } => {
            if is_bound_to(bound, expected) {
                Some(value)
            } else {
                bound
            }
        }
    }
}

/// Whether an operation on a key with this binding gives this reply.
fn is_reply(bound: Option<&Value>, op: &Op, reply: &Reply) -> bool
    ensures { IsTrue result ↔ (reply.now ≡ reply_at (option_copied bound.entry) op.now) }
{
    match op {
        Op::Get { key: _ } => is_found(bound, reply),
        Op::Put { key: _, value: _ } => is_done(reply, bound.is_some()),
        Op::Remove { key: _ } => is_done(reply, bound.is_some()),
        Op::Swap {
            key: _,
            expected,
            value: _,
        } => { is_swapped(reply, is_bound_to(bound, expected)) }
    }
}

fn is_found(bound: Option<&Value>, reply: &Reply) -> bool
    ensures { IsTrue result ↔ (reply.now ≡ found (option_copied bound.entry)) }
{
    match bound {
        None => matches!(reply, Reply::Absent),
        Some(value) => match reply {
            Reply::Value(told) => told.same(value),
            _ => false,
        },
    }
}

fn is_done(reply: &Reply, flag: bool) -> bool
    ensures { IsTrue result ↔ (reply.now ≡ Done flag) }
{
    match reply {
        Reply::Done { was } => *was == flag,
        _ => false,
    }
}

fn is_swapped(reply: &Reply, flag: bool) -> bool
    ensures { IsTrue result ↔ (reply.now ≡ Swapped flag) }
{
    match reply {
        Reply::Swapped { done } => *done == flag,
        _ => false,
    }
}
