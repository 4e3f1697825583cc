//! A table in memory, seen as the finite map that callers see.

ghost use Rattle.std.specs.Prelude.{◌≡◌, count_by, OnOk, OnErr, IfOk, option_copied};
ghost use Rattle.std.specs.FinMap as map;
ghost use Rattle.dds_base.specs.Name.{covers};
ghost use Rattle.dds_base.specs.Op.{the_key};
ghost use Rattle.dds_history.specs.Map.{after, reply_to, reply_with, flag_of, is_bound_to, pairs_of};

use dds_base::memory::Memory;
use dds_base::name::LeafName;
use dds_base::op::{Op, Reply};
use dds_base::pair::{Pair, PairList};
use dds_base::value::Value;
use std::alloc::Global;
use std::collections::BTreeMap;
use std::marker::Model;

/// A map from keys to values.
#[derive(Drop)]
pub struct Table {
    pairs: BTreeMap<u64, Value>,
}

impl Model for Table {
    ghost use Rattle.std.specs.FinMap as map;
    ghost use Rattle.dds_history.specs.Map.{Map, map_code};

    ghost Value = { Map };

    ghost coded = { map_code };

    ghost view = { λ a. map.from_entries a.pairs.entries };
}

impl Table {
    /// The empty table; takes no memory.
    pub fn new(alloc: Global) -> Table
        ensures { result ≡ map.empty }
    {
        Table {
            pairs: BTreeMap::new(alloc),
        }
    }

    pub fn get(&self, key: u64) -> Option<&Value>
        ensures { option_copied result ≡ map.get self.now key }
    {
        self.pairs.get(&key)
    }

    /// Binds the key; whether it was bound before.
    pub fn insert(&mut self, key: u64, value: Value) -> Result<bool, Memory>
        ensures ok { OnOk result (self.new ≡ map.insert self.old key value) }
        ensures was { IfOk result (λ was. was ≡ map.contains_key self.old key) }
        ensures err { OnErr result (self.new ≡ self.old) }
    {
        let before = self.pairs.insert(key, value)?;
        Ok(before.is_some())
    }

    /// Unbinds the key; whether it was bound before. Takes no memory.
    pub fn remove(&mut self, key: u64) -> bool
        ensures table { self.new ≡ map.remove self.old key }
        ensures was { result ≡ map.contains_key self.old key }
    {
        self.pairs.remove(&key).is_some()
    }

    /// How many keys lie under a name.
    pub fn count_under(&self, name: LeafName) -> usize
        ensures { result ≡ count_by (λ key. covers name key) (map.keys self.now) }
    {
        let mut count = 0;
        for key in self.pairs.keys() {
            if name.covers(*key) {
                count += 1;
            }
        }
        count
    }

    /// All pairs in the order of their keys.
    pub fn pairs(&self, alloc: Global) -> Result<PairList, Memory>
        ensures { IfOk result (λ pairs. pairs ≡ pairs_of (map.entries self.now)) }
    {
        let mut pairs = PairList::new(alloc);
        for (key, value) in self.pairs.iter() {
            pairs.push(Pair {
                key: *key,
                value: value.copy()?,
            })?;
        }
        Ok(pairs)
    }

    /// Does an operation. Of an update, the flag says what it found: a swap, whether the key was bound to the expected
    /// bytes; another one, whether the key was there.
    pub fn update(&mut self, op: &Op) -> Result<bool, Memory>
        ensures ok { OnOk result (self.new ≡ after self.old op.now) }
        ensures flag { IfOk result (λ flag. flag ≡ flag_of (map.get self.old (the_key op.now)) op.now) }
        ensures err { OnErr result (self.new ≡ self.old) }
    {
        match op {
            Op::Get { key } => Ok(self.get(*key).is_some()),
            Op::Put { key, value } => Ok(self.insert(*key, value.copy()?)?),
            Op::Remove { key } => Ok(self.remove(*key)),
            Op::Swap {
                key,
                expected,
                value,
            } => {
                if !is_bound_to(self.get(*key), expected) {
                    return Ok(false);
                }
                self.insert(*key, value.copy()?)?;
                Ok(true)
            }
        }
    }

    /// Does an operation and gives its reply.
    pub fn apply(&mut self, op: &Op) -> Result<Reply, Memory>
        ensures ok { OnOk result (self.new ≡ after self.old op.now) }
        ensures reply { IfOk result (λ reply. reply ≡ reply_to self.old op.now) }
        ensures err { OnErr result (self.new ≡ self.old) }
    {
        match op {
            Op::Get { key } => match self.get(*key) {
                None => Ok(Reply::Absent),
                Some(value) => Ok(Reply::Value(value.copy()?)),
            },
            _ => {
                let flag = self.update(op)?;
                Ok(reply_with(op, flag))
            }
        }
    }
}

/// An update's reply with its flag.
pub fn reply_with(op: &Op, flag: bool) -> Reply
    ensures { result ≡ reply_with op.now flag }
{
    match op {
        Op::Get { key: _ } => Reply::Done { was: flag },
        Op::Put { key: _, value: _ } => Reply::Done { was: flag },
        Op::Remove { key: _ } => Reply::Done { was: flag },
        Op::Swap {
            key: _,
            expected: _,
            value: _,
        } => Reply::Swapped { done: flag },
    }
}

/// Whether a key's binding is exactly these bytes.
pub fn is_bound_to(bound: Option<&Value>, bytes: &Value) -> bool
    ensures { result ≡ is_bound_to (option_copied bound.entry) bytes.now }
{
    match bound {
        None => false,
        Some(value) => value.same(bytes),
    }
}
