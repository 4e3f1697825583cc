//! A map from names to leaves that is looked up by the bits of a key.

ghost use Rattle.std.specs.Prelude.{◌≡◌, ◌↔◌, IsTrue, ◌<◌, ◌≤◌, ◌^◌, OnOk, OnErr, IsSome, option_copied, IfOk};
ghost use Rattle.std.specs.FinMap as map;
ghost use Rattle.dds_groups.specs.Names.{low_half, high_half};
ghost use Rattle.dds_trie.specs.Trie.{IsWithin, cut_below, leaf_within, put, rebound, leaves_of, OverlapsSome};

use crate::leaves::Leaves;
use dds_base::items::Items;
use dds_base::leaf::Leaf;
use dds_base::memory::Memory;
use dds_base::name::LeafName;
use dds_groups::halves::{high_half, low_half};
use std::alloc::Global;
use std::marker::Model;

/// Leaves by their names. A look-up goes down by the key's lowest bits, at most 16 steps, however many leaves there are.
/// Contracts see a finite map.
#[derive(Drop)]
pub struct Trie {
    leaves: Leaves,
    deepest: u8,
}

impl Model for Trie {
    ghost use Rattle.std.specs.Prelude.{◌≤◌};
    ghost use Rattle.std.specs.FinMap as map;
    ghost use Rattle.dds_base.specs.contracts.name.LeafName as name;
    ghost use Rattle.dds_base.specs.contracts.leaf.Leaf as leaf;
    ghost use Rattle.dds_trie.specs.Trie.{LeafMap, IsWithin};

    ghost Value = { LeafMap };

    ghost coded = { map.code name.the_row.coded leaf.the_row.coded };

    ghost view = { λ a. a.leaves };

    ghost invariant = { λ a. (a.deepest ≤ 16) × IsWithin a.leaves a.deepest };
}

impl Trie {
    /// Takes no memory.
    pub fn new(alloc: Global) -> Trie
        ensures { result ≡ map.empty }
    {
        Trie {
            leaves: Leaves::new(alloc),
            deepest: 0,
        }
    }

    /// The deepest leaf that covers the key; `None` where none does.
    pub fn leaf_of(&self, key: u64) -> Option<&Leaf>
        ensures { option_copied result ≡ leaf_within self.now 16 key }
    {
        self.leaves.leaf_of(key)
    }

    /// The leaf of this name; `None` where there is none.
    pub fn named(&self, name: LeafName) -> Option<&Leaf>
        ensures { option_copied result ≡ map.get self.now name }
    {
        self.leaves.get(name)
    }

    /// A copy of all leaves, by bits and then by depth.
    pub fn leaves(&self, alloc: Global) -> Result<Items<Leaf>, Memory>
        ensures { IfOk result (λ list. list ≡ leaves_of self.now) }
    {
        self.leaves.all(alloc)
    }

    /// Whether some leaf's name overlaps the name. Looks at each leaf.
    pub fn overlapping(&self, name: LeafName) -> bool
        ensures { IsTrue result ↔ OverlapsSome self.now name }
    {
        self.leaves.overlapping(name)
    }

    /// Takes away each leaf whose name lies under the leaf's name, its own included, and binds that name to the leaf.
    pub fn put_leaf(&mut self, leaf: Leaf) -> Result<(), Memory>
        ensures ok { OnOk result (self.new ≡ put self.old leaf) }
        ensures err { OnErr result (self.new ≡ self.old) }
    {
        let name = leaf.name;
        self.leaves.insert(name, leaf)?;
        self.deepest = self.deepest.max(depth_of(name));
        cut_below(&mut self.leaves, name, self.deepest);
        Ok(())
    }

    /// Takes the leaf of a name away and puts the leaves of its two halves.
    pub fn split_leaf(&mut self, name: LeafName, low: Leaf, high: Leaf) -> Result<(), Memory>
        requires there { IsSome (map.get self.old name) }
        requires low { low.name ≡ low_half name }
        requires high { high.name ≡ high_half name }
        ensures ok { OnOk result (self.new ≡ put (put (map.remove self.old name) low) high) }
        ensures err { OnErr result (self.new ≡ self.old) }
    {
        let (low_name, high_name) = (low.name, high.name);
        insert_both(&mut self.leaves, low, high)?;
        self.leaves.remove(name);
        self.deepest = self
            .deepest
            .max(depth_of(low_name))
            .max(depth_of(high_name));
        cut_below(&mut self.leaves, low_name, self.deepest);
        cut_below(&mut self.leaves, high_name, self.deepest);
        Ok(())
    }
}

/// Binds both names, or none.
fn insert_both(leaves: &mut Leaves, low: Leaf, high: Leaf) -> Result<(), Memory>
    ensures ok { OnOk result (leaves.new ≡ map.insert (map.insert leaves.old low.name low) high.name high) }
    ensures err { OnErr result (leaves.new ≡ leaves.old) }
{
    let (low_name, high_name) = (low.name, high.name);
    let was = leaves.insert(low_name, low)?;
    match leaves.insert(high_name, high) {
        Ok(_) => Ok(()),
        Err(_) => {
            put_back(leaves, low_name, was);
            Err(Memory)
        }
    }
}

/// Binds a name to what it was bound to, or to nothing. Takes no memory: the name is bound.
fn put_back(leaves: &mut Leaves, name: LeafName, was: Option<Leaf>)
    requires { IsSome (map.get leaves.old name) }
    ensures { leaves.new ≡ rebound leaves.old name was }
{
    match was {
        Some(leaf) => {
            let _ = leaves.insert(name, leaf);
        }
        None => leaves.remove(name),
    }
}

/// Takes away each leaf whose name is deeper than a name that covers all its keys. None is deeper than `deepest`.
#[cycle(cutting)]
fn cut_below(leaves: &mut Leaves, name: LeafName, deepest: u8)
    requires depth { deepest ≤ 16 }
    requires within { IsWithin leaves.old deepest }
    ensures { leaves.new ≡ cut_below leaves.old name }
{
    if depth_of(name) < deepest {
        cut(leaves, low_half(name), deepest);
        cut(leaves, high_half(name), deepest);
    }
}

/// Takes away each leaf whose name is under a name, its own included. Goes no further down than there are nodes.
#[cycle(cutting)]
fn cut(leaves: &mut Leaves, name: LeafName, deepest: u8)
    requires depth { deepest ≤ 16 }
    requires within { IsWithin leaves.old deepest }
    ensures { leaves.new ≡ cut_below (map.remove leaves.old name) name }
{
    if leaves.none_under(name) {
        return;
    }
    leaves.remove(name);
    cut_below(leaves, name, deepest);
}

fn depth_of(name: LeafName) -> u8
    ensures value { result ≡ name.depth }
    ensures range { result ≤ 16 }
    ensures valid { name.bits < 2 ^ name.depth }
{
    let _bits = name.bits();
    name.depth()
}
