//! The partition map of a node, and how a leaf stands against one that another node has.

ghost use Rattle.std.specs.Prelude.{◌≡◌, ◌==◌, ◌<◌, ◌↔◌, IsTrue, None, IsSome, IfOk, OnOk, OnErr, option_copied, if◌then◌else◌};
ghost use Rattle.std.specs.FinMap as map;
ghost use Rattle.dds_groups.specs.Names.{low_half, high_half};
ghost use Rattle.dds_trie.specs.Trie.{leaf_within, put, leaves_of, OverlapsSome};
ghost use Rattle.dds_base.specs.NodeSet.{has_node};
ghost use Rattle.dds_maps.specs.Own.{own_leaf, whole, may_take_for};
ghost use Rattle.dds_maps.specs.Judge.{put_all, standing_of, judged};

use dds_base::items::Items;
use dds_base::leaf::Leaf;
use dds_base::memory::Memory;
use dds_base::name::LeafName;
use dds_base::node_set::NodeSet;
use dds_base::number::{NodeNo, Stamp};
use dds_groups::order::{newer, same_name, same_stamp};
use dds_groups::take::may_take;
use dds_trie::trie::Trie;
use std::alloc::Global;
use std::marker::Model;

/// How a leaf that was used stands against the one that covers its key here: it is the same, another leaf does, or none.
#[derive(Clone, Copy, PartialEq, Eq, Debug)]
pub enum Standing {
    Same,
    Other(Leaf),
    NotHere,
}

/// Which leaf is behind: a brick's, a library's, or neither; or the brick has none.
#[derive(Clone, Copy, PartialEq, Eq, Debug)]
pub enum Judgement {
    Same,
    BrickBehind,
    LibraryStale,
    NotHere,
}

/// The leaves that a node knows. Contracts see a finite map.
#[derive(Drop)]
pub struct Maps {
    leaves: Trie,
}

impl Model for Maps {
    ghost use Rattle.std.specs.FinMap as map;
    ghost use Rattle.dds_base.specs.contracts.name.LeafName as name;
    ghost use Rattle.dds_base.specs.contracts.leaf.Leaf as leaf;
    ghost use Rattle.dds_trie.specs.Trie.{LeafMap};

    ghost Value = { LeafMap };

    ghost coded = { map.code name.the_row.coded leaf.the_row.coded };

    ghost view = { λ a. a.leaves };
}

impl Maps {
    /// The map with these leaves put into it in turn.
    pub fn new(alloc: Global, leaves: &[Leaf]) -> Result<Maps, Memory>
        ensures { IfOk result (λ maps. maps ≡ put_all map.empty leaves.now) }
    {
        let mut trie = Trie::new(alloc);
        for leaf in leaves {
            trie.put_leaf(*leaf)?;
        }
        Ok(Maps { leaves: trie })
    }

    /// The deepest leaf that covers the key; `None` where none does.
    pub fn leaf_of(&self, key: u64) -> Option<&Leaf>
        ensures { option_copied result ≡ leaf_within self.now 16 key }
    {
        self.leaves.leaf_of(key)
    }

    /// The leaf of this name; `None` where there is none.
    pub fn named(&self, name: LeafName) -> Option<&Leaf>
        ensures { option_copied result ≡ map.get self.now name }
    {
        self.leaves.named(name)
    }

    /// A copy of all leaves, by bits and then by depth.
    pub fn leaves(&self, alloc: Global) -> Result<Items<Leaf>, Memory>
        ensures { IfOk result (λ list. list ≡ leaves_of self.now) }
    {
        self.leaves.leaves(alloc)
    }

    /// Whether some leaf's name overlaps the name. Looks at each leaf.
    pub fn overlapping(&self, name: LeafName) -> bool
        ensures { IsTrue result ↔ OverlapsSome self.now name }
    {
        self.leaves.overlapping(name)
    }

    /// Puts a leaf that was told; it takes the place of all that lie under its name.
    pub fn adopt(&mut self, leaf: Leaf) -> Result<(), Memory>
        ensures ok { OnOk result (self.new ≡ put self.old leaf) }
        ensures err { OnErr result (self.new ≡ self.old) }
    {
        self.leaves.put_leaf(leaf)
    }

    /// Takes the leaf of a name away and puts the leaves of its two halves.
    pub fn split(&mut self, name: LeafName, low: Leaf, high: Leaf) -> Result<(), Memory>
        requires there { IsSome (map.get self.old name) }
        requires low { low.name ≡ low_half name }
        requires high { high.name ≡ high_half name }
        ensures ok { OnOk result (self.new ≡ put (put (map.remove self.old name) low) high) }
        ensures err { OnErr result (self.new ≡ self.old) }
    {
        self.leaves.split_leaf(name, low, high)
    }

    /// How the leaf of this name and stamp, which was used for the key, stands here.
    pub fn stands(&self, key: u64, name: LeafName, stamp: Stamp) -> Standing
        ensures { result ≡ standing_of (leaf_within self.now 16 key) name stamp }
    {
        match self.leaf_of(key) {
            None => Standing::NotHere,
            Some(leaf) => {
                if same_name(&leaf.name, &name) && same_stamp(&leaf.stamp, &stamp) {
                    Standing::Same
                } else {
                    Standing::Other(*leaf)
                }
            }
        }
    }

    /// The leaf of this name, else the leaf of the name that it is a half of.
    pub fn own_leaf(&self, name: LeafName) -> Option<&Leaf>
        ensures { option_copied result ≡ own_leaf self.now name }
    {
        match self.named(name) {
            Some(leaf) => Some(leaf),
            None => self.whole_of(name),
        }
    }

    fn whole_of(&self, name: LeafName) -> Option<&Leaf>
        ensures { option_copied result ≡ (if name.depth == 0 then None else map.get self.now (whole name)) }
    {
        if name.depth() == 0 {
            return None;
        }
        self.named(whole(name))
    }

    /// Whether brick `me` takes the leaf in the place of its own one of that name or of the name that it is a half of.
    /// `free` says that no lease and no open join of `me` overlaps the own one's name, and that none of its keys is
    /// locked.
    pub fn may_take(&self, me: NodeNo, leaf: &Leaf, known: &NodeSet, free: bool) -> bool
        ensures { result ≡ may_take_for (own_leaf self.now leaf.now.name) me leaf.now (has_node known.now) free }
    {
        match self.own_leaf(leaf.name) {
            None => false,
            Some(own) => may_take(me, own, leaf, known, free),
        }
    }
}

/// The name that this one is a half of.
fn whole(name: LeafName) -> LeafName
    requires { 0 < name.depth }
    ensures { result ≡ whole name }
{
    let depth = name.depth() - 1;
    LeafName::of((u32::from(name.bits()) % (1u32 << depth)) as u16, depth).unwrap()
}

/// Which is behind, a library's leaf for a key or a brick's.
pub fn judge(mine: &Leaf, theirs: Option<&Leaf>) -> Judgement
    ensures { result ≡ judged mine.now (option_copied theirs.entry) }
{
    match theirs {
        None => Judgement::NotHere,
        Some(theirs) => {
            if same_name(&mine.name, &theirs.name) && same_stamp(&mine.stamp, &theirs.stamp) {
                Judgement::Same
            } else if newer(mine, theirs) {
                Judgement::BrickBehind
            } else {
                Judgement::LibraryStale
            }
        }
    }
}
