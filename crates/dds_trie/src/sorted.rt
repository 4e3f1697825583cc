//! Leaves in the order of their names.

ghost use Rattle.std.specs.Prelude.{◌≡◌, IfOk, OnOk};
ghost use Rattle.std.specs.FinMap as map;
ghost use Rattle.dds_trie.specs.Trie.{leaves_of, rebound};

use dds_base::items::Items;
use dds_base::leaf::Leaf;
use dds_base::memory::Memory;
use dds_base::name::LeafName;
use std::alloc::Global;
use std::collections::BTreeMap;
use std::marker::Model;

/// Leaves by their names, in order.
#[derive(Drop)]
pub(crate) struct Sorted {
    tree: BTreeMap<LeafName, Leaf>,
}

impl Model for Sorted {
    ghost use Rattle.std.specs.FinMap as map;
    ghost use Rattle.dds_base.specs.contracts.name.LeafName as name;
    ghost use Rattle.dds_base.specs.contracts.leaf.Leaf as leaf;
    ghost use Rattle.dds_trie.specs.Trie.{LeafMap};

    ghost Value = { LeafMap };

    ghost coded = { map.code name.the_row.coded leaf.the_row.coded };

    ghost view = { λ a. map.from_entries a.tree.entries };
}

impl Sorted {
    pub(crate) fn new(alloc: Global) -> Sorted
        ensures { result ≡ map.empty }
    {
        Sorted {
            tree: BTreeMap::new(alloc),
        }
    }

    /// Binds the name to the leaf, or to nothing.
    pub(crate) fn bind(&mut self, name: LeafName, leaf: Option<Leaf>) -> Result<(), Memory>
        ensures { OnOk result (self.new ≡ rebound self.old name leaf) }
    {
        match leaf {
            Some(leaf) => self.insert(name, leaf),
            None => {
                self.remove(name);
                Ok(())
            }
        }
    }

    fn insert(&mut self, name: LeafName, leaf: Leaf) -> Result<(), Memory>
        ensures { OnOk result (self.new ≡ map.insert self.old name leaf) }
    {
        self.tree.insert(name, leaf)?;
        Ok(())
    }

    fn remove(&mut self, name: LeafName)
        ensures { self.new ≡ map.remove self.old name }
    {
        self.tree.remove(&name);
    }

    /// A copy of all leaves.
    pub(crate) fn all(&self, alloc: Global) -> Result<Items<Leaf>, Memory>
        ensures { IfOk result (λ list. list ≡ leaves_of self.now) }
    {
        let mut list = Items::new(alloc);
        for (_name, leaf) in self.tree.iter() {
            list.push(*leaf)?;
        }
        Ok(list)
    }
}
