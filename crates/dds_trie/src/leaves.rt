//! A tree of leaves by their names, seen as a finite map.

ghost use Rattle.std.specs.Prelude.{◌≡◌, ◌↔◌, ◌<◌, ◌≤◌, ◌%◌, ◌^◌, IsTrue, None, IfOk, OnOk, OnErr, option_copied, length, get_or, slice_set};
ghost use Rattle.std.specs.FinMap as map;
ghost use Rattle.std.specs.List.{list_any};
ghost use Rattle.dds_base.specs.Name.{overlaps};
ghost use Rattle.dds_trie.specs.Trie.{OverlapsSome, leaf_within, leaves_of, cut_below};
ghost use Rattle.dds_trie.specs.Nodes.{place, seen, IsTrie, bound_overlaps, blank};

use crate::nodes::{Node, grow, leaf_from, place_from, root};
use crate::sorted::Sorted;
use dds_base::items::Items;
use dds_base::leaf::Leaf;
use dds_base::memory::Memory;
use dds_base::name::LeafName;
use std::alloc::Global;
use std::marker::Model;

/// Leaves by their names, at the nodes of a trie. A node stays when its leaf is taken away, for the next of its name.
#[derive(Drop)]
pub(crate) struct Leaves {
    nodes: Items<Node>,
}

impl Model for Leaves {
    ghost use Rattle.std.specs.FinMap as map;
    ghost use Rattle.dds_base.specs.contracts.name.LeafName as name;
    ghost use Rattle.dds_base.specs.contracts.leaf.Leaf as leaf;
    ghost use Rattle.dds_trie.specs.Trie.{LeafMap};
    ghost use Rattle.dds_trie.specs.Nodes.{seen, IsTrie};

    ghost Value = { LeafMap };

    ghost coded = { map.code name.the_row.coded leaf.the_row.coded };

    ghost view = { λ a. seen a.nodes };

    ghost invariant = { λ a. IsTrie a.nodes };
}

impl Leaves {
    pub(crate) fn new(alloc: Global) -> Leaves
        ensures { result ≡ map.empty }
    {
        Leaves {
            nodes: Items::new(alloc),
        }
    }

    pub(crate) fn get(&self, name: LeafName) -> Option<&Leaf>
        ensures { option_copied result ≡ map.get self.now name }
    {
        get_in(self.nodes.as_slice(), name)
    }

    /// The deepest leaf that covers the key.
    pub(crate) fn leaf_of(&self, key: u64) -> Option<&Leaf>
        ensures { option_copied result ≡ leaf_within self.now 16 key }
    {
        let nodes = self.nodes.as_slice();
        if nodes.is_empty() {
            return None;
        }
        leaf_from(nodes, key, 0, 0, None)
    }

    /// Binds the name and gives what it was bound to. Where it was bound, no memory is taken.
    pub(crate) fn insert(&mut self, name: LeafName, leaf: Leaf) -> Result<Option<Leaf>, Memory>
        ensures ok { OnOk result (self.new ≡ map.insert self.old name leaf) }
        ensures was { IfOk result (λ was. was ≡ map.get self.old name) }
        ensures err { OnErr result (self.new ≡ self.old) }
        ensures free { OnErr result (map.get self.old name ≡ None) }
    {
        let at = place_or_new(&mut self.nodes, name)?;
        Ok(set_leaf(&mut self.nodes, at, Some(leaf)))
    }

    pub(crate) fn remove(&mut self, name: LeafName)
        ensures { self.new ≡ map.remove self.old name }
    {
        if let Some(at) = place_of(self.nodes.as_slice(), name) {
            set_leaf(&mut self.nodes, at, None);
        }
    }

    /// Whether no node is under the name, so that taking away what is under it would change nothing.
    pub(crate) fn none_under(&self, name: LeafName) -> bool
        ensures { IsTrue result → cut_below (map.remove self.now name) name ≡ self.now }
    {
        place_of(self.nodes.as_slice(), name).is_none()
    }

    /// A copy of all leaves, in the order of their names.
    pub(crate) fn all(&self, alloc: Global) -> Result<Items<Leaf>, Memory>
        ensures { IfOk result (λ list. list ≡ leaves_of self.now) }
    {
        sorted(alloc, self.nodes.as_slice())?.all(alloc)
    }

    /// Whether some name overlaps this one. Looks at each name.
    pub(crate) fn overlapping(&self, name: LeafName) -> bool
        ensures { IsTrue result ↔ OverlapsSome self.now name }
    {
        any_overlaps(self.nodes.as_slice(), name)
    }
}

fn sorted(alloc: Global, nodes: &[Node]) -> Result<Sorted, Memory>
    ensures { IfOk result (λ sorted. sorted ≡ seen nodes.now) }
{
    let mut sorted = Sorted::new(alloc);
    let mut left = nodes.len();
    while left > 0 {
        left -= 1;
        let node = nodes[left];
        sorted.bind(node.name, node.leaf)?;
    }
    Ok(sorted)
}

/// The place of the node of a name; `None` where there is none.
fn place_of(nodes: &[Node], name: LeafName) -> Option<usize>
    requires { IsTrie nodes.now }
    ensures value { result ≡ place nodes.now name.bits name.depth }
    ensures valid { name.bits < 2 ^ name.depth }
{
    let (bits, depth) = (name.bits(), name.depth());
    if nodes.is_empty() {
        return None;
    }
    place_from(nodes, u64::from(bits), 0, 0, depth)
}

fn get_in(nodes: &[Node], name: LeafName) -> Option<&Leaf>
    requires { IsTrie nodes.now }
    ensures { option_copied result ≡ map.get (seen nodes.now) name }
{
    match place_of(nodes, name) {
        Some(at) => nodes[at].leaf.as_ref(),
        None => None,
    }
}

/// The place of the node of a name, which is made where it isn't there.
fn place_or_new(nodes: &mut Items<Node>, name: LeafName) -> Result<usize, Memory>
    requires { IsTrie nodes.old }
    ensures trie { IsTrie nodes.new }
    ensures seen { seen nodes.new ≡ seen nodes.old }
    ensures ok { IfOk result (λ at. place nodes.new name.bits name.depth ≡ Some at) }
    ensures err { OnErr result (place nodes.old name.bits name.depth ≡ None) }
    ensures valid { name.bits < 2 ^ name.depth }
{
    let (bits, depth) = (name.bits(), name.depth());
    root(nodes)?;
    grow(nodes, u64::from(bits), 0, 0, depth)
}

/// Gives the leaf that was there.
fn set_leaf(nodes: &mut Items<Node>, at: usize, leaf: Option<Leaf>) -> Option<Leaf>
    requires { at < length nodes.old }
    ensures value { result ≡ (get_or nodes.old at blank).leaf }
    ensures nodes { nodes.new ≡ slice_set nodes.old at record (get_or nodes.old at blank) { leaf = leaf } }
{
    let node = *nodes.at(at);
    nodes.replace(at, Node { leaf, ..node });
    node.leaf
}

fn any_overlaps(nodes: &[Node], name: LeafName) -> bool
    ensures { result ≡ list_any (bound_overlaps name) nodes.now }
{
    nodes
        .iter()
        .any(|node| node.leaf.is_some() && node.name.overlaps(&name))
}
