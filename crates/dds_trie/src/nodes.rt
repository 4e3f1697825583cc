//! The nodes of a trie in one list: each has its name, the places of its two halves' nodes, and a leaf if one is there.

ghost use Rattle.std.specs.Prelude.{◌≡◌, ◌+◌, ◌<◌, ◌≤◌, ℕ, Some, None, length, IfOk, OnOk, OnErr, option_copied};
ghost use Rattle.dds_trie.specs.Trie.{name_at, or_else, leaf_within, shallower};
ghost use Rattle.dds_trie.specs.Nodes.{is_high, child, linked, linked_to, place, seen, blank, IsTrie};

use dds_base::items::Items;
use dds_base::leaf::Leaf;
use dds_base::memory::Memory;
use dds_base::name::{DEPTH, LeafName};

/// `low` and `high` are places in the list of nodes, 0 where there is no such node: the first node is no half.
#[derive(Clone, Copy)]
pub(crate) struct Node {
    pub(crate) name: LeafName,
    pub(crate) low: usize,
    pub(crate) high: usize,
    pub(crate) leaf: Option<Leaf>,
}

/// A node without halves.
fn bare(name: LeafName, leaf: Option<Leaf>) -> Node
    ensures { result ≡ record { name = name; low = 0; high = 0; leaf = leaf } }
{
    Node {
        name,
        low: 0,
        high: 0,
        leaf,
    }
}

/// The name of this depth that covers the key.
pub(crate) fn name_at(key: u64, depth: u8) -> LeafName
    requires { depth ≤ 16 }
    ensures { result ≡ name_at key depth }
{
    LeafName::of((key % (1u64 << depth)) as u16, depth).unwrap()
}

/// Whether the key is under the high half of a name of this depth that covers it.
fn is_high(key: u64, depth: u8) -> bool
    requires { depth ≤ 16 }
    ensures { result ≡ is_high key depth }
{
    (key >> depth) % 2 == 1
}

fn child(node: &Node, high: bool) -> usize
    ensures { result ≡ child node.now high }
{
    if high { node.high } else { node.low }
}

fn link(node: &mut Node, high: bool, to: usize)
    ensures { node.new ≡ linked_to node.old high to }
{
    if high {
        node.high = to;
    } else {
        node.low = to;
    }
}

/// The place of the half of a node that covers the key, 0 where there is none.
fn next(nodes: &[Node], key: u64, from: usize, depth: u8) -> usize
    requires trie { IsTrie nodes.now }
    requires from { place nodes.now key depth ≡ Some from }
    requires depth { depth < 16 }
    ensures { place nodes.now key (depth + 1) ≡ linked result }
{
    child(&nodes[from], is_high(key, depth))
}

/// The place of the node that covers the key at a depth, from one on its path; `None` where there is none.
pub(crate) fn place_from(
    nodes: &[Node],
    key: u64,
    from: usize,
    depth: u8,
    want: u8,
) -> Option<usize>
    requires trie { IsTrie nodes.now }
    requires from { place nodes.now key depth ≡ Some from }
    requires depth { depth ≤ want }
    requires want { want ≤ 16 }
    ensures { result ≡ place nodes.now key want }
{
    if depth == want {
        return Some(from);
    }
    let next = next(nodes, key, from, depth);
    if next == 0 {
        return None;
    }
    place_from(nodes, key, next, depth + 1, want)
}

/// The leaf of a node, else the other one.
fn deeper<'a>(node: &'a Node, best: Option<&'a Leaf>) -> Option<&'a Leaf>
    ensures { option_copied result ≡ or_else node.now.leaf (option_copied best.entry) }
{
    match &node.leaf {
        Some(leaf) => Some(leaf),
        None => best,
    }
}

/// The deepest leaf that covers the key, from a node on its path, where `best` is the deepest of those before.
pub(crate) fn leaf_from<'a>(
    nodes: &'a [Node],
    key: u64,
    from: usize,
    depth: u8,
    best: Option<&'a Leaf>,
) -> Option<&'a Leaf>
    requires trie { IsTrie nodes.now }
    requires from { place nodes.now key depth ≡ Some from }
    requires depth { depth ≤ 16 }
    requires best { option_copied best ≡ shallower (seen nodes.now) depth key }
    ensures { option_copied result ≡ leaf_within (seen nodes.now) 16 key }
{
    let best = deeper(&nodes[from], best);
    if depth == DEPTH {
        return best;
    }
    let next = next(nodes, key, from, depth);
    if next == 0 {
        return best;
    }
    leaf_from(nodes, key, next, depth + 1, best)
}

/// Makes the first node where there is none.
pub(crate) fn root(nodes: &mut Items<Node>) -> Result<(), Memory>
    requires { IsTrie nodes.old }
    ensures trie { IsTrie nodes.new }
    ensures seen { seen nodes.new ≡ seen nodes.old }
    ensures kept { (k e i : ℕ) → place nodes.old k e ≡ Some i → place nodes.new k e ≡ Some i }
    ensures ok { (k : ℕ) → OnOk result (place nodes.new k 0 ≡ Some 0) }
    ensures err { (k e : ℕ) → OnErr result (place nodes.old k e ≡ None) }
{
    if nodes.is_empty() {
        nodes.push(bare(name_at(0, 0), None))?;
    }
    Ok(())
}

/// Makes the half of a node that covers the key and that isn't there.
fn add(nodes: &mut Items<Node>, key: u64, from: usize, depth: u8) -> Result<usize, Memory>
    requires trie { IsTrie nodes.old }
    requires from { place nodes.old key depth ≡ Some from }
    requires free { place nodes.old key (depth + 1) ≡ None }
    requires depth { depth < 16 }
    ensures trie { IsTrie nodes.new }
    ensures seen { seen nodes.new ≡ seen nodes.old }
    ensures kept { (k e i : ℕ) → place nodes.old k e ≡ Some i → place nodes.new k e ≡ Some i }
    ensures ok { IfOk result (λ at. place nodes.new key (depth + 1) ≡ Some at) }
{
    let at = nodes.len();
    nodes.push(bare(name_at(key, depth + 1), None))?;
    let mut parent = *nodes.at(from);
    link(&mut parent, is_high(key, depth), at);
    nodes.replace(from, parent);
    Ok(at)
}

/// The half of a node that covers the key, made where it isn't there.
fn half(nodes: &mut Items<Node>, key: u64, from: usize, depth: u8) -> Result<usize, Memory>
    requires trie { IsTrie nodes.old }
    requires from { place nodes.old key depth ≡ Some from }
    requires depth { depth < 16 }
    ensures trie { IsTrie nodes.new }
    ensures seen { seen nodes.new ≡ seen nodes.old }
    ensures kept { (k e i : ℕ) → place nodes.old k e ≡ Some i → place nodes.new k e ≡ Some i }
    ensures ok { IfOk result (λ at. place nodes.new key (depth + 1) ≡ Some at) }
    ensures err { OnErr result (place nodes.old key (depth + 1) ≡ None) }
{
    let next = next(nodes.as_slice(), key, from, depth);
    if next > 0 {
        return Ok(next);
    }
    add(nodes, key, from, depth)
}

/// The place of the node that covers the key at a depth, from one on its path; those that are missing are made.
pub(crate) fn grow(
    nodes: &mut Items<Node>,
    key: u64,
    from: usize,
    depth: u8,
    want: u8,
) -> Result<usize, Memory>
    requires trie { IsTrie nodes.old }
    requires from { place nodes.old key depth ≡ Some from }
    requires depth { depth ≤ want }
    requires want { want ≤ 16 }
    ensures trie { IsTrie nodes.new }
    ensures seen { seen nodes.new ≡ seen nodes.old }
    ensures ok { IfOk result (λ at. place nodes.new key want ≡ Some at) }
    ensures err { OnErr result (place nodes.old key want ≡ None) }
{
    if depth == want {
        return Ok(from);
    }
    let next = half(nodes, key, from, depth)?;
    grow(nodes, key, next, depth + 1, want)
}
