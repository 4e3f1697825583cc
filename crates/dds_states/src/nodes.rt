//! Lists of nodes.

ghost use Rattle.std.specs.Prelude.{◌≡◌, [], ◌∷◌, ◌++◌, IfOk, length, take, map, filter, not, ◌==◌, ◌+◌, IfSome};
ghost use Rattle.dds_base.specs.BrickList.{has};
ghost use Rattle.dds_base.specs.NodeSet.{has_node};
ghost use Rattle.dds_states.specs.Turn.{without, unknown, unknown_others, to_each, is_none_left, numbers_from};

use dds_base::brick_list::{BrickList, LiveList};
use dds_base::items::Items;
use dds_base::memory::Memory;
use dds_base::node_set::NodeSet;
use dds_base::number::NodeNo;
use dds_letters::letter::Letter;
use dds_letters::outbox::Outbox;
use std::alloc::Global;

pub type NodeList = Items<NodeNo>;

/// The list without a node.
pub fn without(alloc: Global, nodes: &[NodeNo], node: NodeNo) -> Result<NodeList, Memory>
    ensures { IfOk result (λ list. list ≡ without nodes.now node) }
{
    let mut list = NodeList::new(alloc);
    for n in nodes {
        if *n != node {
            list.push(*n)?;
        }
    }
    Ok(list)
}

/// The nodes that aren't known to have stopped.
pub fn unknown(alloc: Global, nodes: &[NodeNo], known: &NodeSet) -> Result<NodeList, Memory>
    ensures { IfOk result (λ list. list ≡ unknown nodes.now known.now) }
{
    let mut list = NodeList::new(alloc);
    for node in nodes {
        if !known.has(*node) {
            list.push(*node)?;
        }
    }
    Ok(list)
}

/// The members of a group.
pub fn members(alloc: Global, group: &BrickList) -> Result<NodeList, Memory>
    ensures { IfOk result (λ list. list ≡ group.now) }
{
    let mut list = NodeList::new(alloc);
    for place in 0..group.len() {
        list.push(group.at(place))?;
    }
    Ok(list)
}

/// The members of a group that aren't known to have stopped.
pub fn unknown_members(
    alloc: Global,
    group: &BrickList,
    known: &NodeSet,
) -> Result<NodeList, Memory>
    ensures { IfOk result (λ list. list ≡ unknown group.now known.now) }
{
    let mut list = NodeList::new(alloc);
    for place in 0..group.len() {
        let node = group.at(place);
        if !known.has(node) {
            list.push(node)?;
        }
    }
    Ok(list)
}

/// The other ones of them.
pub fn unknown_others(
    alloc: Global,
    group: &BrickList,
    me: NodeNo,
    known: &NodeSet,
) -> Result<NodeList, Memory>
    ensures { IfOk result (λ list. list ≡ unknown_others group.now me known.now) }
{
    without(alloc, unknown_members(alloc, group, known)?.as_slice(), me)
}

/// The letter to each node.
pub fn to_each(alloc: Global, nodes: &[NodeNo], letter: Letter) -> Result<Outbox, Memory>
    ensures { IfOk result (λ outbox. outbox ≡ to_each nodes.now letter) }
{
    let Some((last, others)) = nodes.split_last() else {
        return Ok(Outbox::new(alloc));
    };
    let mut outbox = copy_to_each(alloc, others, &letter)?;
    outbox.push(*last, letter)?;
    Ok(outbox)
}

fn copy_to_each(alloc: Global, nodes: &[NodeNo], letter: &Letter) -> Result<Outbox, Memory>
    ensures { IfOk result (λ outbox. outbox ≡ to_each nodes.now letter.now) }
{
    let mut outbox = Outbox::new(alloc);
    for node in nodes {
        outbox.push(*node, letter.copy(alloc)?)?;
    }
    Ok(outbox)
}

pub fn has(nodes: &[NodeNo], node: NodeNo) -> bool
    ensures { result ≡ has nodes.now node }
{
    for n in nodes {
        if *n == node {
            return true;
        }
    }
    false
}

pub fn copy(alloc: Global, nodes: &[NodeNo]) -> Result<NodeList, Memory>
    ensures { IfOk result (λ list. list ≡ nodes.now) }
{
    let mut list = NodeList::new(alloc);
    for node in nodes {
        list.push(*node)?;
    }
    Ok(list)
}

/// So many nodes by number, from a first one on. It answers `Memory` too where a number is no node's.
pub fn numbers(alloc: Global, count: u8, first: u8) -> Result<NodeList, Memory>
    ensures { IfOk result (λ list. list ≡ numbers_from count first) }
{
    let mut list = NodeList::new(alloc);
    for place in 0..count {
        let Some(node) = node_from(first, place) else {
            return Err(Memory);
        };
        list.push(node)?;
    }
    Ok(list)
}

fn node_from(first: u8, place: u8) -> Option<NodeNo>
    ensures { IfSome result (λ node. node ≡ first + place) }
{
    NodeNo::of(first.checked_add(place)?)
}

/// The nodes as a replica group. It answers `Memory` too where they are none.
pub fn group(alloc: Global, nodes: &[NodeNo]) -> Result<BrickList, Memory>
    ensures { IfOk result (λ list. list ≡ nodes.now) }
{
    let mut numbers = Vec::new(alloc);
    for node in nodes {
        numbers.push(node.number())?;
    }
    match BrickList::of(numbers.as_slice()) {
        Some(list) => Ok(list),
        None => Err(Memory),
    }
}
