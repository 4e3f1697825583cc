//! The cluster and the run before the first step.

ghost use Rattle.std.specs.Prelude.{◌≡◌, ◌≤◌, [], replicate, filter, ◌==◌, ◌-◌, IfOk, OnOk};
ghost use Rattle.dds_base.specs.BrickList.{has};
ghost use Rattle.dds_maps.specs.Judge.{put_all};
ghost use Rattle.dds_cluster.specs.World.{opening_world, new_brick, new_bricks, new_library, new_libraries};
ghost use Rattle.dds_cluster.specs.Trace.{new_callers, start};

use crate::asked_list::AskedList;
use crate::cluster::Cluster;
use crate::links::Links;
use crate::made_list::MadeList;
use crate::queue::Queue;
use crate::step::Message;
use crate::stopping::emptied;
use crate::told_list::ToldList;
use crate::trace::{Caller, Trace};
use dds_base::items::Items;
use dds_base::leaf::Leaf;
use dds_base::memory::Memory;
use dds_base::node_set::NodeSet;
use dds_base::number::NodeNo;
use dds_groups::successor::has;
use dds_maps::maps::Maps;
use dds_script::opening::{LeafList, Opening};
use dds_states::brick_state::BrickState;
use dds_states::library_state::LibraryState;
use std::alloc::Global;

/// The run of an opening before its first step.
pub fn start(alloc: Global, opening: &Opening) -> Result<Trace, Memory>
    ensures { IfOk result (λ trace. trace ≡ start opening.now) }
{
    Ok(Trace {
        world: opening_world(alloc, opening)?,
        steps: 0,
        callers: new_callers(alloc, opening)?,
        asked: AskedList::new(alloc),
        made: MadeList::new(alloc),
        told: ToldList::new(alloc),
    })
}

/// The cluster of an opening before its first step.
fn opening_world(alloc: Global, opening: &Opening) -> Result<Cluster, Memory>
    ensures { IfOk result (λ cluster. cluster ≡ opening_world opening.now) }
{
    let nodes = usize::from(opening.bricks()) + usize::from(opening.libraries());
    let bricks = new_bricks(alloc, opening)?;
    let libraries = new_libraries(alloc, opening)?;
    let outboxes = new_outboxes(alloc, nodes)?;
    let links = new_links(alloc, nodes)?;
    Ok(Cluster::of(alloc, bricks, libraries, outboxes, links))
}

fn new_callers(alloc: Global, opening: &Opening) -> Result<Items<Caller>, Memory>
    ensures { IfOk result (λ callers. callers ≡ new_callers opening.now.libraries opening.now.callers 0) }
{
    let mut callers = Items::new(alloc);
    let (count, libraries) = (opening.callers(), opening.libraries());
    for number in 0..count {
        let Some(library) = NodeNo::library(number % libraries) else {
            return Err(Memory);
        };
        callers.push(Caller {
            library,
            call: None,
            least: 0,
        })?;
    }
    Ok(callers)
}

fn new_bricks(alloc: Global, opening: &Opening) -> Result<Vec<BrickState>, Memory>
    ensures { IfOk result (λ bricks. bricks.items ≡ new_bricks opening.now.leaves opening.now.bricks 0) }
{
    let mut bricks = Vec::new(alloc);
    let count = opening.bricks();
    for number in 0..count {
        let Some(node) = NodeNo::brick(number) else {
            return Err(Memory);
        };
        bricks.push(new_brick(alloc, opening.leaves(), node)?)?;
    }
    Ok(bricks)
}

/// A brick with the leaves that list it.
fn new_brick(alloc: Global, leaves: &[Leaf], number: NodeNo) -> Result<BrickState, Memory>
    ensures { IfOk result (λ brick. brick ≡ new_brick leaves.now number) }
{
    let own = listing(alloc, leaves, number)?;
    let mut brick = emptied(alloc, number)?;
    brick.stopped = false;
    brick.leaves = Maps::new(alloc, own.as_slice())?;
    Ok(brick)
}

/// The leaves that list a brick.
fn listing(alloc: Global, leaves: &[Leaf], number: NodeNo) -> Result<LeafList, Memory>
    ensures { IfOk result (λ list. list ≡ filter (λ l. has l.list number) leaves.now) }
{
    let mut list = LeafList::new(alloc);
    for leaf in leaves {
        if has(&leaf.list, number.number()) {
            list.push(*leaf)?;
        }
    }
    Ok(list)
}

fn new_libraries(alloc: Global, opening: &Opening) -> Result<Vec<LibraryState>, Memory>
    ensures { IfOk result (λ libraries. libraries.items ≡ new_libraries opening.now opening.now.libraries 0) }
{
    let mut libraries = Vec::new(alloc);
    let count = opening.libraries();
    for number in 0..count {
        let Some(node) = NodeNo::library(number) else {
            return Err(Memory);
        };
        libraries.push(new_library(alloc, opening, node)?)?;
    }
    Ok(libraries)
}

/// A library with the opening leaves in its map, and its own stale leaves put there after them.
fn new_library(alloc: Global, opening: &Opening, number: NodeNo) -> Result<LibraryState, Memory>
    requires { 64 ≤ number }
    ensures { IfOk result (λ library. library ≡ new_library opening.now (number - 64)) }
{
    let mut map = Maps::new(alloc, opening.leaves())?;
    put_stale(&mut map, opening.old(), number)?;
    Ok(LibraryState {
        number,
        stopped: false,
        known: NodeSet::new(),
        bricks: opening.bricks(),
        map,
        next: 0,
        calls: Items::new(alloc),
    })
}

fn put_stale(map: &mut Maps, old: &[Leaf], number: NodeNo) -> Result<(), Memory>
    ensures { OnOk result (map.new ≡ put_all map.old (filter (λ l. l.stamp.maker == number) old.now)) }
{
    for leaf in old {
        if leaf.stamp.maker() == number.number() {
            map.adopt(*leaf)?;
        }
    }
    Ok(())
}

fn new_outboxes(alloc: Global, nodes: usize) -> Result<Vec<Queue<Message>>, Memory>
    ensures { IfOk result (λ outboxes. outboxes.items ≡ replicate nodes []) }
{
    let mut outboxes = Vec::new(alloc);
    for _place in 0..nodes {
        outboxes.push(Queue::new(alloc))?;
    }
    Ok(outboxes)
}

fn new_links(alloc: Global, nodes: usize) -> Result<Vec<Links>, Memory>
    ensures { IfOk result (λ links. links.items ≡ replicate nodes (replicate nodes [])) }
{
    let mut links = Vec::new(alloc);
    for _place in 0..nodes {
        links.push(Links::new(alloc, nodes)?)?;
    }
    Ok(links)
}
