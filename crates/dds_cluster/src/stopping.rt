//! What a node that has stopped leaves.

ghost use Rattle.std.specs.Prelude.{◌≡◌, ◌++◌, IfOk};
ghost use Rattle.dds_letters.specs.declared.letter.Letter.TheVariants.{Notice};
ghost use Rattle.dds_states.specs.Turn.{numbers_from, to_each, without};
ghost use Rattle.dds_cluster.specs.World.{emptied};

use dds_base::items::Items;
use dds_base::memory::Memory;
use dds_base::node_set::NodeSet;
use dds_base::number::NodeNo;
use dds_history::table::Table;
use dds_letters::letter::Letter;
use dds_letters::outbox::Outbox;
use dds_locks::locks::Locks;
use dds_maps::maps::Maps;
use dds_states::brick_state::BrickState;
use dds_states::nodes::{NodeList, numbers, to_each, without};
use std::alloc::Global;

/// A brick that has stopped.
pub fn emptied(alloc: Global, number: NodeNo) -> Result<BrickState, Memory>
    ensures { IfOk result (λ brick. brick ≡ emptied number) }
{
    Ok(BrickState {
        number,
        stopped: true,
        known: NodeSet::new(),
        leaves: Maps::new(alloc, &[])?,
        pairs: Table::new(alloc),
        locks: Locks::new(alloc),
        deferred: Items::new(alloc),
        resolving: Items::new(alloc),
        order: None,
        orders: 0,
        made: 0,
    })
}

/// All nodes of so many bricks and libraries, by number.
fn all_nodes(alloc: Global, bricks: usize, libraries: usize) -> Result<NodeList, Memory>
    ensures { IfOk result (λ list. list ≡ numbers_from bricks 0 ++ numbers_from libraries 64) }
{
    let (Ok(bricks), Ok(libraries)) = (u8::try_from(bricks), u8::try_from(libraries)) else {
        return Err(Memory);
    };
    let mut list = numbers(alloc, bricks, 0)?;
    list.append(numbers(alloc, libraries, 64)?)?;
    Ok(list)
}

/// A notice for each node but the one.
pub fn notices(
    alloc: Global,
    bricks: usize,
    libraries: usize,
    node: NodeNo,
) -> Result<Outbox, Memory>
    ensures { IfOk result (λ letters. letters ≡ to_each (without (numbers_from bricks 0 ++ numbers_from libraries 64) node) Notice) }
{
    let all = all_nodes(alloc, bricks, libraries)?;
    let others = without(alloc, all.as_slice(), node)?;
    to_each(alloc, others.as_slice(), Letter::Notice)
}
