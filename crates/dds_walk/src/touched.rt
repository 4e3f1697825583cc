//! Where a step may change the first letters of outboxes and links.

ghost use Rattle.std.specs.Prelude.{◌≡◌, option_copied};
ghost use Rattle.dds_agenda.specs.declared.entry.Slot.TheVariants.{Outbox};
ghost use Rattle.dds_cluster.specs.World.{place};
ghost use Rattle.dds_walk.specs.Agenda.{entry_at, entry_of, entry_on, link_of, link_to};
ghost use Rattle.dds_walk.specs.Walk.{node_of};

use crate::same::node_of;
use dds_agenda::entry::{Entry, Slot};
use dds_base::number::NodeNo;
use dds_cluster::cluster::Cluster;
use dds_cluster::step::{Message, Step};

/// The outbox whose first letter a step may change, and the link, by the places of its ends.
pub fn touched(world: &Cluster, step: &Step) -> (Slot, Option<(usize, usize)>)
    ensures outbox { result.0 ≡ Outbox (place world.now (node_of step.now)) }
    ensures link { result.1 ≡ link_of world.now step.now }
{
    let outbox = Slot::Outbox(world.place(node_of(step)));
    (outbox, link_of(world, step))
}

fn link_of(world: &Cluster, step: &Step) -> Option<(usize, usize)>
    ensures { result ≡ link_of world.now step.now }
{
    match step {
        Step::Input { node: _, input: _ } => None,
        Step::Handle { node, from } => Some((world.place(*from), world.place(*node))),
        Step::Post { node } => link_to(world, *node, world.outbox_first(world.place(*node))),
        Step::Stop { node: _ } => None,
    }
}

/// The link to which a letter of a node's outbox goes.
fn link_to(world: &Cluster, node: NodeNo, letter: Option<&Message>) -> Option<(usize, usize)>
    ensures { result ≡ link_to world.now node (option_copied letter.entry) }
{
    match letter {
        Some(message) => Some((world.place(node), world.place(message.to))),
        None => None,
    }
}

/// The entry of a slot that holds a letter.
pub fn entry_at(world: &Cluster, slot: Slot) -> Option<Entry>
    ensures { result ≡ entry_at world.now slot }
{
    match slot {
        Slot::Outbox(at) => match world.outbox_first(at) {
            Some(message) => Some(Entry {
                number: message.number,
                slot,
            }),
            None => None,
        },
        Slot::Link { from, to } => match world.link_first(from, to) {
            Some(framed) => Some(Entry {
                number: framed.number(),
                slot,
            }),
            None => None,
        },
    }
}

pub fn entry_on(world: &Cluster, link: Option<(usize, usize)>) -> Option<Entry>
    ensures { result ≡ entry_on world.now link }
{
    match link {
        Some((from, to)) => entry_at(world, Slot::Link { from, to }),
        None => None,
    }
}
