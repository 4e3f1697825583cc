//! The cluster as code: its nodes, outboxes and links.

ghost use Rattle.std.specs.Prelude.{◌≡◌, ◌+◌, ◌-◌, ◌<◌, [], None, length, slice_get, slice_index_or, option_copied, IfSome, IfNone};
ghost use Rattle.dds_cluster.specs.World.{World, place, link, outbox, brick_at, library_at};

use crate::framed::Framed;
use crate::links::Links;
use crate::queue::Queue;
use crate::step::Message;
use dds_base::number::NodeNo;
use dds_states::brick_state::BrickState;
use dds_states::library_state::LibraryState;
use std::alloc::Global;
use std::marker::Model;

/// All nodes with their outboxes and links.
#[derive(Drop)]
pub struct Cluster {
    pub(crate) alloc: Global,
    pub(crate) bricks: Vec<BrickState>,
    pub(crate) libraries: Vec<LibraryState>,
    pub(crate) outboxes: Vec<Queue<Message>>,
    pub(crate) links: Vec<Links>,
    pub(crate) made: u64,
}

impl Model for Cluster {
    ghost use Rattle.std.specs.Prelude.{◌≡◌, ◌+◌, length};
    ghost use Rattle.dds_cluster.specs.World.{World, world_code};

    ghost Value = { World };

    ghost coded = { world_code };

    ghost view = { λ a. record { bricks = a.bricks.items; libraries = a.libraries.items; outboxes = a.outboxes.items; links = a.links.items; made = a.made } };

    ghost invariant = { λ a. (length a.outboxes.items ≡ length a.bricks.items + length a.libraries.items)
        × (length a.links.items ≡ length a.bricks.items + length a.libraries.items) };
}

impl Cluster {
    /// A cluster of these nodes, outboxes and links, in which no letter was made.
    pub fn of(
        alloc: Global,
        bricks: Vec<BrickState>,
        libraries: Vec<LibraryState>,
        outboxes: Vec<Queue<Message>>,
        links: Vec<Links>,
    ) -> Cluster
        requires outboxes { length outboxes.items ≡ length bricks.items + length libraries.items }
        requires links { length links.items ≡ length bricks.items + length libraries.items }
        ensures { result ≡ record { bricks = bricks.items; libraries = libraries.items; outboxes = outboxes.items; links = links.items; made = 0 } }
    {
        Cluster {
            alloc,
            bricks,
            libraries,
            outboxes,
            links,
            made: 0,
        }
    }

    /// Where a node's outbox and links stand.
    pub fn place(&self, node: NodeNo) -> usize
        ensures { result ≡ place self.now node }
    {
        if node.is_brick() {
            usize::from(node.number())
        } else {
            self.bricks.len() + library_number(node)
        }
    }

    /// The place of a brick of the cluster.
    pub(crate) fn brick_place(&self, node: NodeNo) -> Option<usize>
        ensures some { IfSome result
            (λ at. (at ≡ node) × (at < length self.now.bricks) × (brick_at self.now node ≡ slice_get self.now.bricks at)) }
        ensures none { IfNone result (brick_at self.now node ≡ None) }
    {
        let at = usize::from(node.number());
        if node.is_brick() && at < self.bricks.len() {
            Some(at)
        } else {
            None
        }
    }

    /// The place of a library of the cluster.
    pub(crate) fn library_place(&self, node: NodeNo) -> Option<usize>
        ensures some { IfSome result
            (λ at. (at ≡ node - 64) × (at < length self.now.libraries) × (library_at self.now node ≡ slice_get self.now.libraries at)) }
        ensures none { IfNone result (library_at self.now node ≡ None) }
    {
        let at = library_number(node);
        if !node.is_brick() && at < self.libraries.len() {
            Some(at)
        } else {
            None
        }
    }

    pub fn brick(&self, node: NodeNo) -> Option<&BrickState>
        ensures { option_copied result ≡ brick_at self.now node }
    {
        if node.is_brick() {
            self.bricks.get(usize::from(node.number()))
        } else {
            None
        }
    }

    pub fn library(&self, node: NodeNo) -> Option<&LibraryState>
        ensures { option_copied result ≡ library_at self.now node }
    {
        if node.is_brick() {
            None
        } else {
            self.libraries.get(library_number(node))
        }
    }

    /// How many bricks the cluster has.
    pub fn bricks(&self) -> usize
        ensures { result ≡ length self.now.bricks }
    {
        self.bricks.len()
    }

    /// The first letter that the outbox at a place holds.
    pub fn outbox_first(&self, at: usize) -> Option<&Message>
        ensures { option_copied result ≡ slice_get (slice_index_or self.now.outboxes at []) 0 }
    {
        if at < self.outboxes.len() {
            self.outboxes[at].at(0)
        } else {
            None
        }
    }

    /// The first letter on the link from one place to another.
    pub fn link_first(&self, from: usize, to: usize) -> Option<&Framed>
        ensures { option_copied result ≡ slice_get (slice_index_or (slice_index_or self.now.links from []) to []) 0 }
    {
        if from < self.links.len() {
            self.links[from].first(to)
        } else {
            None
        }
    }
}

fn library_number(node: NodeNo) -> usize
    ensures { result ≡ node - 64 }
{
    usize::from(node.number()).saturating_sub(64)
}
