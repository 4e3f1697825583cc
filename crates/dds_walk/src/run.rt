//! A run that is made step by step, with its possible events at hand.

ghost use Rattle.std.specs.Prelude.{◌≡◌, length, IfOk, OnOk};
ghost use Rattle.dds_cluster.specs.Trace.{next, replies_in, start};
ghost use Rattle.dds_walk.specs.Picking.{events, ranked};

use crate::picking::event_of;
use crate::touched::{entry_at, entry_on, touched};
use dds_agenda::agenda::Agenda;
use dds_base::memory::Memory;
use dds_cluster::opening_world::start;
use dds_cluster::run::next;
use dds_cluster::step::Step;
use dds_cluster::trace::Trace;
use dds_script::opening::Opening;
use dds_states::turn::ReplyList;
use std::alloc::Global;
use std::marker::Model;

/// A run so far, with the agenda of its cluster. After a step that found no memory the agenda may be another's, and no
/// more steps are made. Contracts see the run.
#[derive(Drop)]
pub struct Run {
    trace: Trace,
    agenda: Agenda,
    failed: bool,
}

impl Model for Run {
    ghost use Rattle.dds_agenda.specs.Agenda.{AreSame};
    ghost use Rattle.dds_walk.specs.Agenda.{Unless, entries};
    ghost use Rattle.dds_cluster.specs.declared.trace.Trace.{Trace};
    ghost use Rattle.dds_cluster.specs.contracts.trace.Trace as traced;

    ghost Value = { Trace };

    ghost coded = { traced.the_row.coded };

    ghost view = { λ a. a.trace };

    ghost invariant = { λ a. Unless a.failed (AreSame (entries a.trace.world) a.agenda) };
}

impl Run {
    /// The run of an opening before its first step, when no outbox and no link holds a letter.
    pub fn start(alloc: Global, opening: &Opening) -> Result<Run, Memory>
        ensures { IfOk result (λ run. run ≡ start opening.now) }
    {
        Ok(Run {
            trace: start(alloc, opening)?,
            agenda: Agenda::new(alloc),
            failed: false,
        })
    }

    pub fn as_trace(&self) -> &Trace
        ensures { result.now ≡ self.now }
    {
        &self.trace
    }

    pub fn into_trace(self) -> Trace
        ensures { result ≡ self }
    {
        self.trace
    }

    /// Makes a step, and gives its answers. A step that isn't possible does nothing. Looks at the outbox of the step's
    /// node and at one link, before and after the step.
    pub fn next(&mut self, alloc: Global, step: &Step) -> Result<ReplyList, Memory>
        ensures trace { OnOk result (self.new ≡ next self.old step.now) }
        ensures replies { IfOk result (λ replies. replies ≡ replies_in self.old step.now) }
    {
        if self.failed {
            return Err(Memory);
        }
        self.failed = true;
        let (outbox, link) = touched(&self.trace.world, step);
        let posted = entry_at(&self.trace.world, outbox);
        let linked = entry_on(&self.trace.world, link);
        let replies = next(alloc, &mut self.trace, step)?;
        self.agenda
            .exchange(posted, entry_at(&self.trace.world, outbox))?;
        self.agenda
            .exchange(linked, entry_on(&self.trace.world, link))?;
        self.failed = false;
        Ok(replies)
    }

    /// How many events are possible.
    pub fn events(&self) -> Result<usize, Memory>
        ensures { IfOk result (λ count. count ≡ length (events self.now.world)) }
    {
        if self.failed {
            return Err(Memory);
        }
        Ok(self.agenda.len())
    }

    /// The possible event of a rank.
    pub fn ranked(&self, rank: usize) -> Result<Option<Step>, Memory>
        ensures { IfOk result (λ step. step ≡ ranked (events self.now.world) rank) }
    {
        if self.failed {
            return Err(Memory);
        }
        match self.agenda.ranked(rank) {
            Some(entry) => Ok(Some(event_of(self.trace.world.bricks(), entry)?.step)),
            None => Ok(None),
        }
    }
}
