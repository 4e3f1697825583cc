//! The events that are possible, and which of them a picker picks.

ghost use Rattle.std.specs.Prelude.{◌≡◌, ◌<◌, ◌%◌, IfOk, OnOk};
ghost use Rattle.rand_pcg.specs.Pcg.{pcg32};
ghost use Rattle.dds_walk.specs.Agenda.{event_of, step_in};
ghost use Rattle.dds_walk.specs.Picking.{after_pick, begun, node_at, picked, picks, rank};

use crate::run::Run;
use dds_agenda::entry::{Entry, Slot};
use dds_base::memory::Memory;
use dds_base::number::NodeNo;
use dds_cluster::step::Step;
use dds_script::line::Picker;
use rand_core::utils::NextWord;
use rand_pcg::Pcg32;

/// A possible event with the number of its letter.
#[derive(Debug, Drop)]
pub struct Event {
    pub number: u64,
    pub step: Step,
}

/// A picker on its way: `Words` has the generator of the seed, of which it takes one word for each event.
#[derive(Drop)]
pub enum Picking {
    Fifo,
    Newest,
    Words(Pcg32),
}

impl Picking {
    /// A picker at its start. A seed's generator is PCG's XSH RR 64/32 on stream 2.
    pub fn begin(picker: Picker) -> Picking
        ensures { result ≡ begun picker }
    {
        match picker {
            Picker::Fifo => Picking::Fifo,
            Picker::Newest => Picking::Newest,
            Picker::Seed(seed) => Picking::Words(Pcg32::new(seed, 2)),
        }
    }

    /// The rank, among so many events, of the one that is picked.
    fn rank(&mut self, count: usize) -> usize
        requires { 0 < count }
        ensures value { result ≡ rank self.old count }
        ensures after { self.new ≡ after_pick self.old }
    {
        match self {
            Picking::Fifo => 0,
            Picking::Newest => count - 1,
            Picking::Words(generator) => word_below(generator, count),
        }
    }
}

fn word_below(generator: &mut Pcg32, count: usize) -> usize
    requires { 0 < count }
    ensures value { result ≡ (pcg32 generator.old).0 % count }
    ensures after { generator.new ≡ (pcg32 generator.old).1 }
{
    generator.next_word() as usize % count
}

/// The picked event, where one is possible.
pub fn pick(picking: &mut Picking, run: &Run) -> Result<Option<Step>, Memory>
    ensures step { IfOk result (λ step. step ≡ picked picking.old run.now.world) }
    ensures after { OnOk result (picking.new ≡ picks picking.old run.now.world) }
{
    let events = run.events()?;
    if events == 0 {
        return Ok(None);
    }
    let rank = picking.rank(events);
    run.ranked(rank)
}

/// The event that an entry stands for; no memory is told of where a node's number would be too great.
pub fn event_of(bricks: usize, entry: Entry) -> Result<Event, Memory>
    ensures { IfOk result (λ event. event ≡ event_of bricks entry) }
{
    Ok(Event {
        number: entry.number,
        step: step_in(bricks, entry.slot)?,
    })
}

fn step_in(bricks: usize, slot: Slot) -> Result<Step, Memory>
    ensures { IfOk result (λ step. step ≡ step_in bricks slot) }
{
    match slot {
        Slot::Outbox(at) => Ok(Step::Post {
            node: node_at(bricks, at)?,
        }),
        Slot::Link { from, to } => Ok(Step::Handle {
            node: node_at(bricks, to)?,
            from: node_at(bricks, from)?,
        }),
    }
}

/// The node at a place.
fn node_at(bricks: usize, at: usize) -> Result<NodeNo, Memory>
    ensures { IfOk result (λ node. node ≡ node_at bricks at) }
{
    let number = if at < bricks {
        at
    } else {
        (at - bricks).checked_add(64).ok_or(Memory)?
    };
    match u8::try_from(number) {
        Ok(number) => NodeNo::of(number).ok_or(Memory),
        Err(_) => Err(Memory),
    }
}
