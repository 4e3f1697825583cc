//! Two stages, of which the second takes what the first sends.

ghost use Rattle.std.specs.Prelude.{◌≡◌, ◌++◌, [], true, false, IfOk, OnOk, OnErr, IsErr};
ghost use Rattle.dds_stage.specs.Queue.{queue};
ghost use Rattle.dds_stage.specs.Sends.{AddedOne, SentAll, Composed, PumpState};

use crate::queue::StageQueue;
use crate::stage::Stage;
use dds_base::memory::Memory;
use std::alloc::Global;
use std::marker::Model;

/// Puts all items of the queue behind those of `out`.
fn move_out<T: Drop>(from: &mut StageQueue<T>, out: &mut Vec<T>) -> Result<(), Memory>
    ensures moved { OnOk result (out.new.items ≡ out.old.items ++ from.old.items) }
    ensures emptied { OnOk result (from.new ≡ queue [] from.old.capacity) }
{
    'moving: while let Some(item) = from.pop() {
        out.push(item)?;
    }
    Ok(())
}

/// Gives the stage one event, and puts what it sends behind the items of `out`.
fn send_one<S: Stage>(
    stage: &mut S,
    event: S::Event,
    by: &mut StageQueue<S::Sent>,
    out: &mut Vec<S::Sent>,
) -> Result<(), Memory>
    requires { by.old ≡ queue [] S.MOST }
    ensures sent { OnOk result (AddedOne S.sends stage.old event stage.new out.old.items out.new.items) }
    ensures emptied { OnOk result (by.new ≡ queue [] S.MOST) }
{
    stage.upcall(event, by)?;
    move_out(by, out)
}

/// Gives the stage all events of the queue, and puts what it sends behind the items of `out`.
fn send_all<S: Stage>(
    stage: &mut S,
    events: &mut StageQueue<S::Event>,
    by: &mut StageQueue<S::Sent>,
    out: &mut Vec<S::Sent>,
) -> Result<(), Memory>
    requires { by.old ≡ queue [] S.MOST }
    ensures sent { OnOk result (SentAll S.sends stage.old events.old.items stage.new out.old.items out.new.items) }
    ensures taken { OnOk result (events.new ≡ queue [] events.old.capacity) }
    ensures emptied { OnOk result (by.new ≡ queue [] S.MOST) }
{
    'sending: while let Some(event) = events.pop() {
        send_one(stage, event, by, out)?;
    }
    Ok(())
}

/// Two stages with a queue between them. Once it answered `Memory` it does nothing more.
#[derive(Drop)]
pub struct Pump<A: Stage, B: Stage<Event = A::Sent>> {
    first: A,
    second: B,
    between: StageQueue<A::Sent>,
    behind: StageQueue<B::Sent>,
    failed: bool,
}

impl<A: Stage, B: Stage<Event = A::Sent>> Model for Pump<A, B> {
    ghost use Rattle.dds_stage.specs.Queue.{queue};
    ghost use Rattle.dds_stage.specs.Sends.{PumpState, pump_code, AreReady};

    ghost Value = { PumpState A B };

    ghost coded = { pump_code A.code B.code };

    ghost view = { λ a. record { first = a.first; second = a.second; failed = a.failed } };

    ghost invariant = { λ a. AreReady a.failed A.MOST B.MOST a.between a.behind };
}

impl<A: Stage, B: Stage<Event = A::Sent>> Pump<A, B> {
    /// Takes the memory for what one event sends, of each stage.
    pub fn new(alloc: Global, first: A, second: B) -> Result<Pump<A, B>, Memory>
        ensures { IfOk result (λ pump. pump ≡ record { first = first; second = second; failed = false }) }
    {
        let between = StageQueue::new(alloc, A::MOST)?;
        let behind = StageQueue::new(alloc, B::MOST)?;
        Ok(Pump {
            first,
            second,
            between,
            behind,
            failed: false,
        })
    }

    /// Gives the first stage the event, and the second stage all that the first sends of it. What
    /// the second sends then stands behind the items of `out`. After `Memory` nothing is said of
    /// the two stages, and `out` may have some of it.
    pub fn drain(&mut self, event: A::Event, out: &mut Vec<B::Sent>) -> Result<(), Memory>
        ensures sent { OnOk result (Composed A.sends B.sends self.old.first self.old.second event self.new.first self.new.second out.old.items out.new.items) }
        ensures ready { OnOk result (self.new.failed ≡ false) }
        ensures failed { OnErr result (self.new.failed ≡ true) }
        ensures refuses { self.old.failed ≡ true → IsErr result }
        ensures nothing { self.old.failed ≡ true → self.new ≡ self.old }
        ensures nothing_out { self.old.failed ≡ true → out.new.items ≡ out.old.items }
    {
        if self.failed {
            return Err(Memory);
        }
        self.failed = true;
        self.first.upcall(event, &mut self.between)?;
        send_all(&mut self.second, &mut self.between, &mut self.behind, out)?;
        self.failed = false;
        Ok(())
    }
}
