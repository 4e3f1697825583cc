//! Picked events: the lines `events` and `quiet`.

ghost use Rattle.std.specs.Prelude.{◌≡◌, is_some, IfOk, OnOk};
ghost use Rattle.dds_walk.specs.Walk.{after_event, event, events_said, has_event, moves, quiet_said};

use crate::picking::{Picking, pick};
use crate::playing::{make, say};
use crate::walk::Walk;
use dds_base::memory::Memory;
use dds_transcript::report_line::ReportLine;
use std::alloc::Global;

/// Makes a picked event, and whether it was made.
fn event(alloc: Global, walk: &mut Walk) -> Result<bool, Memory>
    ensures walk { OnOk result (walk.new ≡ after_event walk.old) }
    ensures made { IfOk result (λ made. made ≡ is_some (event walk.old)) }
{
    let Some(step) = pick(&mut walk.picking, &walk.trace)? else {
        return Ok(false);
    };
    make(alloc, walk, step)
}

/// Makes picked events until none is possible, at most so many, and how many it made.
fn moves(alloc: Global, walk: &mut Walk, limit: u64) -> Result<u64, Memory>
    ensures walk { OnOk result (walk.new ≡ (moves limit 0 walk.old).walk) }
    ensures events { IfOk result (λ events. events ≡ (moves limit 0 walk.old).events) }
{
    let mut made: u64 = 0;
    while made < limit {
        if !event(alloc, walk)? {
            return Ok(made);
        }
        made += 1;
    }
    Ok(made)
}

/// The line `events`: up to so many picked events.
pub fn events_line(alloc: Global, walk: &mut Walk, limit: u64) -> Result<(), Memory>
    ensures { OnOk result (walk.new ≡ events_said (moves limit 0 walk.old)) }
{
    let events = moves(alloc, walk, limit)?;
    say(walk, ReportLine::Events { events })
}

/// The line `quiet`: picked events until none is possible, at most so many.
pub fn quiet_line(alloc: Global, walk: &mut Walk, limit: u64) -> Result<(), Memory>
    ensures { OnOk result (walk.new ≡ quiet_said limit (moves limit 0 walk.old)) }
{
    let events = moves(alloc, walk, limit)?;
    if events == limit && has_event(walk)? {
        return say(walk, ReportLine::Loud);
    }
    say(walk, ReportLine::Quiet { events })
}

fn has_event(walk: &Walk) -> Result<bool, Memory>
    ensures { IfOk result (λ has. has ≡ has_event walk.now) }
{
    let mut fifo = Picking::Fifo;
    Ok(pick(&mut fifo, &walk.trace)?.is_some())
}
