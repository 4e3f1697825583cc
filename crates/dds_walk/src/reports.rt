//! The journal that a script determines, and a script's transcript over a journal.

ghost use Rattle.std.specs.Prelude.{◌≡◌, ◌++◌, None, length, replicate, filter, true, IfOk, IfSome, OnOk};
ghost use Rattle.dds_script.specs.Opening.{IsOpening};
ghost use Rattle.dds_world.specs.Stands.{stands_in};
ghost use Rattle.dds_cluster.specs.Trace.{is_run};
ghost use Rattle.dds_walk.specs.Walk.{ended, first_walk, open_call_of, open_calls, open_order_of, open_orders, plays_rest, steps, transcript};

use crate::lines::{lines_done, take_rest};
use crate::picking::Picking;
use crate::playing::play;
use crate::run::Run;
use crate::walk::Walk;
use dds_base::items::Items;
use dds_base::memory::Memory;
use dds_base::number::{CallNo, CallerNo, NodeNo};
use dds_cluster::queue::Queue;
use dds_cluster::step::{BoxedInput, EVENTS, Input, Journal, Step};
use dds_cluster::told_list::ToldList;
use dds_cluster::trace::{Caller, Made};
use dds_script::opening::Script;
use dds_transcript::report_line::{OrderKind, ReportLine};
use dds_world::runs::stands_in;
use std::alloc::Global;

/// The steps of a walk, and the lines that it printed.
#[derive(Drop)]
pub struct Walked {
    pub journal: Journal,
    pub lines: Vec<ReportLine>,
}

/// The journal that a script determines, with its pickers and no disk that fails, and the lines of the script's transcript
/// over it. The run is made once.
pub fn walk_script(alloc: Global, script: &Script) -> Result<Walked, Memory>
    ensures journal { IfOk result (λ walked. walked.journal ≡ steps script.now) }
    ensures run { IfOk result (λ walked. is_run script.now.opening walked.journal ≡ true) }
    ensures lines { IfOk result (λ walked. walked.lines.items ≡ transcript script.now walked.journal) }
{
    let mut walk = first_walk(alloc, script, None)?;
    lines_done(alloc, &mut walk, EVENTS, script.lines())?;
    ended(walk)
}

/// The lines of a script's transcript over a journal, which need not be a run. Where the journal follows the script, it
/// may have more stops, each directly before a step of its own brick.
pub fn report(alloc: Global, script: &Script, journal: &Journal) -> Result<Vec<ReportLine>, Memory>
    ensures { IfOk result (λ lines. lines.items ≡ transcript script.now journal.now) }
{
    let rest = queue_of(alloc, journal.as_slice())?;
    let mut walk = first_walk(alloc, script, Some(rest))?;
    lines_done(alloc, &mut walk, EVENTS, script.lines())?;
    play_rest(alloc, &mut walk)?;
    Ok(ended(walk)?.lines)
}

/// The steps of a walk at its end, and all its lines.
fn ended(walk: Walk) -> Result<Walked, Memory>
    ensures journal { IfOk result (λ walked. walked.journal ≡ walk.steps) }
    ensures lines { IfOk result (λ walked. walked.lines.items ≡ ended walk) }
{
    let Walk {
        trace,
        orders,
        steps,
        mut lines,
        ..
    } = walk;
    let trace = trace.into_trace();
    push_open_calls(&mut lines, trace.callers.as_slice())?;
    push_open_orders(&mut lines, orders.as_slice())?;
    let entries = count_entries(trace.made.as_slice(), &trace.told)?;
    lines.push(ReportLine::History { entries })?;
    lines.push(ReportLine::End)?;
    Ok(Walked {
        journal: steps,
        lines: lines.into_vec(),
    })
}

fn first_walk(alloc: Global, script: &Script, rest: Option<Queue<Step>>) -> Result<Walk, Memory>
    ensures walk { IfOk result (λ walk. walk ≡ first_walk script.now rest) }
    ensures kept { IfOk result (λ walk. IsOpening script.now.opening) }
{
    let opening = script.opening();
    Ok(Walk {
        trace: Run::start(alloc, opening)?,
        orders: no_orders(alloc, opening.bricks())?,
        counts: no_counts(alloc, opening.callers())?,
        picking: Picking::Fifo,
        rest,
        steps: Journal::new(alloc),
        lines: Items::new(alloc),
    })
}

fn no_orders(alloc: Global, bricks: u8) -> Result<Items<Option<OrderKind>>, Memory>
    ensures { IfOk result (λ orders. orders ≡ replicate bricks None) }
{
    let mut orders = Items::new(alloc);
    for _brick in 0..bricks {
        orders.push(None)?;
    }
    Ok(orders)
}

fn no_counts(alloc: Global, callers: u8) -> Result<Items<u32>, Memory>
    ensures { IfOk result (λ counts. counts ≡ replicate callers 0) }
{
    let mut counts = Items::new(alloc);
    for _caller in 0..callers {
        counts.push(0)?;
    }
    Ok(counts)
}

/// A copy of steps, to be taken one by one.
fn queue_of(alloc: Global, steps: &[Step]) -> Result<Queue<Step>, Memory>
    ensures { IfOk result (λ queue. queue ≡ steps.now) }
{
    let mut queue = Queue::new(alloc);
    for step in steps {
        queue.push(copy_step(alloc, step)?)?;
    }
    Ok(queue)
}

fn copy_step(alloc: Global, step: &Step) -> Result<Step, Memory>
    ensures { IfOk result (λ copy. copy ≡ step.now) }
{
    Ok(match step {
        Step::Input { node, input } => Step::Input {
            node: *node,
            input: BoxedInput::new(alloc, copy_input(input.as_input())?)?,
        },
        Step::Handle { node, from } => Step::Handle {
            node: *node,
            from: *from,
        },
        Step::Post { node } => Step::Post { node: *node },
        Step::Stop { node } => Step::Stop { node: *node },
    })
}

fn copy_input(input: &Input) -> Result<Input, Memory>
    ensures { IfOk result (λ copy. copy ≡ input.now) }
{
    Ok(match input {
        Input::Call { caller, call, op } => Input::Call {
            caller: *caller,
            call: *call,
            op: op.copy()?,
        },
        Input::Order(order) => Input::Order(*order),
    })
}

/// Makes the steps that are left of the journal.
fn play_rest(alloc: Global, walk: &mut Walk) -> Result<(), Memory>
    ensures { OnOk result (walk.new ≡ plays_rest walk.old) }
{
    let mut rest = take_rest(alloc, walk);
    'playing: while let Some(step) = rest.pop() {
        play(alloc, walk, step)?;
    }
    Ok(())
}

fn push_open_calls(lines: &mut Items<ReportLine>, callers: &[Caller]) -> Result<(), Memory>
    ensures { OnOk result (lines.new ≡ lines.old ++ open_calls 0 callers.now) }
{
    for place in 0..callers.len() {
        push_open_call(lines, place, callers[place].call)?;
    }
    Ok(())
}

fn push_open_call(
    lines: &mut Items<ReportLine>,
    place: usize,
    call: Option<CallNo>,
) -> Result<(), Memory>
    ensures { OnOk result (lines.new ≡ lines.old ++ open_call_of place call) }
{
    let Some(call) = call else {
        return Ok(());
    };
    match caller_of(place) {
        Some(caller) => lines.push(ReportLine::OpenCall { caller, call }),
        None => Err(Memory),
    }
}

fn caller_of(place: usize) -> Option<CallerNo>
    ensures { IfSome result (λ caller. caller ≡ place) }
{
    match u8::try_from(place) {
        Ok(number) => CallerNo::of(number),
        Err(_) => None,
    }
}

fn push_open_orders(
    lines: &mut Items<ReportLine>,
    orders: &[Option<OrderKind>],
) -> Result<(), Memory>
    ensures { OnOk result (lines.new ≡ lines.old ++ open_orders 0 orders.now) }
{
    for place in 0..orders.len() {
        push_open_order(lines, place, orders[place])?;
    }
    Ok(())
}

fn push_open_order(
    lines: &mut Items<ReportLine>,
    place: usize,
    kind: Option<OrderKind>,
) -> Result<(), Memory>
    ensures { OnOk result (lines.new ≡ lines.old ++ open_order_of place kind) }
{
    let Some(kind) = kind else {
        return Ok(());
    };
    match brick_of(place) {
        Some(brick) => lines.push(ReportLine::OpenOrder { kind, brick }),
        None => Err(Memory),
    }
}

fn brick_of(place: usize) -> Option<NodeNo>
    ensures { IfSome result (λ brick. brick ≡ place) }
{
    match u8::try_from(place) {
        Ok(number) => NodeNo::brick(number),
        Err(_) => None,
    }
}

/// How many points stand in the history.
fn count_entries(made: &[Made], told: &ToldList) -> Result<u64, Memory>
    ensures { IfOk result (λ entries. entries ≡ length (filter (stands_in told.now) made.now)) }
{
    let mut entries: u64 = 0;
    for m in made {
        if stands_in(told, m) {
            entries = entries.checked_add(1).ok_or(Memory)?;
        }
    }
    Ok(entries)
}
