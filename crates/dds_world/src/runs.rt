//! What a journal is: a run or not, its history, and its calls.

ghost use Rattle.std.specs.Prelude.{◌≡◌, map, filter, option_copied, IfOk};
ghost use Rattle.dds_cluster.specs.Trace.{is_run, run_of};
ghost use Rattle.dds_world.specs.Stands.{answer_to, calls, history, placed_call, stands_in};

use dds_base::memory::Memory;
use dds_base::number::{CallNo, CallerNo};
use dds_base::op::Reply;
use dds_cluster::made_list::MadeList;
use dds_cluster::opening_world::start;
use dds_cluster::possible::is_possible;
use dds_cluster::run::next;
use dds_cluster::step::{Journal, Step};
use dds_cluster::told_list::ToldList;
use dds_cluster::trace::{Asked, Made, Told, Trace};
use dds_history::entry::Entry;
use dds_script::opening::Opening;
use std::alloc::Global;

/// A call of a journal: the place of its input, and where it was answered the place of the answer and the answer. A
/// call that isn't answered is open; one that was made at a stopped library stays so.
#[derive(Debug, Drop)]
pub struct CallPlace {
    pub caller: CallerNo,
    pub call: CallNo,
    pub asked: u64,
    pub answered: Option<u64>,
    pub reply: Option<Reply>,
}

/// Whether each step of the journal is possible where it stands.
pub fn is_run(alloc: Global, opening: &Opening, journal: &Journal) -> Result<bool, Memory>
    ensures { IfOk result (λ is. is ≡ is_run opening.now journal.now) }
{
    let mut trace = start(alloc, opening)?;
    for step in journal.as_slice() {
        if !is_possible(&trace, step) {
            return Ok(false);
        }
        next(alloc, &mut trace, step)?;
    }
    Ok(true)
}

/// What the steps leave, from the opening on; a step that isn't possible does nothing.
pub fn run_of(alloc: Global, opening: &Opening, steps: &[Step]) -> Result<Trace, Memory>
    ensures { IfOk result (λ trace. trace ≡ run_of opening.now steps.now) }
{
    let mut trace = start(alloc, opening)?;
    for step in steps {
        next(alloc, &mut trace, step)?;
    }
    Ok(trace)
}

/// The history of the journal, a run or not: the first applied point of each attempt, and each read that answered its
/// call, in their order.
pub fn history(alloc: Global, opening: &Opening, journal: &Journal) -> Result<Vec<Entry>, Memory>
    ensures { IfOk result (λ entries. entries.items ≡ history (run_of opening.now journal.now)) }
{
    let trace = run_of(alloc, opening, journal.as_slice())?;
    let Trace { made, told, .. } = trace;
    history_of(alloc, made, &told)
}

fn history_of(alloc: Global, made: MadeList, told: &ToldList) -> Result<Vec<Entry>, Memory>
    ensures { IfOk result (λ entries. entries.items ≡ map (λ m. m.entry) (filter (stands_in told.now) made)) }
{
    let mut entries = Vec::new(alloc);
    for m in made.into_vec() {
        if stands_in(told, &m) {
            entries.push(m.entry)?;
        }
    }
    Ok(entries)
}

/// Whether a point stands in the history.
pub fn stands_in(told: &ToldList, made: &Made) -> bool
    ensures { result ≡ stands_in told.now made.now }
{
    !made.entry.op.is_get() || told.is_answer(made.txn)
}

/// The calls of the journal, a run or not, in the order of their inputs.
pub fn calls(alloc: Global, opening: &Opening, journal: &Journal) -> Result<Vec<CallPlace>, Memory>
    ensures { IfOk result (λ list. list.items ≡ calls (run_of opening.now journal.now)) }
{
    let trace = run_of(alloc, opening, journal.as_slice())?;
    calls_of(alloc, trace.asked.as_slice(), trace.told.as_slice())
}

fn calls_of(alloc: Global, asked: &[Asked], told: &[Told]) -> Result<Vec<CallPlace>, Memory>
    ensures { IfOk result
        (λ list. list.items ≡ map (λ a. placed_call a (answer_to told.now a.caller a.call)) asked.now) }
{
    let mut list = Vec::new(alloc);
    for a in asked {
        list.push(placed_call(a, answer_to(told, a.caller, a.call))?)?;
    }
    Ok(list)
}

fn answer_to(told: &[Told], caller: CallerNo, call: CallNo) -> Option<&Told>
    ensures { option_copied result ≡ answer_to told.now caller call }
{
    for answer in told {
        if answer.caller == caller && answer.call.0 == call.0 {
            return Some(answer);
        }
    }
    None
}

fn placed_call(asked: &Asked, told: Option<&Told>) -> Result<CallPlace, Memory>
    ensures { IfOk result (λ place. place ≡ placed_call asked.now (option_copied told.entry)) }
{
    let (answered, reply) = match told {
        None => (None, None),
        Some(told) => (Some(told.place), Some(told.reply.copy()?)),
    };
    Ok(CallPlace {
        caller: asked.caller,
        call: asked.call,
        asked: asked.place,
        answered,
        reply,
    })
}
