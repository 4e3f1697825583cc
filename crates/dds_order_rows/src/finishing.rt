//! How an order of this brick ends: the leaf that it makes is installed and served, or it is answered otherwise.

ghost use Rattle.std.specs.Prelude.{◌≡◌, [], ◌∷◌, ◌++◌, IfOk, OnOk, Some, None, filter};
ghost use Rattle.dds_letters.specs.declared.letter.Letter.TheVariants as letter;
ghost use Rattle.dds_states.specs.Turn.{both, letters_out, reply_out, to_each, unknown};
ghost use Rattle.dds_brick_rows.specs.Refusal.{is_join};
ghost use Rattle.dds_states.specs.declared.turn.Replied.TheVariants.{Order};
ghost use Rattle.dds_order_rows.specs.OwnOrder.{answers, closed, ends, bound, serving, finishes, takes_part, parting, made_leaf};
ghost use Rattle.dds_order_rows.specs.OwnOrder.{installs_from, installs, sources, copies_from, copies, going_on, leases_on, leased_all};
ghost use Rattle.dds_order_rows.specs.OwnOrder.{leased_all_at, installs_on};

use dds_base::leaf::Leaf;
use dds_base::memory::Memory;
use dds_base::number::{NodeNo, Stamp};
use dds_base::op::OrderReply;
use dds_base::pair::{Pair, PairList};
use dds_brick_rows::take::split;
use dds_groups::halves::low_half;
use dds_groups::made::sibling;
use dds_history::table::Table;
use dds_letters::letter::Letter;
use dds_states::brick_state::{BrickState, OpenOrder, OrderPhase, Task};
use dds_states::nodes::{NodeList, group, has, to_each, unknown, unknown_members, without};
use dds_states::turn::{CoreTurn, Replied};
use std::alloc::Global;

/// An answer to an order.
pub fn answer(alloc: Global, reply: OrderReply) -> Result<CoreTurn, Memory>
    ensures { IfOk result (λ turn. turn ≡ reply_out (Order reply)) }
{
    CoreTurn::reply(alloc, Replied::Order(reply))
}

pub fn is_join(task: &Task) -> bool
    ensures { result ≡ is_join task.now }
{
    matches!(task, Task::Join { via: _ })
}

/// The open order is over. A split gives its own lease back.
fn closed(state: &mut BrickState, order: &OpenOrder)
    ensures { state.new ≡ closed state.old order.now }
{
    state.order = None;
    if !is_join(&order.task) {
        state.locks.release(order.name, state.number);
    }
}

/// Gives back the leases of these members, and answers the order.
fn give_back(
    alloc: Global,
    state: &BrickState,
    order: &OpenOrder,
    members: &[NodeNo],
    reply: OrderReply,
) -> Result<CoreTurn, Memory>
    ensures { IfOk result (λ turn. turn ≡ both (letters_out (to_each (unknown members.now state.now.known) (letter.Release order.now.number order.now.name)))
        (reply_out (Order reply))) }
{
    let live = unknown(alloc, members, &state.known)?;
    let release = Letter::Release {
        order: order.number,
        name: order.name,
    };
    let letters = to_each(alloc, live.as_slice(), release)?;
    CoreTurn::letters(alloc, letters).with(answer(alloc, reply)?)
}

/// Ends the order with a reply that isn't `Done`.
pub fn ends(
    alloc: Global,
    state: &mut BrickState,
    order: OpenOrder,
    reply: OrderReply,
) -> Result<CoreTurn, Memory>
    ensures state { OnOk result (state.new ≡ (ends state.old order reply).state) }
    ensures out { IfOk result (λ turn. turn ≡ (ends state.old order reply).out) }
{
    closed(state, &order);
    give_back(alloc, state, &order, order.asked.as_slice(), reply)
}

/// Binds pairs to a table.
fn bound(table: &mut Table, pairs: &[Pair]) -> Result<(), Memory>
    ensures { OnOk result (table.new ≡ bound table.old pairs.now) }
{
    for pair in pairs {
        table.insert(pair.key, pair.value.copy()?)?;
    }
    Ok(())
}

/// Serves the leaf that was made: a join's with the pairs that it copied, a split's with the other half's.
fn serving(state: &mut BrickState, order: &OpenOrder, made: &Leaf) -> Result<(), Memory>
    ensures { OnOk result (state.new ≡ serving state.old order.now made.now order.now.task) }
{
    match order.task {
        Task::Join { via: _ } => {
            state.leaves.adopt(*made)?;
            bound(&mut state.pairs, order.copied.as_slice())
        }
        Task::Split => {
            if made.name.depth() == 0 {
                return Err(Memory);
            }
            split(&mut state.leaves, order.name, *made, sibling(made))
        }
    }
}

/// The order is done.
pub fn finishes(
    alloc: Global,
    state: &mut BrickState,
    order: OpenOrder,
    made: &Leaf,
) -> Result<CoreTurn, Memory>
    ensures state { OnOk result (state.new ≡ (finishes state.old order made.now).state) }
    ensures out { IfOk result (λ turn. turn ≡ (finishes state.old order made.now).out) }
{
    serving(state, &order, made)?;
    closed(state, &order);
    give_back(
        alloc,
        state,
        &order,
        order.granted.as_slice(),
        OrderReply::Done,
    )
}
