//! What a notice does to one open call of a library: where the node was asked or waited for, the call goes on without
//! it.

ghost use Rattle.std.specs.Prelude.{◌≡◌, ◌==◌, ◌++◌, [], ◌∷◌, IfOk, OnOk, Some, None};
ghost use Rattle.std.specs.List.{list_all};
ghost use Rattle.dds_base.specs.NodeSet.{has_node};
ghost use Rattle.dds_call_rows.specs.Library.{prepared_without, lost_or_applied, committed_without, call_concerns, goes_without, notice_in};

use crate::attempt::{ask, begin, replies};
use crate::call::{aborted_on, in_phase, prepared_on, told_on, unchanged};
use dds_base::brick_list::BrickList;
use dds_base::leaf::Leaf;
use dds_base::memory::Memory;
use dds_base::node_set::NodeSet;
use dds_base::number::NodeNo;
use dds_base::op::{Met, Reply};
use dds_history::table::reply_with;
use dds_states::library_state::{Desk, OpenCall, Phase, Went};
use dds_states::nodes::{NodeList, has, members, without};
use std::alloc::Global;

fn are_known(known: &NodeSet, nodes: &[NodeNo]) -> bool
    ensures { result ≡ list_all (λ n. has_node known.now n) nodes.now }
{
    nodes.iter().all(|node| known.has(*node))
}

/// Whether all members of a group are known to have stopped.
fn all_known(alloc: Global, known: &NodeSet, group: &BrickList) -> Result<bool, Memory>
    ensures { IfOk result (λ all. all ≡ list_all (λ n. has_node known.now n) group.now) }
{
    let all = members(alloc, group)?;
    Ok(are_known(known, all.as_slice()))
}

/// A call that waited for the node's vote.
fn prepared_without(
    alloc: Global,
    desk: &mut Desk,
    call: OpenCall,
    node: NodeNo,
    leaf: Leaf,
    list: BrickList,
    waiting: NodeList,
) -> Result<Went, Memory>
    ensures desk { OnOk result (desk.new ≡ (prepared_without desk.old call node leaf list waiting).desk) }
    ensures went { IfOk result (λ went. went ≡ (prepared_without desk.old call node leaf list waiting).went) }
{
    if all_known(alloc, &desk.known, &list)? {
        return ask(alloc, desk, call.request, Met::Stopped { brick: node });
    }
    prepared_on(alloc, desk, call, leaf, list, waiting)
}

fn lost_or_applied(
    alloc: Global,
    desk: &Desk,
    call: OpenCall,
    leaf: Leaf,
    was: Option<bool>,
) -> Went
    ensures { result ≡ (lost_or_applied desk.now call leaf was).went }
{
    match was {
        None => replies(alloc, desk, Reply::Lost { name: leaf.name }),
        Some(was) => replies(alloc, desk, reply_with(&call.request.op, was)),
    }
}

/// A call that waited for the node to apply.
fn committed_without(
    alloc: Global,
    desk: &Desk,
    call: OpenCall,
    leaf: Leaf,
    list: BrickList,
    waiting: NodeList,
    was: Option<bool>,
) -> Result<Went, Memory>
    ensures { IfOk result (λ went. went ≡ (committed_without desk.now call leaf list waiting was).went) }
{
    if waiting.is_empty() {
        return Ok(lost_or_applied(alloc, desk, call, leaf, was));
    }
    let phase = Phase::Committing {
        leaf,
        list,
        waiting,
        was,
    };
    Ok(unchanged(alloc, desk, in_phase(call, phase)))
}

/// Whether the notice concerns a call: the node was asked or is waited for.
fn call_concerns(phase: &Phase, node: NodeNo) -> bool
    ensures { result ≡ call_concerns phase.now node }
{
    match phase {
        Phase::Getting { leaf: _, brick } => *brick == node,
        Phase::Preparing {
            leaf: _,
            list: _,
            waiting,
        } => has(waiting.as_slice(), node),
        Phase::Committing {
            leaf: _,
            list: _,
            waiting,
            was: _,
        } => has(waiting.as_slice(), node),
        Phase::Aborting {
            waiting,
            denial: _,
            brick: _,
        } => has(waiting.as_slice(), node),
        Phase::Asking {
            waiting,
            newest: _,
            met: _,
        } => has(waiting.as_slice(), node),
    }
}

/// The call goes on without the node.
fn goes_without(
    alloc: Global,
    desk: &mut Desk,
    call: OpenCall,
    node: NodeNo,
) -> Result<Went, Memory>
    ensures desk { OnOk result (desk.new ≡ (goes_without desk.old call node call.phase).desk) }
    ensures went { IfOk result (λ went. went ≡ (goes_without desk.old call node call.phase).went) }
{
    match &call.phase {
        Phase::Getting { leaf: _, brick: _ } => begin(alloc, desk, call.request),
        Phase::Preparing {
            leaf,
            list,
            waiting,
        } => {
            let (leaf, list) = (*leaf, *list);
            let waiting = without(alloc, waiting.as_slice(), node)?;
            prepared_without(alloc, desk, call, node, leaf, list, waiting)
        }
        Phase::Committing {
            leaf,
            list,
            waiting,
            was,
        } => {
            let (leaf, list, was) = (*leaf, *list, *was);
            let waiting = without(alloc, waiting.as_slice(), node)?;
            committed_without(alloc, desk, call, leaf, list, waiting, was)
        }
        Phase::Aborting {
            waiting,
            denial,
            brick,
        } => {
            let (denial, brick) = (*denial, *brick);
            let waiting = without(alloc, waiting.as_slice(), node)?;
            aborted_on(alloc, desk, call, waiting, denial, brick)
        }
        Phase::Asking {
            waiting,
            newest,
            met,
        } => {
            let (newest, met) = (*newest, *met);
            let waiting = without(alloc, waiting.as_slice(), node)?;
            told_on(alloc, desk, call, waiting, newest, met)
        }
    }
}

/// A notice at one call.
pub fn notice_in(
    alloc: Global,
    desk: &mut Desk,
    call: OpenCall,
    node: NodeNo,
) -> Result<Went, Memory>
    ensures desk { OnOk result (desk.new ≡ (notice_in desk.old call node).desk) }
    ensures went { IfOk result (λ went. went ≡ (notice_in desk.old call node).went) }
{
    if !call_concerns(&call.phase, node) {
        return Ok(unchanged(alloc, desk, call));
    }
    goes_without(alloc, desk, call, node)
}
