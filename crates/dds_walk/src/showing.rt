//! The line `show`: a brick with its leaves.

ghost use Rattle.std.specs.Prelude.{◌≡◌, ◌++◌, option_copied, OnOk};
ghost use Rattle.dds_trie.specs.Trie.{leaves_of};
ghost use Rattle.dds_cluster.specs.World.{brick_at};
ghost use Rattle.dds_walk.specs.Walk.{leaf_line, leaf_lines, show_line, show_lines};

use crate::walk::Walk;
use dds_base::items::Items;
use dds_base::leaf::Leaf;
use dds_base::memory::Memory;
use dds_base::number::NodeNo;
use dds_history::table::Table;
use dds_states::brick_state::BrickState;
use dds_transcript::report_line::ReportLine;
use std::alloc::Global;

/// Prints a brick: that it has stopped; or how many transactions are pending there, and its leaves by bits and then by
/// depth.
pub fn show_line(alloc: Global, walk: &mut Walk, brick: NodeNo) -> Result<(), Memory>
    ensures { OnOk result (walk.new ≡ show_line walk.old brick) }
{
    show(
        alloc,
        &mut walk.lines,
        brick,
        walk.trace.as_trace().world.brick(brick),
    )
}

fn show(
    alloc: Global,
    lines: &mut Items<ReportLine>,
    brick: NodeNo,
    state: Option<&BrickState>,
) -> Result<(), Memory>
    ensures { OnOk result (lines.new ≡ lines.old ++ show_lines brick (option_copied state.entry)) }
{
    let Some(state) = state else {
        return Ok(());
    };
    if state.stopped {
        return lines.push(ReportLine::BrickStopped { brick });
    }
    let pending = state.locks.pending().len();
    lines.push(ReportLine::BrickUp {
        brick,
        pending: pending as u64,
    })?;
    show_leaves(alloc, lines, brick, state)
}

fn show_leaves(
    alloc: Global,
    lines: &mut Items<ReportLine>,
    brick: NodeNo,
    state: &BrickState,
) -> Result<(), Memory>
    ensures { OnOk result (lines.new ≡ lines.old ++ leaf_lines state.now.pairs brick (leaves_of state.now.leaves)) }
{
    let leaves = state.leaves.leaves(alloc)?;
    for leaf in leaves.as_slice() {
        lines.push(leaf_line(&state.pairs, brick, leaf))?;
    }
    Ok(())
}

fn leaf_line(pairs: &Table, brick: NodeNo, leaf: &Leaf) -> ReportLine
    ensures { result ≡ leaf_line pairs.now brick leaf.now }
{
    ReportLine::BrickLeaf {
        brick,
        name: leaf.name,
        epoch: leaf.epoch,
        pairs: pairs.count_under(leaf.name) as u64,
        list: leaf.list,
    }
}
