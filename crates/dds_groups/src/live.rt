//! The members of a group that aren't known to have stopped.

ghost use Rattle.std.specs.Prelude.{◌≡◌, ◌++◌, ◌∷◌, [], ◌<◌, false, length, if◌then◌else◌};
ghost use Rattle.dds_base.specs.BrickList.{has};
ghost use Rattle.dds_base.specs.NodeSet.{has_node};
ghost use Rattle.dds_groups.specs.Leaves.{live};

use dds_base::brick_list::{BrickList, LiveList};
use dds_base::node_set::NodeSet;
use dds_base::number::NodeNo;

/// The members that aren't known to have stopped, in their order.
pub fn live(list: &BrickList, known: &NodeSet) -> LiveList
    ensures { result ≡ live list.now (has_node known.now) }
{
    let mut members = LiveList::new();
    for place in 0..list.len() {
        push_live(&mut members, list.at(place), known);
    }
    members
}

fn push_live(members: &mut LiveList, member: NodeNo, known: &NodeSet)
    requires room { length members.old < 8 }
    requires brick { member < 64 }
    requires new { has members.old member ≡ false }
    ensures { members.new ≡ (if has_node known.now member then members.old else members.old ++ member ∷ []) }
{
    if !known.has(member) {
        members.push(member);
    }
}
