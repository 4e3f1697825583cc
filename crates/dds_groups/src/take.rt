//! Whether a brick takes a leaf that it is told.

ghost use Rattle.std.specs.Prelude.{◌≡◌, nat_lt, if◌then◌else◌};
ghost use Rattle.dds_base.specs.NodeSet.{has_node};
ghost use Rattle.dds_groups.specs.Take.{maker_known, is_better_rival, may_take};

use crate::halves::is_half;
use crate::order::{newer, same_name, same_stamp};
use crate::successor::{has, successor};
use dds_base::leaf::Leaf;
use dds_base::node_set::NodeSet;
use dds_base::number::{NodeNo, Stamp};

/// Whether brick `me` takes `leaf` in the place of `own`, its leaf of the same name or of the whole that the name is a
/// half of. `free` says that no lease and no open join of `me` overlaps the name of `own`, and that none of its keys is
/// locked.
pub fn may_take(me: NodeNo, own: &Leaf, leaf: &Leaf, known: &NodeSet, free: bool) -> bool
    ensures { result ≡ may_take me own.now leaf.now (has_node known.now) free }
{
    free && has(&leaf.list, me.number())
        && maker_known(known, &leaf.stamp)
        && (same_name(&own.name, &leaf.name) || is_half(&own.name, &leaf.name))
        && (successor(own, leaf).is_some() || is_better_rival(known, own, leaf))
}

fn is_better_rival(known: &NodeSet, own: &Leaf, leaf: &Leaf) -> bool
    ensures { result ≡ is_better_rival (has_node known.now) own.now leaf.now }
{
    same_stamp(&own.prev, &leaf.prev)
        && own.epoch == leaf.epoch
        && !same_stamp(&own.stamp, &leaf.stamp)
        && maker_known(known, &own.stamp)
        && newer(leaf, own)
}

/// Whether the stamp's maker is a node that is known to have stopped. The maker of an opening leaf is none.
pub fn maker_known(known: &NodeSet, stamp: &Stamp) -> bool
    ensures { result ≡ maker_known (has_node known.now) stamp.now }
{
    match NodeNo::of(stamp.maker()) {
        Some(maker) => known.has(maker),
        None => false,
    }
}
