//! The order of leaves, and whether names and stamps are the same.

ghost use Rattle.std.specs.Prelude.{◌≡◌};
ghost use Rattle.dds_base.specs.Name.{same_name};
ghost use Rattle.dds_groups.specs.Leaves.{same_stamp, newer};

use dds_base::leaf::Leaf;
use dds_base::name::LeafName;
use dds_base::number::Stamp;

/// Whether leaf `a` is newer than leaf `b`. It compares epochs, then depths, makers and counts.
pub fn newer(a: &Leaf, b: &Leaf) -> bool
    ensures { result ≡ newer a.now b.now }
{
    if a.epoch != b.epoch {
        return a.epoch > b.epoch;
    }
    if a.name.depth() != b.name.depth() {
        return a.name.depth() > b.name.depth();
    }
    if a.stamp.maker() != b.stamp.maker() {
        return a.stamp.maker() > b.stamp.maker();
    }
    a.stamp.count() > b.stamp.count()
}

pub fn same_name(a: &LeafName, b: &LeafName) -> bool
    ensures { result ≡ same_name a.now b.now }
{
    a.bits() == b.bits() && a.depth() == b.depth()
}

pub fn same_stamp(a: &Stamp, b: &Stamp) -> bool
    ensures { result ≡ same_stamp a.now b.now }
{
    a.maker() == b.maker() && a.count() == b.count()
}
