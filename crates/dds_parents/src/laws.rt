//! The laws, as contracts of functions that do nothing.

ghost use Rattle.dds_parents.specs.Law.{LeavesListParents};
ghost use Rattle.dds_parents.specs.Served.{ServedLeavesList};
ghost use Rattle.dds_parents.specs.SplitLeaves.{SplitLeavesStand};
ghost use Rattle.dds_parents.specs.Taken.{TakenLeavesList};

/// In each world of each run, with stops, splits and joins, wherever leaves stand: a leaf lists each live member of the leaf that it
/// came from.
pub fn leaves_list_parents()
    ensures { LeavesListParents }
{}

/// In each world of each run: a leaf that a live brick may take or install in the place of another one lists each live member of
/// that one.
pub fn taken_leaves_list()
    ensures { TakenLeavesList }
{}

/// In each world of each run, of each brick: while a split of its own is open, the split's leaf is one of the brick's.
pub fn split_leaves_stand()
    ensures { SplitLeavesStand }
{}

/// In each world of each run, of each live brick: where it takes or installs a leaf in the place of its own, or serves the leaf that
/// its order made, the leaf over a key lists each live member of the one that was over it.
pub fn served_leaves_list()
    ensures { ServedLeavesList }
{}
