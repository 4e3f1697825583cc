//! The law, as the contract of a function that does nothing.

ghost use Rattle.dds_law_leaf.specs.Law.{LeavesAreOne};

/// In the worlds of each run, with stops, splits and joins, wherever leaves stand: two of one name and stamp are one leaf;
/// and two of one stamp, in one world or at different places of the run, differ in their names alone.
pub fn leaves_are_one()
    ensures { LeavesAreOne }
{}
