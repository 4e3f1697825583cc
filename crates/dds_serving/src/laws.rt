//! The laws, as contracts of functions that do nothing.

ghost use Rattle.dds_serving.specs.Once.{LeavesChangeOnce};

/// Of each state of a brick: one turn leaves its leaves alone, or puts the leaf that it was told in the place of an own one, or serves
/// the leaf that its open order made.
pub fn leaves_change_once()
    ensures { LeavesChangeOnce }
{}
