//! The laws, as contracts of functions that do nothing.

ghost use Rattle.dds_pairs.specs.Apart.{JoinsStandApart};
ghost use Rattle.dds_pairs.specs.Copied.{CopiedPairsRise};
ghost use Rattle.dds_pairs.specs.Lie.{PairsLieUnderLeaves};
ghost use Rattle.dds_pairs.specs.Names.{LeavesHaveNames};

/// In each world of each run, of each brick with an open join: none of its leaves has a key in common with the join's name, and no
/// update is pending on a key under that name.
pub fn joins_stand_apart()
    ensures { JoinsStandApart }
{}

/// In each world of each run, of each brick's open order: the pairs that it has copied lie under the order's name, each one's place is
/// behind that of the one before it, and there are none while the order waits for leases; and the pairs of each part that is on its way
/// stand in that order too.
pub fn copied_pairs_rise()
    ensures { CopiedPairsRise }
{}

/// In each world of each run, with stops, splits and joins, wherever leaves stand: a leaf's name is one of a partition, at most 16 bits deep
/// and with no more bits than its depth.
pub fn leaves_have_names()
    ensures { LeavesHaveNames }
{}

/// In each world of each run, with stops, splits and joins, of each brick: each key that it has bound is covered by a leaf of its own.
pub fn pairs_lie_under_leaves()
    ensures { PairsLieUnderLeaves }
{}
