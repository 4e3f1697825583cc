//! The laws, as contracts of functions that do nothing.

ghost use Rattle.dds_room.specs.Parts.{PartsAlwaysGoOn};
ghost use Rattle.dds_room.specs.Room.{LeavesHaveRoom};

/// In each world of each run, with stops, splits and joins, of each live brick and each leaf of its own: the pairs under the leaf's name and those
/// that pending puts will add there are together at most the limit of a partition.
pub fn leaves_have_room()
    ensures { LeavesHaveRoom }
{}

/// In each world of each such run, at whose places orders and their members talk as the table of conversations says: where an open order of a live
/// brick copies from another one that lives, it has asked for pairs, or a part of them is on its way to it.
pub fn parts_go_on()
    ensures { PartsAlwaysGoOn }
{}
