//! The laws, as contracts of functions that do nothing.

ghost use Rattle.dds_share.specs.Law.{ServersListEachOther};

/// In each world of each run, with stops, splits and joins, provided that orders and their members talk as the table of conversations
/// says at each place of the run: live bricks that serve a key list each other.
pub fn servers_share()
    ensures { ServersListEachOther }
{}
