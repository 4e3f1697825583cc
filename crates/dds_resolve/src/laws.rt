//! The law, as the contract of a function that does nothing.

ghost use Rattle.dds_resolve.specs.Law.{ResolvingsAreReady};

/// In each world of each run, with stops, splits and joins: a brick resolves a transaction once, and only one whose library and
/// members before the brick itself it knows to have stopped.
pub fn resolvings_are_ready()
    ensures { ResolvingsAreReady }
{}
