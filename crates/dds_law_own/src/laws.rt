//! The law, as the contract of a function that does nothing.

ghost use Rattle.dds_law_own.specs.Law.{BricksKeepTheirOwn};

/// In each world of each run, with stops, splits and joins, of each brick: its leaves stand under their names, list it, and have
/// no key in common; nor have the leases that it gave; and no update is pending on a key under a lease.
pub fn bricks_keep_their_own()
    ensures { BricksKeepTheirOwn }
{}
