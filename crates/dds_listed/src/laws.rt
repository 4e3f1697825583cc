//! The laws, as contracts of functions that do nothing.

ghost use Rattle.dds_listed.specs.Law.{JoinsAreUnlisted};

/// In each world of each run, with stops, splits and joins, provided that in that world live members answer for such leaves that list them:
/// wherever a leaf stands that isn't one of the opening's stale ones, and has the name of a live brick's open join without a leaf, it
/// doesn't list that brick.
pub fn joins_are_unlisted()
    ensures { JoinsAreUnlisted }
{}
