//! The law, as the contract of a function that does nothing.

ghost use Rattle.dds_law_notice.specs.Law.{NoticesAreLast};

/// In each world of each run, with stops, splits and joins: a notice is of a node that stopped, and the last letter on its
/// link; and a node that knows another one as stopped has nothing more from it.
pub fn notices_are_last()
    ensures { NoticesAreLast }
{}
