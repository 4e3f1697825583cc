//! The laws, as contracts of functions that do nothing.

ghost use Rattle.dds_due.specs.Law.{CallsAreDue, OpenCallsAreListed, QuietCallsAreAnswered, QuietLibrariesHoldNothing};

/// In each world of each run, with stops, splits and joins: a caller's open call at a library that lives is one of the library's open
/// calls; and each call that was asked was answered, or is its caller's open call.
pub fn open_calls_are_listed()
    ensures { OpenCallsAreListed }
{}

/// In each world of each run, with stops, splits and joins: where an open call of a library that lives waits for a brick that lives, what
/// the library asked it for this attempt is on its way to the brick, or what the brick told of it is on its way back.
pub fn calls_are_due()
    ensures { CallsAreDue }
{}

/// In each run, with stops, splits and joins, that has come to a world in which nothing is on its way: a library that lives has no call
/// open, and each call whose library lives was answered.
pub fn quiet_calls_are_answered()
    ensures { QuietCallsAreAnswered }
{}

/// In each such world: a transaction that is pending at a live brick is of a library that has stopped, and the brick knows it.
pub fn quiet_libraries_hold_nothing()
    ensures { QuietLibrariesHoldNothing }
{}
