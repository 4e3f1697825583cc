//! The laws, each as the contract of a function that does nothing.

ghost use Rattle.dds_calls.specs.Law.{AnswersAreCaused, EntriesAreCalls, GetsStandAnswered, NoneIsOfStops};

/// After each run, with stops, splits and joins: each entry of the history is of a call that was asked, and has its operation.
pub fn entries_are_calls()
    ensures { EntriesAreCalls }
{}

/// After each run: each call that was answered Again, Full or Lost has the cause of its answer in the run, between its input and
/// its answer. A brick that took a Get or a Prepare of it refused it for this, or a brick that had stopped was one of its attempt's
/// members or of its library's leaf, or all members of its update had stopped before one told that it applied it.
pub fn answers_are_caused()
    ensures { AnswersAreCaused }
{}

/// After each run in which nothing stops: no call was answered Lost, or Again since a brick stopped.
pub fn none_is_of_stops()
    ensures { NoneIsOfStops }
{}

/// After each run: a get that isn't answered with a result has no entry.
pub fn gets_stand_answered()
    ensures { GetsStandAnswered }
{}
