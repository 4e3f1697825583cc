//! The law, as the contract of a function that does nothing.

ghost use Rattle.dds_answered.specs.Law.{AnsweredCallsStand};

/// In each run, with stops, splits and joins: a call that was answered with a result has exactly one entry in the history, behind its Input
/// and before its answer; of a get it has the reply that was answered.
pub fn answered_calls_stand()
    ensures { AnsweredCallsStand }
{}
