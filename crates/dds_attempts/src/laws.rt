//! The law, as the contract of a function that does nothing.

ghost use Rattle.dds_attempts.specs.Law.{LastAttemptsStand};

/// In each run, with stops, splits and joins: an update that was applied is of the last attempt of its call, among all that were ever
/// open, and so is one that is pending at a live brick.
pub fn last_attempts_stand()
    ensures { LastAttemptsStand }
{}
