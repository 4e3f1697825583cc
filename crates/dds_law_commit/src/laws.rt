//! The laws, as the contracts of functions that do nothing.

ghost use Rattle.dds_law_commit.specs.Calls.{CallsAreKept};
ghost use Rattle.dds_law_commit.specs.Causes.{AllAreCaused};
ghost use Rattle.dds_law_commit.specs.Commit.{CommitIsKept};

/// In each world of each run, with stops, splits and joins: a notice is its node's last letter, a decided commit reaches all live
/// members, a transaction has one outcome, and of a call's attempts the last alone is applied or pending.
pub fn commit_kept()
    ensures { CommitIsKept }
{}

/// In each run, with stops, splits and joins: a call that was answered with a result has one entry in the history, between its input and its
/// answer, a get's with the reply that was answered; a call that was refused has none; one that is open or was answered with no result has
/// at most one, behind its input, an open get none; and each entry is of a call that was asked, and has its operation.
pub fn calls_are_kept()
    ensures { CallsAreKept }
{}

/// In each run, with stops, splits and joins: a call answered Again met a lease, a lock, a stale leaf or a stopped member, as its answer
/// says; one answered Full found the partition full; and one answered Lost lost all members that hadn't told that they applied it.
pub fn all_answers_are_caused()
    ensures { AllAreCaused }
{}
