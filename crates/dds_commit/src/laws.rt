//! The law, as the contract of a function that does nothing.

ghost use Rattle.dds_commit.specs.Law.{PartsHold};

/// In the world that a run reaches, with stops, splits and joins: what two-phase commit stands on holds of all nodes and of all that is
/// on its way, with books of what the run decided: links, open calls and attempts, conversations, and what was decided.
pub fn parts_hold()
    ensures { PartsHold }
{}
