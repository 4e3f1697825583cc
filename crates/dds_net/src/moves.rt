//! That each step is a move, as the contract of a function that does nothing.

ghost use Rattle.dds_net.specs.Law.{StepsAreMoves};

/// Each step that is possible after a journal is a move of the cluster's nodes and channels.
pub fn steps_are_moves()
    ensures { StepsAreMoves }
{}
