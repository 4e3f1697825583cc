//! The law, as the contract of a function that does nothing.

ghost use Rattle.dds_law_refusal.specs.Law.{RefusalsWereMade};

/// In each world that a run reaches, with stops, splits and joins: a refusal in a letter, kept by a library or given by an
/// order was true at the step at which a brick made it.
pub fn refusals_were_true()
    ensures { RefusalsWereMade }
{}
