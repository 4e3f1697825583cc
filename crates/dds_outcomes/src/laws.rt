//! The law, as the contract of a function that does nothing.

ghost use Rattle.dds_outcomes.specs.Law.{OutcomesAreOne};

/// After each run, with stops, splits and joins: where commit of a transaction was decided, each live member has it pending or has
/// applied it; no two live members have different outcomes; and a status is told only to a member that can be the resolver.
pub fn outcomes_are_one()
    ensures { OutcomesAreOne }
{}
