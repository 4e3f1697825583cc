//! Two-phase commit: the conversations of a library and a member of an attempt, and what was decided. `proofs/Keeps.antt` has
//! that each event keeps them, where the other rungs give what it owes.
#![tactic(auto)]

pub mod laws;
