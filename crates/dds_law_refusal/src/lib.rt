//! Why each refusal was true at the step that made it.
#![tactic(auto)]

pub mod laws;
