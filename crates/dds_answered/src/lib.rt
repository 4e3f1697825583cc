//! Why each call that was answered with a result stands in the history exactly once.
#![tactic(auto)]

pub mod laws;
