//! What is so of calls, attempts and the numbers of nodes in every run.
#![tactic(auto)]

pub mod laws;
