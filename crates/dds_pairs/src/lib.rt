//! What is so of a brick's pairs, and of the pairs that a join has copied.
#![tactic(auto)]

pub mod laws;
