//! What is so of each brick's own leaves and leases.
#![tactic(auto)]

pub mod laws;
