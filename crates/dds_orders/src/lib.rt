//! What is so of orders: their letters, the leases that they ask for, and the leaves that they change.
#![tactic(auto)]

pub mod laws;
