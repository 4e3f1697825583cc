//! How open orders and leases end, along runs.
#![tactic(auto)]

pub mod laws;
