//! How orders and their members talk, along runs.
#![tactic(auto)]

pub mod laws;
