//! What two-phase commit and calls are proved to keep in every run.
#![tactic(auto)]

pub mod laws;
