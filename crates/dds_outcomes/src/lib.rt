//! Why each transaction has one outcome, which reaches all its live members.
#![tactic(auto)]

pub mod laws;
