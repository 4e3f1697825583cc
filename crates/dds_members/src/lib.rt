//! That no node stands twice in lists.
#![tactic(auto)]

pub mod laws;
