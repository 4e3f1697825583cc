//! What a join copies.
#![tactic(auto)]

pub mod laws;
