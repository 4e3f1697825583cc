//! Bricks that serve a key list each other.
#![tactic(auto)]

pub mod laws;
