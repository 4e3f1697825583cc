//! Bricks that serve a key list each other, in every run.
#![tactic(auto)]

pub mod laws;
