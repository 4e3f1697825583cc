//! What bricks hold is what the one history left.
#![tactic(auto)]

pub mod laws;
