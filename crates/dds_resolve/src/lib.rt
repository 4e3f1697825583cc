//! How bricks resolve what a stopped library left.
#![tactic(auto)]

pub mod laws;
