//! Why what a stopped library left pending is resolved, and no question is put off for no reason.
#![tactic(auto)]

pub mod laws;
