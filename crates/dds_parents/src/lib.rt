//! What a leaf lists of the leaf that it came from.
#![tactic(auto)]

pub mod laws;
