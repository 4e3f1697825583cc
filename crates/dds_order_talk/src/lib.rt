//! What a brick with an open order and a member of the order's leaf say to each other.
#![tactic(auto)]

pub mod laws;
